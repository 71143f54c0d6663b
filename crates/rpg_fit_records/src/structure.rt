//! Data structures over input fields.

use crate::put_together::assemble;
use crate::taken_apart::take_apart;
use rpg_fit_deck::{Editor, Seen, View, Word};
use rpg_fit_terms::is_name_on;
use rpg_fit_words::{
    Done, Line, List, Operand, Outcome, RecordType, RuleStop, is, is_card, is_structure, lines,
    record_types, remove_cards, types_now,
};

/// Replaces each data structure: its subfields are read from the columns of the field that fills it.
pub fn structures(editor: &mut Editor) -> Done {
    let types = types_now(editor)?;
    replace_all(editor, types.as_slice())
}

fn replace_all(editor: &mut Editor, types: &[RecordType]) -> Done {
    for kind in types {
        if is_structure(&kind.head.card) {
            replace(editor, kind)?;
        }
    }
    Ok(())
}

/// The columns of a subfield in its structure.
#[derive(Clone, Copy)]
pub(crate) struct Span {
    pub first: usize,
    pub last: usize,
}

impl Span {
    /// Returns the columns of a field, if they can be read.
    pub fn of(field: &Seen) -> Option<Span> {
        let span = Span {
            first: field.card.number(44, 47)?,
            last: field.card.number(48, 51)?,
        };
        (span.first > 0 && span.first <= span.last).then_some(span)
    }

    /// Returns how many columns it has.
    pub fn length(&self) -> usize {
        self.last.saturating_add(1).saturating_sub(self.first)
    }

    /// Whether it has all columns of another one.
    pub fn has(&self, other: Span) -> bool {
        self.first <= other.first && other.last <= self.last
    }
}

/// A subfield of a structure.
#[derive(Clone, Copy)]
pub(crate) struct Subfield {
    pub seen: Seen,
    pub name: Word,
    pub span: Span,
}

impl Subfield {
    /// Returns the digit of its decimals; a blank for a text.
    pub fn decimals(&self) -> u8 {
        self.seen.card.column(52)
    }
}

/// A data structure, and the deck that it stands in.
#[derive(Drop)]
pub(crate) struct Structure<'a> {
    pub kind: &'a RecordType,
    pub view: View,
    pub types: Vec<RecordType>,
    pub lines: Vec<Line>,
    pub subfields: List<Subfield>,
    /// Its own name, which may be empty.
    pub name: Word,
    /// Its last column.
    pub end: usize,
}

/// Returns the name on an I card.
fn name_on(field: &Seen) -> &[u8] {
    field.card.value(53, 58)
}

/// Whether a calculation changes a field.
fn is_calculated(view: &View, name: &[u8]) -> bool {
    view.cards.iter().any(|seen| is_card(seen, b'C')
        && is(Operand::of(seen.card.value(43, 48)).name, name))
}

/// Whether a calculation or an output field has a name.
fn is_used(view: &View, name: &[u8]) -> bool {
    view.cards.iter().any(|seen| matches!(seen.card.form(), b'C' | b'O')
        && is_name_on(&seen.card, name))
}

impl Structure<'_> {
    /// Returns the number of its card.
    pub fn number(&self) -> usize {
        self.kind.head.number
    }

    /// Returns its whole, by its own name.
    pub fn whole(&self) -> Subfield {
        let (first, last) = (1, self.end);
        Subfield {
            seen: self.kind.head,
            name: self.name,
            span: Span { first, last },
        }
    }

    /// Returns the input fields of all record types with a name.
    pub fn inputs(&self, name: &[u8]) -> List<Seen> {
        let mut found = List::new(self.view.alloc);
        for kind in self.types.iter() {
            if !is_structure(&kind.head.card) {
                push_named(&mut found, kind, name);
            }
        }
        found
    }

    /// Whether a record type reads a field.
    pub fn is_read(&self, name: &[u8]) -> bool {
        let mut types = self.types.iter();
        types.any(|kind| !is_structure(&kind.head.card) && reads(kind, name))
    }

    /// Rejects a field that is changed.
    pub fn check_unchanged(&self, card: usize, name: Word) -> Done {
        if is_calculated(&self.view, name.text())
            || self.lines.iter().any(|line| line.blanks(name.text()))
        {
            let why = "% is changed, and with it what stands at its place";
            return Err(RuleStop::about(card, why, name));
        }
        Ok(())
    }

    /// Rejects input fields with a name that are packed, or have another form than some columns of the structure.
    pub fn check_inputs(&self, name: Word, span: Span, decimals: u8) -> Done {
        let inputs = self.inputs(name.text());
        for field in inputs.checked()? {
            let is_same = match Span::of(field) {
                Some(own) => own.length() == span.length() && field.card.column(52) == decimals,
                None => false,
            };
            if !is_same || field.card.column(43) != b' ' {
                let why = "% is read in another form than the structure's";
                return Err(RuleStop::about(field.number, why, name));
            }
        }
        Ok(())
    }

    /// Returns the subfields that record types read, in the order of the cards.
    fn read_subfields(&self) -> List<Subfield> {
        let mut found = List::new(self.view.alloc);
        for subfield in self.subfields.as_slice() {
            if self.is_read(subfield.name.text()) {
                found.push(*subfield);
            }
        }
        found
    }

    fn is_name_used(&self) -> bool {
        self.name.len() > 0 && is_used(&self.view, self.name.text())
    }

    /// Removes its cards.
    pub fn remove(&self, editor: &mut Editor) {
        editor.remove(self.kind.head.at, self.number());
        remove_cards(editor, self.kind.more.as_slice(), self.number());
        remove_cards(editor, self.kind.fields.as_slice(), self.number());
    }
}

/// Whether a type has a field with a name.
pub(crate) fn reads(kind: &RecordType, name: &[u8]) -> bool {
    kind.fields.iter().any(|field| is(name_on(field), name))
}

/// Appends a type's fields with a name.
fn push_named(found: &mut List<Seen>, kind: &RecordType, name: &[u8]) {
    for field in kind.fields.iter() {
        if is(name_on(field), name) {
            found.push(*field);
        }
    }
}

/// Returns the subfields of a structure; None if the columns of one can't be read.
fn subfields_of(view: &View, kind: &RecordType) -> Outcome<Option<List<Subfield>>> {
    let mut found: List<Subfield> = List::new(view.alloc);
    for field in kind.fields.iter() {
        let Some(span) = Span::of(field) else {
            return Ok(None);
        };
        let mut others = found.as_slice().iter();
        if others.any(|other| is(other.name.text(), name_on(field))) {
            return Err(RuleStop::because(kind.head.number, "a subfield stands twice"));
        }
        found.push(Subfield {
            seen: *field,
            name: Word::of(name_on(field)),
            span,
        });
    }
    found.check()?;
    Ok(Some(found))
}

/// Returns the greatest last column of some subfields.
fn end_of(subfields: &[Subfield]) -> usize {
    let mut end = 0;
    for subfield in subfields {
        end = end.max(subfield.span.last);
    }
    end
}

/// Replaces a structure. One whose columns can't be read stays, for the compiler to report.
fn replace(editor: &mut Editor, kind: &RecordType) -> Done {
    if kind.head.card.column(18) == b'U' {
        let why = "UDS, the local data area: give its values on a first record";
        return Err(RuleStop::because(kind.head.number, why));
    }
    let view = editor.view()?;
    let Some(subfields) = subfields_of(&view, kind)? else {
        return Ok(());
    };
    let structure = Structure {
        kind,
        types: record_types(&view)?,
        lines: lines(&view)?,
        end: end_of(subfields.as_slice()),
        subfields,
        name: Word::of(kind.head.card.value(7, 12)),
        view,
    };
    replace_filled(editor, &structure)
}

/// Replaces a structure, by what fills it.
fn replace_filled(editor: &mut Editor, structure: &Structure) -> Done {
    let read = structure.read_subfields();
    let read = read.checked()?;
    if structure.name.len() > 0 && structure.is_read(structure.name.text()) {
        if let Some(other) = read.first() {
            let names = [structure.name, other.name];
            return Err(RuleStop::with(structure.number(), "% and % are both read", &names));
        }
        return take_apart(editor, structure, structure.whole());
    }
    match read {
        [] => {
            let why = "a data structure that no record fills";
            Err(RuleStop::because(structure.number(), why))
        }
        [parent] if !structure.is_name_used() => take_apart(editor, structure, *parent),
        pieces => assemble(editor, structure, pieces),
    }
}
