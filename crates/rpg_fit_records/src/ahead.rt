//! Look ahead: the columns of the next record stand after each record, where `rpg2 records --ahead` puts them.

use rpg_fit_deck::{Card, Editor, Seen, Sentence, View, Word};
use rpg_fit_terms::address_after;
use rpg_fit_words::{
    Columns, Conjunction, DeckTypes, Done, FileTypes, Group, Indicator, IndicatorUse, Line, List,
    NewCard, Operand, Outcome, RecordType, RuleStop, array_of, file_card, files_read, groups,
    indicator_uses, is, lines, operand_on, put_cards, record_length, remove_cards, types_now,
    with_record_length,
};
use std::alloc::Global;

/// The longest record.
const LONGEST: usize = 9999;

/// Why a field is rejected that may have the columns of a record that isn't waiting.
const ANY_RECORD: &str = "a look ahead field is used where no record of % need be";

/// Reads fields that look ahead from the columns after each record. A file whose columns can't be read stays, for the compiler to
/// report.
pub fn look_ahead(editor: &mut Editor) -> Done {
    let count = types_now(editor)?.len();
    for _ in 0..count {
        if !rewrite_first(editor)? {
            return Ok(());
        }
    }
    Ok(())
}

/// Rewrites the first type that looks ahead, and returns whether there was one.
fn rewrite_first(editor: &mut Editor) -> Outcome<bool> {
    let deck = DeckTypes::of(editor)?;
    match deck.types.iter().position(|kind| kind.is_looked_ahead()) {
        Some(place) => rewrite(editor, &deck, place)?,
        None => return Ok(false),
    }
    Ok(true)
}

/// The columns that are looked ahead, of records of a length.
#[derive(Clone, Copy)]
struct Ahead {
    first: usize,
    last: usize,
    length: usize,
}

impl Ahead {
    /// Returns the columns of these fields, or None if they or the length can't be read.
    fn of(fields: &[Seen], file: &Card) -> Option<Ahead> {
        if fields.is_empty() {
            return None;
        }
        let mut ahead = Ahead {
            first: usize::MAX,
            last: 0,
            length: record_length(file)?,
        };
        for field in fields {
            ahead.first = ahead.first.min(field.card.number(44, 47)?);
            ahead.last = ahead.last.max(field.card.number(48, 51)?);
        }
        (ahead.new_length() <= LONGEST).then_some(ahead)
    }

    /// Returns the length of a record with the columns after it.
    fn new_length(&self) -> usize {
        self.moved(self.last)
    }

    /// Returns where a column of the next record stands.
    fn moved(&self, column: usize) -> usize {
        column
            .saturating_sub(self.first)
            .saturating_add(self.length)
            .saturating_add(1)
    }

    /// Returns a field that has the columns after the record.
    fn field(&self, seen: &Seen) -> NewCard {
        let (first, last) = (seen.card.number(44, 47), seen.card.number(48, 51));
        NewCard::copy(seen)
            .with_number(44, 47, self.moved(first.unwrap_or(0)))
            .with_number(48, 51, self.moved(last.unwrap_or(0)))
    }
}

/// Returns the name that a field is called by, without its index.
fn base_of(field: &Seen) -> &[u8] {
    Operand::of(field.card.value(53, 58)).name
}

fn has_field(kind: &RecordType, name: &[u8]) -> bool {
    kind.fields.iter().any(|field| is(base_of(field), name))
}

/// Moves the fields of a type that looks ahead into the other types of its file.
fn rewrite(editor: &mut Editor, deck: &DeckTypes, place: usize) -> Done {
    let Some(kind) = deck.types.get(place) else {
        return Ok(());
    };
    check_names(deck, kind)?;
    check_uses(&deck.view, kind)?;
    check_forms(kind)?;
    let Some(file) = file_card(&deck.view, kind.file.text()) else {
        return Ok(());
    };
    let Some(ahead) = Ahead::of(kind.fields.as_slice(), &file.card) else {
        return Ok(());
    };
    put_fields(editor, deck, kind, ahead)?;
    name_next(editor, deck.types.as_slice(), place);
    let card = with_record_length(&file.card, ahead.new_length());
    editor.change(file.at, card, kind.head.number);
    take_out(editor, kind, ahead);
    Ok(())
}

/// Rejects arrays, and fields that other types have too.
fn check_names(deck: &DeckTypes, kind: &RecordType) -> Done {
    let mut fields = kind.fields.iter();
    if fields.any(|field| array_of(&deck.view, base_of(field)).is_some()) {
        return Err(RuleStop::because(kind.head.number, "an array that is looked ahead"));
    }
    for other in deck.types.iter() {
        if other.head.at != kind.head.at {
            check_other(other, kind)?;
        }
    }
    Ok(())
}

/// Rejects the first field of another type that looks ahead too.
fn check_other(other: &RecordType, kind: &RecordType) -> Done {
    for field in other.fields.iter() {
        if has_field(kind, base_of(field)) {
            let name = Word::of(field.card.value(53, 58));
            return Err(RuleStop::about(field.number, "% is looked ahead and read", name));
        }
    }
    Ok(())
}

/// Rejects packed and binary fields.
fn check_forms(kind: &RecordType) -> Done {
    for field in kind.fields.iter() {
        if !field.card.is_blank(43, 43) {
            let why = "packed or binary: rpg2 records first";
            return Err(RuleStop::because(field.number, why));
        }
    }
    Ok(())
}

/// Rejects uses of the fields beside another input file, unless a record of this one is needed.
fn check_uses(view: &View, kind: &RecordType) -> Done {
    if files_read(view).checked()?.len() < 2 {
        return Ok(());
    }
    let types = own_types(view, kind)?;
    check_groups(view, kind, &types)?;
    check_lines(view, kind, &types)
}

fn check_groups(view: &View, kind: &RecordType, types: &FileTypes) -> Done {
    let groups = groups(view)?;
    for group in groups.iter() {
        if is_done_alone(group, kind, types) {
            return Err(RuleStop::about(group.last.number, ANY_RECORD, kind.file));
        }
    }
    Ok(())
}

fn check_lines(view: &View, kind: &RecordType, types: &FileTypes) -> Done {
    let lines = lines(view)?;
    for line in lines.iter() {
        check_line(line, kind, types)?;
    }
    Ok(())
}

/// Returns the types of a file, with those indicators alone that nothing else turns on or off.
fn own_types(view: &View, kind: &RecordType) -> Outcome<FileTypes> {
    let mut types = FileTypes::of(view, kind.file)?;
    let uses = indicator_uses(view);
    let own = own_indicators(&types, uses.checked()?, view.alloc);
    own.check()?;
    types.indicators = own;
    Ok(types)
}

/// Returns the indicators of a file's types that nothing else turns on or off.
fn own_indicators(types: &FileTypes, uses: &[IndicatorUse], alloc: Global) -> List<Indicator> {
    let mut own = List::new(alloc);
    for indicator in types.indicators.as_slice() {
        let is_changed = uses
            .iter()
            .any(|one| one.indicator == *indicator && types.is_changed(one));
        if !indicator.is_blank() && !is_changed {
            own.push(*indicator);
        }
    }
    own
}

fn is_operand(card: &Card, kind: &RecordType) -> bool {
    Columns::ALL.iter().any(|columns| {
        let name = Operand::of(columns.value(card)).name;
        !name.is_empty() && has_field(kind, name)
    })
}

fn needs_record(seen: &Seen, types: &FileTypes) -> bool {
    types.type_in(&Conjunction::at(&seen.card, 9)).is_some()
}

fn is_either(seen: &Seen) -> bool {
    matches!(seen.card.columns(7, 8), b"OR")
}

/// Whether a calculation has one of the fields, and is done without a record of the file.
fn is_done_alone(group: &Group, kind: &RecordType, types: &FileTypes) -> bool {
    let last = &group.last;
    let mut uses = is_operand(&last.card, kind);
    let (mut needs, mut is_any) = (needs_record(last, types), is_either(last));
    for seen in group.leading.iter() {
        uses = uses || is_operand(&seen.card, kind);
        needs = needs || needs_record(seen, types);
        is_any = is_any || is_either(seen);
    }
    uses && (is_any || !needs)
}

/// Whether a line is put out only for a record of the file.
fn is_for_record(line: &Line, types: &FileTypes) -> bool {
    line.alternatives.iter().all(|alternative| types.type_in(&alternative.condition).is_some())
}

/// Rejects the fields of a line that need no record of the file.
fn check_line(line: &Line, kind: &RecordType, types: &FileTypes) -> Done {
    let is_for_record = is_for_record(line, types);
    for field in line.fields.iter() {
        let name = operand_on(field).name;
        let needs = is_for_record || types.type_in(&Conjunction::at(&field.card, 23)).is_some();
        if !needs && !name.is_empty() && has_field(kind, name) {
            return Err(RuleStop::about(field.number, ANY_RECORD, kind.file));
        }
    }
    Ok(())
}

/// Inserts the fields into each type of the file.
fn put_fields(editor: &mut Editor, deck: &DeckTypes, kind: &RecordType, ahead: Ahead) -> Done {
    let mut fields = List::new(editor.alloc());
    for field in kind.fields.iter() {
        fields.push(ahead.field(field));
    }
    let fields = fields.checked()?;
    for other in deck.types.iter() {
        if other.is_of(kind.file.text()) {
            let following = address_after(&deck.view, other.last().at);
            put_cards(editor, following, fields, kind.head.number)?;
        }
    }
    Ok(())
}

/// Puts the file's name on the card of the next type, if it has none and that of the type before it goes.
fn name_next(editor: &mut Editor, all: &[RecordType], place: usize) {
    let [kind, next, ..] = all.get(place..).unwrap_or(&[]) else {
        return;
    };
    let is_named = !kind.head.card.is_blank(7, 14);
    let (head, file) = (&next.head, kind.file.text());
    if is_named && head.card.is_blank(7, 14) && is(next.file.text(), file) {
        editor.change(head.at, head.card.with(7, 14, file), kind.head.number);
    }
}

/// Removes the type that looks ahead, and reports that.
fn take_out(editor: &mut Editor, kind: &RecordType, ahead: Ahead) {
    let number = kind.head.number;
    let text =
        "look ahead: rpg2 records --ahead %-% puts columns of the next record after each of %";
    let (first, last) = (Word::of_number(ahead.first), Word::of_number(ahead.last));
    editor.report(number, Sentence::with(text, &[first, last, kind.file]));
    editor.remove(kind.head.at, number);
    remove_cards(editor, kind.more.as_slice(), number);
    remove_cards(editor, kind.fields.as_slice(), number);
}
