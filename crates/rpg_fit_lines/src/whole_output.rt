//! Whole arrays in output lines: replaced by a field for each entry.

use crate::field::{end_on, name_on, width_on};
use rpg_fit_deck::{Editor, Seen, Sentence, View, Word};
use rpg_fit_words::{
    Array, DeckLines, Done, List, NewCard, Outcome, RuleStop, ShortNames, array_of, entry, is,
};

/// The most fields of a line.
const MOST_FIELDS: usize = 200;

/// Columns of a line: where they end, and how many there are.
type Span = (usize, usize);

/// The arrays that are renamed.
#[derive(Drop)]
struct Renamed {
    /// The old and the present name of each.
    names: List<(Word, Word)>,
    short: ShortNames,
}

/// Replaces each whole array by a field for each entry.
pub fn whole_outputs(editor: &mut Editor) -> Done {
    let deck = DeckLines::of(editor)?;
    let mut renamed = Renamed {
        names: List::new(editor.alloc()),
        short: ShortNames::new(editor.alloc()),
    };
    spread_lines(editor, &deck, &mut renamed)
}

fn spread_lines(editor: &mut Editor, deck: &DeckLines, renamed: &mut Renamed) -> Done {
    for line in deck.lines.iter() {
        spread_fields(editor, &deck.view, renamed, line.fields.as_slice())?;
    }
    renamed.names.check()
}

fn spread_fields(editor: &mut Editor, view: &View, renamed: &mut Renamed, fields: &[Seen]) -> Done {
    let mut before: List<Span> = List::new(editor.alloc());
    for field in fields {
        let name = name_on(&field.card);
        match array_of(view, name) {
            Some(array) if array.entries > 0 => {
                let row = Row::of(view, field, array);
                row.check(before.as_slice(), field.number)?;
                before.push((row.end, row.width()));
                let name = renamed.name_for(editor, field, array)?;
                row.put(editor, field, name);
            }
            _ if is(name, b"*PLACE") => {}
            _ => before.push((end_on(&field.card), width_on(view, &field.card))),
        }
    }
    before.check()
}

/// The entries of an array in a line, each `step` columns after the one before it.
#[derive(Clone, Copy)]
struct Row {
    entries: usize,
    entry: usize,
    step: usize,
    /// Where the last entry ends.
    end: usize,
}

impl Row {
    /// Returns the entries of an array that a field prints. Two blanks are between those edited by a code.
    fn of(view: &View, field: &Seen, array: Array) -> Row {
        let has_code = !field.card.is_blank(38, 38) && array.form.is_number();
        let entry = width_on(view, &field.card);
        let (entries, end) = (array.entries, end_on(&field.card));
        let step = entry.saturating_add(if has_code { 2 } else { 0 });
        Row {
            entries,
            entry,
            step,
            end,
        }
    }

    /// Returns how many columns lie between the ends of an entry, counted from 1, and of the last one.
    fn columns_after(&self, entry: usize) -> usize {
        self.step.saturating_mul(self.entries.saturating_sub(entry))
    }

    /// Returns how many columns all entries fill, and what is between them.
    fn width(&self) -> usize {
        self.columns_after(1).saturating_add(self.entry)
    }

    /// Returns where an entry ends, counted from 1.
    fn end_of(&self, entry: usize) -> usize {
        self.end.saturating_sub(self.columns_after(entry))
    }

    /// Whether a field is between two entries.
    fn has_between(&self, (end, width): Span) -> bool {
        for entry in 1..self.entries {
            let next = self.end_of(entry).saturating_add(self.step);
            let first = next.saturating_sub(self.entry);
            if end > self.end_of(entry) && end < first.saturating_add(width) {
                return true;
            }
        }
        false
    }

    /// Rejects fields between two entries.
    fn check_between(&self, before: &[Span], card: usize) -> Done {
        for field in before {
            if self.has_between(*field) {
                let why = "an earlier field stands between its entries";
                return Err(RuleStop::because(card, why));
            }
        }
        Ok(())
    }

    /// Rejects entries that don't fit in their line.
    fn check(&self, before: &[Span], card: usize) -> Done {
        if self.end < self.width() {
            return Err(RuleStop::because(card, "its first entry begins before column 1"));
        }
        self.check_between(before, card)?;
        if self.entries > MOST_FIELDS {
            let entries = Word::of_number(self.entries);
            return Err(RuleStop::about(card, "% entries, and a line has 200 fields", entries));
        }
        Ok(())
    }

    /// Replaces a field by a field for each entry. The last one replaces its card.
    fn put(&self, editor: &mut Editor, field: &Seen, name: Word) {
        for number in 1..self.entries.saturating_add(1) {
            let name = entry(name, Word::of_number(number));
            let copy = NewCard::copy(field).with(32, 37, name.text());
            let card = copy.with_number(40, 43, self.end_of(number)).card;
            if number < self.entries {
                editor.insert(field.at, card, field.number);
            } else {
                editor.change(field.at, card, field.number);
            }
        }
    }
}

impl Renamed {
    /// Returns a name for an array with room for the index of its last entry. Reports the field's change, by the array's present name.
    fn name_for(&mut self, editor: &mut Editor, field: &Seen, array: Array) -> Outcome<Word> {
        let entries = Word::of_number(array.entries);
        let name = self.name_now(array.name);
        let new = self.short.with_room(editor, name.text(), entries)?;
        if !is(new.text(), name.text()) {
            self.names.push((array.name, new));
        }
        let remark = if array.entries == 1 {
            "%: % field"
        } else {
            "%: % fields"
        };
        editor.report(field.number, Sentence::with(remark, &[name, entries]));
        Ok(new)
    }

    /// Returns the present name of an array.
    fn name_now(&self, name: Word) -> Word {
        for (old, new) in self.names.as_slice() {
            if is(old.text(), name.text()) {
                return *new;
            }
        }
        name
    }
}
