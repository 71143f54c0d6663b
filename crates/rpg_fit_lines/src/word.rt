//! Edit words with more places than their number has digits: the number is copied to a wider field.

use crate::field::{name_on, worded};
use rpg_fit_deck::{Editor, Seen, Sentence, Word};
use rpg_fit_words::{
    DeckLines, Done, Group, Line, List, NewCard, Operand, Outcome, Place, Printer, RuleStop, Time,
    calculation, fresh_name, groups_now, insert_at, is, is_date_part, is_table,
};

/// The most digits of a number.
const MOST_DIGITS: usize = 15;

/// Replaces each number with fewer digits than its word has places by a field with enough digits, to which it is copied before the line
/// is printed.
pub fn words(editor: &mut Editor) -> Done {
    let deck = DeckLines::of(editor)?;
    let printer = Printer::of(&deck.view);
    let is_total_skipped = printer.is_total_skipped_late(&deck.view, deck.lines.as_slice())?;
    let mut rule = Widening {
        deck: &deck,
        printer,
        is_total_skipped,
        wide: List::new(editor.alloc()),
    };
    rule.widen_lines(editor, deck.lines.as_slice())
}

/// A deck before its words are rewritten.
#[derive(Drop)]
struct Widening<'a> {
    deck: &'a DeckLines,
    printer: Printer,
    /// Whether overflow output may come before any total calculation.
    is_total_skipped: bool,
    wide: List<WideField>,
}

/// A number with fewer digits than its word has places.
#[derive(Clone, Copy)]
struct ShortNumber {
    field: Seen,
    /// Its name, which may have an index.
    name: Word,
    decimals: u8,
    places: usize,
}

impl ShortNumber {
    /// Returns a calculation whose result has its places and decimals.
    fn sized(&self, calculation: NewCard) -> NewCard {
        let card = calculation.with_number(49, 51, self.places);
        card.with(52, 52, &[self.decimals])
    }
}

/// A field to which a number is copied, and a place where it is; None for the field as such.
#[derive(Clone, Copy)]
struct WideField {
    number: Word,
    places: usize,
    name: Word,
    copied: Option<Moment>,
}

/// A point in the cycle at which numbers are copied.
#[derive(Clone, Copy, PartialEq, Eq)]
enum Moment {
    /// Before each EXCPT.
    BeforeExceptions,
    DetailEnd,
    TotalEnd,
}

impl Widening<'_> {
    /// Rewrites the words of all lines.
    fn widen_lines(&mut self, editor: &mut Editor, lines: &[Line]) -> Done {
        for (place, line) in lines.iter().enumerate() {
            self.widen_fields(editor, line, lines.get(..place).unwrap_or(&[]))?;
        }
        self.wide.check()
    }

    /// Rewrites the words of a line, which comes after others.
    fn widen_fields(&mut self, editor: &mut Editor, line: &Line, earlier: &[Line]) -> Done {
        for field in line.fields.iter() {
            if let Some(number) = self.short_number(field) {
                self.check(line, earlier, &number)?;
                let name = self.field(editor, &number, line)?;
                print_from(editor, &number, name);
            }
        }
        Ok(())
    }

    /// Returns the field for a number, to which it is copied before a line is printed, also at overflow.
    fn field(&mut self, editor: &mut Editor, number: &ShortNumber, line: &Line) -> Outcome<Word> {
        let (time, at_overflow) = (line.time, self.printer.has_overflow(line));
        let name = match find(self.wide.as_slice(), number) {
            Some(name) => name,
            None => define(editor, number, time)?,
        };
        self.push(number, name, None);
        if time == Time::Exception {
            self.copy(editor, number, name, Moment::BeforeExceptions)?;
        }
        if at_overflow || time != Time::Exception && time != Time::Total {
            self.copy(editor, number, name, Moment::DetailEnd)?;
        }
        if at_overflow || time == Time::Total {
            self.copy(editor, number, name, Moment::TotalEnd)?;
        }
        Ok(name)
    }

    fn push(&mut self, number: &ShortNumber, name: Word, copied: Option<Moment>) {
        self.wide.push(WideField {
            number: number.name,
            places: number.places,
            name,
            copied,
        });
    }

    /// Copies a number to a field at a point in the cycle, unless it is copied then.
    fn copy(&mut self, editor: &mut Editor, number: &ShortNumber, name: Word, at: Moment) -> Done {
        if is_copied(self.wide.as_slice(), name, at) {
            return Ok(());
        }
        self.push(number, name, Some(at));
        let card = number.field.number;
        let copy = number.sized(calculation(b"||Z-ADD|%|%", &[number.name, name], card));
        match at {
            Moment::BeforeExceptions => put_before_exceptions(editor, copy),
            Moment::DetailEnd => insert_at(editor, Place::DetailEnd, &[copy], card),
            Moment::TotalEnd => insert_at(editor, Place::TotalEnd, &[copy.with(7, 8, b"L0")], card),
        }
    }

    /// Returns the number of a field, if it has fewer digits than its word has places: its blanks, and its stop.
    fn short_number(&self, field: &Seen) -> Option<ShortNumber> {
        let (form, word) = worded(&self.deck.view, &field.card)?;
        let places = places_of(word.text());
        if form.length == 0 || places <= form.length {
            return None;
        }
        let (name, decimals) = (Word::of(name_on(&field.card)), form.decimals);
        Some(ShortNumber {
            field: *field,
            name,
            decimals,
            places,
        })
    }

    /// Rejects a number whose copy may differ from it when the line is printed.
    fn check(&self, line: &Line, earlier: &[Line], number: &ShortNumber) -> Done {
        let operand = Operand::of(number.name.text());
        let why = if number.places > MOST_DIGITS {
            Sentence::about("a word with % places", Word::of_number(number.places))
        } else if operand.has_index_field() {
            Sentence::of("a word with more places than digits beside an index field")
        } else if is(operand.name, b"PAGE") {
            Sentence::of("a word with more places than digits beside PAGE")
        } else if self.has_early_value(operand.name) && self.may_come_early(line, &number.field) {
            Sentence::of(EARLY)
        } else if self.may_be_blanked(line, earlier, operand.name) {
            Sentence::about(BLANKED, Word::of(operand.name))
        } else {
            return Ok(());
        };
        Err(RuleStop::refused(number.field.number, why))
    }

    /// Whether a name has a value before any calculation: part of the date, or data in the deck.
    fn has_early_value(&self, name: &[u8]) -> bool {
        self.deck.view.cards.iter().any(|seen| has_data(seen, name))
            || is(name, b"UDATE")
            || is_date_part(name)
    }

    /// Whether a field may be printed before any calculation.
    fn may_come_early(&self, line: &Line, field: &Seen) -> bool {
        line.is_field_put_first(field) || self.is_total_skipped && self.printer.has_overflow(line)
    }

    /// Whether a field may be blanked between its copy and its line: by an earlier line of the same time, or by any line if its own has
    /// an alternative for overflow.
    fn may_be_blanked(&self, line: &Line, earlier: &[Line], name: &[u8]) -> bool {
        if self.printer.has_overflow(line) {
            return any_blanks(self.deck.lines.as_slice(), name, None);
        }
        any_blanks(earlier, name, Some(line.time))
    }
}

/// Why a number with a value before any calculation isn't copied.
const EARLY: &str =
    "a word with more places than digits, and the line may be printed before any calculation";

/// Why a number that may be blanked isn't copied.
const BLANKED: &str = "a word with more places than digits, and a line before it blanks %";

/// Whether a card defines a table or an array with this name, and the deck has data for it.
fn has_data(seen: &Seen, name: &[u8]) -> bool {
    is_table(seen, name) && !seen.card.is_blank(33, 35)
}

/// Returns how many digits a word has places for: its blanks, and its stop.
fn places_of(word: &[u8]) -> usize {
    let mut blanks: usize = 0;
    let mut stop = 0;
    for place in word {
        match *place {
            b' ' => blanks = blanks.saturating_add(1),
            b'0' | b'*' => stop = 1,
            _ => {}
        }
    }
    blanks.saturating_add(stop)
}

/// Whether one of some lines, of this time if one is given, blanks a field.
fn any_blanks(lines: &[Line], name: &[u8], time: Option<Time>) -> bool {
    lines.iter().any(|line| is_same_time(line.time, time.unwrap_or(line.time)) && line.blanks(name))
}

/// Whether lines of two times are printed without calculations between them.
fn is_same_time(one: Time, other: Time) -> bool {
    one == other || one.is_detail() && other.is_detail()
}

/// Returns the name of the existing field for a number.
fn find(wide: &[WideField], number: &ShortNumber) -> Option<Word> {
    let found = wide.iter().find(|field| {
        is(field.number.text(), number.name.text()) && field.places == number.places
    })?;
    Some(found.name)
}

/// Returns a name for the field of a number. If no EXCPT prints its line, a calculation that is never done defines its length.
fn define(editor: &mut Editor, number: &ShortNumber, time: Time) -> Outcome<Word> {
    let card = number.field.number;
    let name = fresh_name(&editor.view()?, b"W#", card)?;
    if time == Time::Exception && !has_exception(editor)? {
        let never = number.sized(calculation(b"NL0||Z-ADD|0|%", &[name], card));
        insert_at(editor, Place::DetailFront, &[never], card)?;
    }
    Ok(name)
}

/// Whether a deck has an EXCPT.
fn has_exception(editor: &Editor) -> Outcome<bool> {
    let groups = groups_now(editor)?;
    Ok(groups.iter().any(|group| is_exception(group)))
}

fn is_exception(group: &Group) -> bool {
    is(group.operation(), b"EXCPT")
}

/// Whether a number is already copied to a field at a point in the cycle.
fn is_copied(wide: &[WideField], name: Word, moment: Moment) -> bool {
    wide.iter().any(|done| done.copied == Some(moment) && is(done.name.text(), name.text()))
}

/// Inserts a calculation before each EXCPT.
fn put_before_exceptions(editor: &mut Editor, copy: NewCard) -> Done {
    let groups = groups_now(editor)?;
    for group in groups.iter() {
        if is_exception(group) {
            let level = group.section().level().word();
            let at = copy.with(7, 8, level.text());
            editor.insert(group.first().at, at.card, at.number);
        }
    }
    Ok(())
}

/// Prints a field in place of a number. The number is still blanked by its own card, where it was.
fn print_from(editor: &mut Editor, number: &ShortNumber, name: Word) {
    let field = &number.field;
    if field.card.column(39) == b'B' {
        editor.insert(field.at, field.card.made().with(45, 70, &[]), field.number);
    }
    let card = field.card.with(39, 39, &[]).with(32, 37, name.text());
    let remark = "% is printed from %, which has % digits, one for each place of its word";
    let places = Word::of_number(number.places);
    let remark = Sentence::with(remark, &[number.name, name, places]);
    editor.rewrite(field, card, remark);
}
