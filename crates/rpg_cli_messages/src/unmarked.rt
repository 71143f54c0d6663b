//! Slips that show on several cards: data without a `**` card before it; shorthand given as a source; S4, a card of a later sheet before this
//! one; and slips that all cards have: the form type stands in another column, or all are in small letters, or the source is of RPG IV.

use rpg_cli_causes::CardLines;
use rpg_cli_columns::{character_at, has_card_number};
use rpg_cli_diagnostics::Draft;
use rpg_cli_shorthand::{begins_data, ends_source, is_shorthand};
use rpg_cli_text::TextWriter;
use rpg_faults::{CardFault, SourceCode};
use rpg_sheet::{Card, MOST_CARDS, SheetCode, sheet_place};
use rpg_sheet_values::form_type_of;
use rpg_text::{has_only_characters, is_blank};

/// The tables and lines of a source.
#[derive(Clone, Copy)]
struct Tally {
    /// How many E cards have entries per card: their data come after a `**` card.
    wanted: usize,
    begun: usize,
    /// The last O card; 0 if there is none.
    last_line: u16,
}

/// Whether a line is a card with this form type, and no comment.
fn is_card(line: &[u8], form: u8) -> bool {
    character_at(line, 6) == form && character_at(line, 7) != b'*' && has_card_number(line)
}

impl Tally {
    /// Counts a card. After the first `**` card there are no sheets.
    fn note(&mut self, card: u16, line: &[u8]) {
        if begins_data(line) {
            self.begun = self.begun.saturating_add(1);
        } else if self.begun == 0 {
            let entries = line.get(32..line.len().min(35)).unwrap_or(&[]);
            if is_card(line, b'E') && !is_blank(entries) {
                self.wanted = self.wanted.saturating_add(1);
            }
            if is_card(line, b'O') {
                self.last_line = card;
            }
        }
    }

    fn of(text: &[u8]) -> Tally {
        let mut tally = Tally {
            wanted: 0,
            begun: 0,
            last_line: 0,
        };
        let mut lines = CardLines::of(text);
        for card in 1..=MOST_CARDS {
            let line = lines.line_of(card);
            if ends_source(line) {
                break;
            }
            tally.note(card, line);
        }
        tally
    }
}

/// Writes that a card of a source, given by number, may be data: it comes after the last O card, and some E cards have no data.
pub(crate) fn write_unmarked(out: &mut TextWriter, text: &[u8], number: u16) {
    let tally = Tally::of(text);
    if tally.begun < tally.wanted && 0 < tally.last_line && tally.last_line < number {
        out.write_str("; or a ** card is missing before data");
    }
}

const COLUMNS: usize = 80;

/// Whether S3 rejects a line that comes before all data.
fn lacks_form_type(line: &[u8]) -> bool {
    if line.len() > COLUMNS || !has_only_characters(line) {
        return false;
    }
    let card = Card::new(line);
    !card.is_skipped() && card.form_type().is_none()
}

/// Whether S3 rejects no card before one of them, which it rejects.
fn is_first(text: &[u8], number: u16) -> bool {
    let mut lines = CardLines::of(text);
    for card in 1..number {
        if lacks_form_type(lines.line_of(card)) {
            return false;
        }
    }
    true
}

/// Writes that a card without a form type is shorthand, if it is the first that S3 rejects.
pub(crate) fn write_shorthand(out: &mut TextWriter, text: &[u8], number: u16, line: &[u8]) {
    if is_shorthand(line) && is_first(text, number) {
        out.write_str("; this looks like shorthand: rpg2 cards turns it into cards");
    }
}

#[derive(Clone, Copy, PartialEq, Eq, Hash)]
pub(crate) struct LaterCard {
    pub card: u16,
    form: u8,
}

/// Returns the place of a line's sheet. A comment has none.
fn place_of(line: &[u8]) -> Option<u8> {
    if character_at(line, 7) == b'*' {
        return None;
    }
    Some(sheet_place(form_type_of(&[character_at(line, 6)])?))
}

/// Returns the first earlier card that is of a later sheet.
pub(crate) fn later_card(text: &[u8], number: u16, line: &[u8]) -> Option<LaterCard> {
    let own = place_of(line)?;
    let mut lines = CardLines::of(text);
    for card in 1..number {
        let other = lines.line_of(card);
        if matches!(place_of(other), Some(place) if place > own) {
            let form = character_at(other, 6);
            return Some(LaterCard { card, form });
        }
    }
    None
}

/// Writes that a card comes after one of a later sheet.
pub(crate) fn write_order(out: &mut TextWriter, later: Option<LaterCard>) {
    match later {
        Some(LaterCard { card, form }) => {
            out.fill_two("card {} is of a later sheet, {}", card, [form].as_slice());
        }
        None => out.write_str("a card of a later sheet comes before this one"),
    }
    out.write_str(": the sheets come in the order H, F, E, L, I, C, O");
}

const FORM_TYPE: usize = 6;

/// The last column in which a form type is looked for.
const LAST: usize = 46;

/// How many cards have a slip at least that is reported for all of them.
const LEAST: usize = 3;

/// A slip that all cards of a source have.
#[derive(Clone, Copy, PartialEq, Eq)]
pub(crate) enum Slip {
    /// The form type stands in this column.
    Moved { column: usize },
    SmallLetters,
    Free,
}

/// A slip, the first card that has it, and how many have it.
#[derive(Clone, Copy)]
pub(crate) struct DeckSlip {
    pub slip: Slip,
    pub first: u16,
    pub cards: usize,
}

/// Returns the slip of a card by itself. A form type may stand where the first character is that is neither a blank nor a digit.
fn slip_of(line: &[u8]) -> Option<Slip> {
    if matches!(
        character_at(line, FORM_TYPE),
        b'h' | b'f' | b'e' | b'l' | b'i' | b'c' | b'o'
    ) {
        return Some(Slip::SmallLetters);
    }
    if is_shorthand(line) {
        return None;
    }
    let mut columns = 1..=LAST;
    let column = columns.find(|at| !matches!(character_at(line, *at), b' ' | b'0'..=b'9'))?;
    match character_at(line, column) {
        b'H' | b'F' | b'E' | b'L' | b'I' | b'C' | b'O' => Some(Slip::Moved { column }),
        _ => None,
    }
}

impl Slip {
    pub fn column(self) -> usize {
        match self {
            Slip::Moved { column } => column,
            Slip::SmallLetters => FORM_TYPE,
            Slip::Free => 1,
        }
    }
}

/// Returns the slip that all cards before the data have.
fn common_slip(source: &[u8]) -> Option<DeckSlip> {
    let mut found: Option<DeckSlip> = None;
    let mut lines = CardLines::of(source);
    for first in 1..=MOST_CARDS {
        let line = lines.line_of(first);
        if begins_data(line) || ends_source(line) {
            break;
        }
        if is_blank(line) {
            continue;
        }
        let slip = slip_of(line);
        found = match (found, slip) {
            // A comment, once its card is where it belongs.
            (Some(deck), _) if character_at(line, deck.slip.column().saturating_add(1)) == b'*' =>
                Some(deck),
            (None, Some(slip)) => Some(DeckSlip::at(slip, first)),
            (Some(deck), Some(slip)) if deck.slip == slip => Some(DeckSlip {
                cards: deck.cards.saturating_add(1),
                ..deck
            }),
            _ => return None,
        };
    }
    found
}

impl DeckSlip {
    fn at(slip: Slip, first: u16) -> Self {
        let cards = 1;
        DeckSlip { slip, first, cards }
    }

    /// Returns the slip of a source with these faults, if all its cards have one.
    pub fn of(source: &[u8], faults: &[CardFault]) -> Option<DeckSlip> {
        if matches!(source.get(..6), Some(word) if word.eq_ignore_ascii_case(b"**FREE")) {
            return Some(DeckSlip::at(Slip::Free, 1));
        }
        let is_of_form = |fault: &&CardFault| matches!(
            fault.code,
            SourceCode::Sheet(SheetCode::S3)
        );
        let count = faults.iter().filter(is_of_form).count();
        if count < LEAST {
            return None;
        }
        let found = common_slip(source)?;
        (LEAST <= found.cards && found.cards <= count).then_some(found)
    }

    /// Writes what it is, and adds the command that mends a file.
    pub fn write(self, draft: &mut Draft<'_>) {
        let sentence = match self.slip {
            Slip::Moved { .. } => {
                "on all {} cards the form type is in column {}: it belongs in column 6"
            }
            Slip::SmallLetters => "all {} cards are in small letters: rpg2 reads capitals",
            Slip::Free => "this is RPG IV (**FREE), which rpg2 doesn't read: it reads RPG II",
        };
        draft
            .message
            .fill_two(sentence, self.cards, self.slip.column());
        let path = draft.path().unwrap_or("-").as_bytes();
        let mut remark = draft.text();
        match self.slip {
            _ if path == b"-".as_slice() => return,
            Slip::Moved { column } if column < FORM_TYPE => {
                remark.write_str("sed 's/^/");
                for _ in column..FORM_TYPE {
                    remark.write_char(' ');
                }
                remark.fill_one("/' {} > new.rpg moves them", path);
            }
            Slip::Moved { column } => {
                let first = column.saturating_sub(FORM_TYPE).saturating_add(1);
                remark.fill_two("cut -c{}- {} > new.rpg moves them", first, path);
            }
            Slip::SmallLetters => remark.fill_one(
                "tr a-z A-Z < {} > new.rpg makes capitals, of texts between apostrophes too",
                path,
            ),
            Slip::Free => return,
        }
        draft.remark(remark);
    }
}
