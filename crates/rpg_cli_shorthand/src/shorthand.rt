//! Cards as lines of shorthand, and decks of both: the columns of a card under construction, the items of a line, each a column and a text,
//! and what is wrong with a line.

ghost use Rattle.std.specs.Prelude.{◌≤◌, IfSome};

use rpg_cli_columns::begins_range;
use rpg_cli_diagnostics::{Diagnostic, Draft, FileName, Made};
use rpg_cli_text::TextWriter;
use rpg_faults::{SourceCode, SourceFault};
use rpg_sheet::{MOST_CARDS, SheetCode};
use rpg_text::{first_line, has_only_characters, is_blank, trimmed};
use std::alloc::{AllocError, Global};

const COLUMNS: usize = 80;

/// The place of the form type, counted from 0.
const FORM_TYPE: usize = 5;

/// Whether an item is open, and whether it may contain blanks, as a text between apostrophes or a comment may.
#[derive(Clone, Copy)]
struct Item {
    is_open: bool,
    has_blanks: bool,
}

/// Whether a character belongs to no item: a blank before, after or between items. A blank ends any item if the rest would be taken for an
/// item.
fn is_between(text: &[u8], place: usize, character: u8, item: Item) -> bool {
    let after = text.get(place.saturating_add(1)..).unwrap_or(&[]);
    let is_inside = item.is_open && item.has_blanks && column_at(after).is_none();
    character == b' ' && !is_inside
}

/// Writes a character of an item, with its column if it begins one.
fn write_character(out: &mut TextWriter, text: &[u8], place: usize, character: u8, item: Item) {
    let column = place.saturating_add(1);
    if !item.is_open || (!item.has_blanks && begins_range(text, column)) {
        out.fill(" {}=", &[column.into()]);
    }
    out.write_char(char::from(character));
}

fn write_shorthand(out: &mut TextWriter, line: &[u8]) {
    let text = trimmed(line);
    if text.is_empty() {
        return;
    }
    let form = text.get(FORM_TYPE).copied().unwrap_or(b' ');
    out.write_char(char::from(form));
    let is_comment = text.get(FORM_TYPE.saturating_add(1)) == Some(&b'*');
    let first = Item {
        is_open: false,
        has_blanks: is_comment,
    };
    let mut item = first;
    for (place, character) in text.iter().enumerate() {
        if place == FORM_TYPE {
            item = first;
        } else if is_between(text, place, *character, item) {
            item.is_open = false;
        } else {
            write_character(out, text, place, *character, item);
            item = Item {
                is_open: true,
                has_blanks: is_comment || item.has_blanks != (*character == b'\''),
            };
        }
    }
}

fn code_of(line: &[u8]) -> Option<SheetCode> {
    if line.len() > COLUMNS {
        Some(SheetCode::S1)
    } else if !has_only_characters(line) {
        Some(SheetCode::S2)
    } else {
        None
    }
}

fn refused(card: u16, code: SheetCode) -> SourceFault {
    SourceFault::At {
        card,
        code: SourceCode::Sheet(code),
        columns: None,
    }
}

/// Writes a card, below a ruler if it is of another sheet than the cards before it. Returns its sheet.
fn write_ruled(out: &mut TextWriter, line: &[u8], before: u8) -> u8 {
    let form = line.get(FORM_TYPE).copied().unwrap_or(b' ');
    let is_comment = line.get(FORM_TYPE.saturating_add(1)) == Some(&b'*');
    let is_other = form != before && !is_comment && !is_blank(line);
    if is_other {
        out.write_str(RULER);
    }
    write_line(out, line);
    if is_other { form } else { before }
}

fn write_cards(out: &mut TextWriter, source: &[u8], is_ruled: bool) -> Result<(), SourceFault> {
    let mut rest = source;
    let mut is_data = false;
    let mut sheet = b' ';
    for card in 1..=MOST_CARDS {
        if rest.is_empty() {
            return Ok(());
        }
        let (line, more) = first_line(rest);
        if let Some(code) = code_of(line) {
            return Err(refused(card, code));
        }
        if ends_source(line) {
            return Ok(());
        }
        is_data = is_data || begins_data(line);
        if is_data {
            write_line(out, line);
        } else if is_ruled {
            sheet = write_ruled(out, line, sheet);
        } else {
            write_shorthand(out, line);
            out.write_char('\n');
        }
        rest = more;
    }
    match next_line(rest) {
        None => Ok(()),
        Some(_) => Err(refused(MOST_CARDS + 1, SheetCode::S6)),
    }
}

/// Converts the cards of a source to lines of shorthand, up to the card `/*`, which isn't included. An item begins after a blank and where
/// a range of the card's sheet begins; a text between apostrophes is one item, including its blanks. The error is the first card that has
/// more than 80 characters or a byte that isn't a character, or card 2,001. The cards may break any other rule.
pub fn shorthand_of(alloc: Global, source: &[u8]) -> Result<String, SourceFault> {
    let mut out = TextWriter::new(alloc);
    write_cards(&mut out, source, false)?;
    Ok(out.finish()?)
}

/// Returns the cards of a source, with a ruler above the first card and above each of another sheet. The error is as for `shorthand_of`.
pub fn ruled_of(alloc: Global, source: &[u8]) -> Result<String, SourceFault> {
    let mut out = TextWriter::new(alloc);
    write_cards(&mut out, source, true)?;
    Ok(out.finish()?)
}

/// Whether a file has cards: its first line that is neither blank nor a comment has a form type in column 6, and isn't shorthand.
pub fn are_cards(source: &[u8]) -> bool {
    let mut rest = source;
    for _ in 0..MOST_CARDS {
        let Some((line, more)) = next_line(rest) else {
            return false;
        };
        if !is_blank(line) && !matches!(line, [b' ', b' ', b' ', b' ', b' ', b' ', b'*', ..]) {
            let form = line.get(FORM_TYPE);
            return matches!(form, Some(b'H' | b'F' | b'E' | b'L' | b'I' | b'C' | b'O'))
                && !is_shorthand(line);
        }
        rest = more;
    }
    false
}

/// A ruler over 80 columns, which is itself a card: a comment, by the asterisk in column
/// 7.
pub const RULER: &str =
    "....+.*..1....+....2....+....3....+....4....+....5....+....6....+....7....+....8\n";

fn write_line(out: &mut TextWriter, line: &[u8]) {
    out.write_shown(trimmed(line));
    out.write_char('\n');
}

/// Writes the card of a line: data unchanged, other cards from their items.
fn write_card(out: &mut TextWriter, line: &[u8], is_data: bool) -> Result<(), LineFault> {
    if !has_only_characters(line) {
        return Err(LineFault::NoCharacter);
    }
    if !is_data {
        write_line(out, Columns::of(line)?.as_slice());
    } else if trimmed(line).len() <= COLUMNS {
        write_line(out, line);
    } else {
        return Err(LineFault::TooLong);
    }
    Ok(())
}

/// Returns the next line and those after it, or None at the end of the deck.
fn next_line(rest: &[u8]) -> Option<(&[u8], &[u8])> {
    if rest.is_empty() {
        return None;
    }
    let (line, more) = first_line(rest);
    if ends_source(line) {
        None
    } else {
        Some((line, more))
    }
}

fn write_deck(out: &mut TextWriter, shorthand: &[u8]) -> Result<(), ShorthandFault> {
    let mut rest = shorthand;
    let mut is_data = false;
    for line in 1..=MOST_CARDS {
        let Some((text, more)) = next_line(rest) else {
            return Ok(());
        };
        is_data = is_data || begins_data(text);
        if let Err(fault) = write_card(out, text, is_data) {
            return Err(ShorthandFault::At { line, fault });
        }
        rest = more;
    }
    let (line, fault) = (MOST_CARDS + 1, LineFault::TooMany);
    match next_line(rest) {
        None => Ok(()),
        Some(_) => Err(ShorthandFault::At { line, fault }),
    }
}

/// Converts lines of shorthand to cards, one a line and without trailing blanks, up to the line `/*`, which isn't included. A line is the
/// form type of a card, a blank, and then for each text its column, `=` and the text. A line `**` begins data, which are cards in full. The
/// error is the first line that isn't a card.
pub fn deck_of(alloc: Global, shorthand: &[u8]) -> Result<String, ShorthandFault> {
    let mut out = TextWriter::new(alloc);
    write_deck(&mut out, shorthand)?;
    Ok(out.finish()?)
}

/// Whether a line is a `**` card, which begins data: a blank or the line's end follows.
pub fn begins_data(line: &[u8]) -> bool {
    matches!(line, [b'*', b'*'] | [b'*', b'*', b' ', ..])
}

/// Whether a line is a `/*` card, which ends a source.
pub fn ends_source(line: &[u8]) -> bool {
    matches!(line, [b'/', b'*'] | [b'/', b'*', b' ', ..])
}

/// The column of the form type.
const FORM_COLUMN: u8 = 6;

/// Whether a text opens or closes one between apostrophes: it has an odd number of them after the form type.
fn turns_open(column: u8, text: &[u8]) -> bool {
    let mut is_odd = false;
    for (i, character) in text.iter().enumerate() {
        let there = usize::from(column).saturating_add(i);
        if *character == b'\'' && there > usize::from(FORM_COLUMN) {
            is_odd = !is_odd;
        }
    }
    is_odd
}

/// A card under construction.
#[derive(Clone, Copy)]
pub(crate) struct Columns {
    characters: [u8; 80],
}

impl Columns {
    pub fn of(line: &[u8]) -> Result<Self, LineFault> {
        let mut columns = Columns {
            characters: [b' '; 80],
        };
        match line {
            [] => {}
            [form] => columns.put(usize::from(FORM_COLUMN), *form)?,
            [form, b' ', items @ ..] => {
                columns.put(usize::from(FORM_COLUMN), *form)?;
                columns.put_items(without_blanks(items))?;
            }
            _ => return Err(LineFault::NoBlank),
        }
        Ok(columns)
    }

    pub fn as_slice(&self) -> &[u8] {
        trimmed(&self.characters)
    }

    /// Stores a character in a column, which is counted from 1.
    fn put(&mut self, column: usize, character: u8) -> Result<(), LineFault> {
        if character == b' ' {
            return Ok(());
        }
        match self.characters.get_mut(column.saturating_sub(1)) {
            None => Err(LineFault::TooLong),
            Some(there) if *there != b' ' => Err(LineFault::FilledTwice),
            Some(there) => {
                *there = character;
                Ok(())
            }
        }
    }

    fn put_text(&mut self, column: u8, text: &[u8]) -> Result<(), LineFault> {
        if column == 0 || column == FORM_COLUMN || column > 80 {
            return Err(LineFault::BadColumn);
        }
        for (i, character) in text.iter().enumerate() {
            self.put(usize::from(column).saturating_add(i), *character)?;
        }
        Ok(())
    }

    /// Whether a text between apostrophes may be open before a column: one of the factors or of the constant. A comment has none.
    fn may_be_open(&self, column: usize) -> bool {
        match (self.characters[5], self.characters[6]) {
            (_, b'*') => false,
            (b'C', _) => 18 < column && column <= 43,
            (b'O', _) => 45 < column,
            _ => false,
        }
    }

    /// Rejects an item after a text that an apostrophe opened, unless it continues the text, which has a blank before it.
    fn check_cut(&self, column: u8, text: &[u8], following: &[u8]) -> Result<(), LineFault> {
        let end = usize::from(column).saturating_add(text.len());
        let next = end.saturating_add(1);
        match column_at(following) {
            Some((other, _)) if self.may_be_open(end) && usize::from(other) != next => {
                Err(if next > COLUMNS {
                    LineFault::TooLong
                } else {
                    LineFault::CutText {
                        column: other,
                        next,
                    }
                })
            }
            _ => Ok(()),
        }
    }

    /// Stores the items of a line, at most one for each column.
    fn put_items(&mut self, items: &[u8]) -> Result<(), LineFault> {
        let mut rest = items;
        let mut is_open = false;
        for _ in 0..COLUMNS {
            if is_blank(rest) {
                return Ok(());
            }
            let Some((column, following)) = column_at(rest) else {
                return Err(LineFault::NoColumn);
            };
            let (text, following) = cut(following);
            self.put_text(column, text)?;
            is_open = is_open != turns_open(column, text);
            if is_open {
                self.check_cut(column, text, following)?;
            }
            rest = following;
        }
        if is_blank(rest) {
            Ok(())
        } else {
            Err(LineFault::FilledTwice)
        }
    }
}

/// Whether a line is shorthand of a card, with one item at least.
pub fn is_shorthand(line: &[u8]) -> bool {
    match line {
        [
            b'H' | b'F' | b'E' | b'L' | b'I' | b'C' | b'O',
            b' ',
            items @ ..,
        ] => { !is_blank(items) && Columns::of(line).is_ok() }
        _ => false,
    }
}

fn digit(character: u8) -> Option<u8>
    ensures { IfSome result (λ value. value ≤ 9) }
{
    match character {
        b'0'..=b'9' => Some(character - b'0'),
        _ => None,
    }
}

/// Returns a column of one or two digits before an equals sign, and the rest.
fn column_at(text: &[u8]) -> Option<(u8, &[u8])> {
    match text {
        [ones, b'=', following @ ..] => Some((digit(*ones)?, following)),
        [tens, ones, b'=', following @ ..] => Some((digit(*tens)? * 10 + digit(*ones)?, following)),
        _ => None,
    }
}

/// Splits off the text of an item. The rest begins with the next item.
fn cut(text: &[u8]) -> (&[u8], &[u8]) {
    for (place, character) in text.iter().enumerate() {
        let following = text.get(place.saturating_add(1)..).unwrap_or(&[]);
        if *character == b' ' && column_at(following).is_some() {
            return (text.get(..place).unwrap_or(text), following);
        }
    }
    (text, &[])
}

fn without_blanks(text: &[u8]) -> &[u8] {
    let blanks = text.iter().take_while(|byte| **byte == b' ').count();
    text.get(blanks..).unwrap_or(&[])
}

/// What is wrong with a line of shorthand, as `sentence` has it in words.
#[derive(Clone, Copy)]
pub enum LineFault {
    NoCharacter,
    NoBlank,
    NoColumn,
    BadColumn,
    TooLong,
    /// A text between apostrophes ends before its closing one, at an item of this column. If the item is part of it, it continues in
    /// column `next`.
    CutText { column: u8, next: usize },
    FilledTwice,
    TooMany,
}

impl LineFault {
    /// Returns what is wrong, in words, with places for the columns of a text that is cut.
    const fn sentence(self) -> &'static str {
        match self {
            LineFault::NoCharacter => "a byte isn't a character: characters run from blank to ~",
            LineFault::NoBlank => {
                "after its first character, the form type, a line has a blank, and then COLUMN=TEXT for each text"
            }
            LineFault::NoColumn => {
                "a text has no column: it is written COLUMN=TEXT, as 32=TOT; rpg2 cards --short makes such lines of cards"
            }
            LineFault::BadColumn => { "a column is 1 to 80 and not 6, which has the form type" }
            LineFault::TooLong => "a text goes past column 80",
            LineFault::CutText { .. } => {
                "a text between apostrophes is cut at {}=: close it, or put {}= before {}= if that is part of the text"
            }
            LineFault::FilledTwice => "a column is filled twice",
            LineFault::TooMany => "a source has at most 2,000 cards",
        }
    }
}

#[derive(Clone, Copy)]
pub enum ShorthandFault {
    /// Lines are numbered from 1.
    At { line: u16, fault: LineFault },
    NoMemory,
}

impl From<AllocError> for ShorthandFault {
    fn from(_: AllocError) -> Self {
        ShorthandFault::NoMemory
    }
}

/// Returns the diagnostic for a line of a file.
pub fn line_diagnostic(
    alloc: Global,
    file: FileName<'_>,
    line: u16,
    fault: LineFault,
) -> Made<Diagnostic<'_>> {
    let (column, next) = match fault {
        LineFault::CutText { column, next } => (column, next),
        _ => (0, 0),
    };
    let pieces = [column.into(), next.into(), column.into()];
    Draft::error(alloc, file.line(line.into())).filled(fault.sentence(), &pieces)
}
