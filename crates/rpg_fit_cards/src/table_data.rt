//! The records of a table file as the data of a table.

use rpg_fit_deck::{Address, Card, Editor, Sentence, Word};
use rpg_fit_words::{Done, List, Outcome};
use rpg_text::first_line;
use std::alloc::Global;

/// The columns of a card.
pub(crate) const COLUMNS: usize = 80;

/// What an E card says about its table, and about the one that alternates with it.
#[derive(Clone, Copy)]
pub(crate) struct TableShape {
    /// How many entries a record has.
    pub per_record: usize,
    pub entries: usize,
    /// The columns of an entry, or of two alternating ones.
    pub width: usize,
    /// Whether a table is in ascending sequence.
    pub is_ascending: bool,
}

impl TableShape {
    /// Returns the shape of a card's table, if its columns can be read.
    pub fn of(card: &Card) -> Option<TableShape> {
        let alternates = !card.is_blank(46, 51);
        let other = if alternates { card.number(52, 54)? } else { 0 };
        let shape = TableShape {
            per_record: card.number(33, 35)?,
            entries: card.number(36, 39)?,
            width: card.number(40, 42)?.saturating_add(other),
            is_ascending: card.column(45) == b'A' || alternates && card.column(57) == b'A',
        };
        (shape.per_record > 0 && shape.width > 0).then_some(shape)
    }

    /// Returns how many columns of a record have entries.
    pub fn record_columns(&self) -> usize {
        self.width.saturating_mul(self.per_record)
    }

    /// Returns how many records have all entries.
    pub fn records(&self) -> usize {
        self.entries.div_ceil(self.per_record.max(1))
    }

    /// Returns how many entries a data card gets.
    pub fn per_card(&self) -> usize {
        self.per_record.min(COLUMNS / self.width.max(1))
    }

    /// Returns why records can't be its data, with the name of their file.
    pub fn reason(&self, name: Word, records: usize) -> Option<Sentence> {
        let wanted = self.records();
        let (given, entries) = (Word::of_number(records), Word::of_number(self.entries));
        if records > wanted {
            let text = "% has % records, more than the % that its entries (%) fill";
            return Some(Sentence::with(text, &[name, given, Word::of_number(wanted), entries]));
        }
        if records < wanted && self.is_ascending {
            let text = "% has too few records for ascending sequence: records %, entries %";
            return Some(Sentence::with(text, &[name, given, entries]));
        }
        if self.width > COLUMNS {
            let text = "entries of % columns don't fit a card";
            return Some(Sentence::about(text, Word::of_number(self.width)));
        }
        None
    }

    /// Inserts cards with as many entries on each as fit there.
    pub fn put_cards(&self, editor: &mut Editor, before: Address, entries: &[u8], with: usize) {
        let width = self.width.saturating_mul(self.per_card()).max(1);
        for card in entries.chunks(width) {
            editor.insert(before, Card::of(card), with);
        }
    }
}

/// Returns the lines of a file.
pub(crate) fn records_of(alloc: Global, text: &[u8]) -> List<&[u8]> {
    let mut records = List::new(alloc);
    let mut rest = text;
    for _ in 0..text.len() {
        if rest.is_empty() {
            break;
        }
        let (record, more) = first_line(rest);
        records.push(record);
        rest = more;
    }
    records
}

/// Pads a text with blanks to a length.
fn pad(text: &mut Vec<u8>, length: usize) -> Done {
    for _ in text.len()..length {
        text.push(b' ')?;
    }
    Ok(())
}

/// Returns all entries of a table in sequence, given its records. Missing entries are blanks.
pub(crate) fn entries_of(alloc: Global, shape: &TableShape, records: &[&[u8]]) -> Outcome<Vec<u8>> {
    let mut text = Vec::new(alloc);
    let width = shape.record_columns();
    for record in records {
        let end = text.len().saturating_add(width);
        text.extend_from_slice(record.get(..width).unwrap_or(*record))?;
        pad(&mut text, end)?;
    }
    let whole = shape.width.saturating_mul(shape.entries);
    text.truncate(whole);
    pad(&mut text, whole)?;
    Ok(text)
}
