//! The lines of an output file, from its O cards.

ghost use Rattle.std.specs.Prelude.{◌≡◌};
ghost use Rattle.std.specs.List.{list_any};
ghost use Rattle.rpg_record_outputs.specs.Digits.{is_same};

use crate::field::{Characters, Span, number_field, written_characters};
use rpg_record_decks::{
    CardFault, DeckCard, DeckFault, columns, form_of, goes_on, is_of_file, is_on_sheet,
};
use rpg_records::{Code, Column, Layout, NumberField, RecordType};
use rpg_text::is_blank;
use std::alloc::{AllocError, Global};

/// A line, as far as its cards were read.
#[derive(Drop)]
pub(crate) struct Line {
    pub card: u16,
    /// The characters of its constants.
    pub codes: Vec<Code>,
    /// Its packed and binary fields.
    pub fields: Vec<NumberField>,
    /// The first ones with their bytes: fields with the same bytes have the same digits.
    pub numbers: Vec<NumberField>,
    /// The columns of all else.
    others: Vec<Span>,
}

/// Whether two fields have the same bytes and the same format.
pub(crate) fn is_same(field: &NumberField, other: &NumberField) -> bool
    ensures { result ≡ is_same field.now other.now }
{
    field.first == other.first && field.last == other.last && field.form.is_same(other.form)
}

/// Whether one of these has the same bytes as this field.
fn has_same(numbers: &[NumberField], field: &NumberField) -> bool
    ensures { result ≡ list_any (λ number. is_same number field.now) numbers.now }
{
    for number in numbers {
        if is_same(number, field) {
            return true;
        }
    }
    false
}

/// Returns the fault for a card that fills a column of an earlier one.
fn overlapping(earlier: &Span, span: &Span) -> DeckFault {
    DeckFault::at(
        span.card,
        CardFault::Overlapping {
            first: earlier.first.max(span.first),
            last: earlier.last.min(span.last),
            one: earlier.card,
            other: span.card,
        },
    )
}

/// Checks that a card fills none of these columns.
fn refuse_overlap(spans: &[Span], span: &Span) -> Result<(), DeckFault> {
    for earlier in spans {
        if earlier.overlaps(span) {
            return Err(overlapping(earlier, span));
        }
    }
    Ok(())
}

/// Checks that a card fills no column of a packed or binary field.
fn refuse_number(numbers: &[NumberField], span: &Span) -> Result<(), DeckFault> {
    for number in numbers {
        let earlier = Span::of(number);
        if earlier.overlaps(span) {
            return Err(overlapping(&earlier, span));
        }
    }
    Ok(())
}

/// Adds the characters of a constant, the first of which is in a column.
fn add_codes(codes: &mut Vec<Code>, first: u16, text: &[u8]) -> Result<(), AllocError> {
    let start = usize::from(first.saturating_sub(1));
    for (place, character) in text.iter().enumerate() {
        codes.push(Code {
            place: start.saturating_add(place),
            is_negated: false,
            character: *character,
        })?;
    }
    Ok(())
}

impl Line {
    fn new(alloc: Global, card: u16) -> Self {
        Line {
            card,
            codes: Vec::new(alloc),
            fields: Vec::new(alloc),
            numbers: Vec::new(alloc),
            others: Vec::new(alloc),
        }
    }

    /// Adds a packed or binary field.
    fn add_number(&mut self, field: NumberField) -> Result<(), DeckFault> {
        let span = Span::of(&field);
        refuse_overlap(self.others.as_slice(), &span)?;
        if !has_same(self.numbers.as_slice(), &field) {
            refuse_number(self.numbers.as_slice(), &span)?;
            self.numbers.push(field)?;
        }
        self.fields.push(field)?;
        Ok(())
    }

    /// Adds characters.
    fn add_characters(&mut self, put: &Characters) -> Result<(), DeckFault> {
        refuse_number(self.numbers.as_slice(), &put.span)?;
        if let Some(text) = &put.constant {
            add_codes(&mut self.codes, put.span.first, text.as_slice())?;
        }
        self.others.push(put.span)?;
        Ok(())
    }

    /// Adds what a card puts into a record of this length.
    fn add_card(
        &mut self,
        alloc: Global,
        cards: &[DeckCard],
        card: &DeckCard,
        length: u16,
    ) -> Result<(), DeckFault> {
        match form_of(44, &card.card) {
            None => {
                let put = written_characters(alloc, cards, card)?;
                self.add_characters(&put)
            }
            Some(form) => match number_field(cards, card, form, length) {
                Ok(field) => self.add_number(field),
                Err(fault) => Err(DeckFault::at(card.number, fault)),
            },
        }
    }

    /// Returns the record type of the line: characters, its packed and binary fields, and the characters of its
    /// constants as codes, if it has any.
    pub fn record_type(
        &self,
        alloc: Global,
        length: u16,
        has_codes: bool,
    ) -> Result<RecordType, AllocError> {
        let mut codes = Vec::new(alloc);
        if has_codes {
            codes.extend_from_slice(self.codes.as_slice())?;
        }
        let mut columns = Vec::new(alloc);
        columns.resize(usize::from(length), Column::Text)?;
        let mut numbers = Vec::new(alloc);
        numbers.extend_from_slice(self.numbers.as_slice())?;
        Ok(RecordType {
            card: self.card,
            codes,
            columns,
            numbers,
        })
    }
}

/// Whether an O card begins a line.
fn begins_line(card: &DeckCard) -> bool {
    !is_blank(columns(&card.card, 7, 16)) && !goes_on(&card.card)
}

/// Adds what a card of the file puts into a line, or begins one.
fn add_to_lines(
    alloc: Global,
    lines: &mut Vec<Line>,
    cards: &[DeckCard],
    card: &DeckCard,
    length: u16,
) -> Result<(), DeckFault> {
    if begins_line(card) {
        lines.push(Line::new(alloc, card.number))?;
        return Ok(());
    }
    let count = lines.len();
    if goes_on(&card.card) || count == 0 {
        return Ok(());
    }
    lines[count - 1].add_card(alloc, cards, card, length)
}

/// Returns the lines of the output file with this name, whose records have this length.
pub(crate) fn lines_of(
    alloc: Global,
    cards: &[DeckCard],
    name: &[u8],
    length: u16,
) -> Result<Vec<Line>, DeckFault> {
    let mut lines = Vec::new(alloc);
    let mut is_meant = false;
    for card in cards {
        if !is_on_sheet(b"O", &card.card) {
            continue;
        }
        is_meant = is_of_file(&card.card, name, is_meant);
        if is_meant {
            add_to_lines(alloc, &mut lines, cards, card, length)?;
        }
    }
    Ok(lines)
}

/// Returns the layout of the records of these lines. Its types have the characters of constants as codes.
pub(crate) fn layout_of_lines(
    alloc: Global,
    file: u16,
    length: u16,
    lines: &[Line],
) -> Result<Layout, AllocError> {
    let mut types = Vec::new(alloc);
    for line in lines {
        types.push(line.record_type(alloc, length, true)?)?;
    }
    Ok(Layout {
        card: file,
        length,
        types,
    })
}
