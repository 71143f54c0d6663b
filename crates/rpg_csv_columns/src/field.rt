//! The fields of a file's record types, from the cards of a deck.

use crate::fault::{Fault, Part, Refusal};
use crate::name::{FieldName, Sample};
use rpg_csv_values::{CellKind, Printed};
use rpg_record_decks::{DeckCard, columns, deck_cards, file_name, form_of, is_on_sheet};
use rpg_records::{Code, Layout, NumberForm};
use rpg_sheet::Card;
use rpg_text::{is_blank, trimmed};
use std::alloc::{AllocError, Global};

/// The most digits of a number.
const MOST_DIGITS: usize = 15;

/// A field of a record type, or the position of a code.
#[derive(Clone, Copy)]
pub struct Field {
    pub name: FieldName,
    pub card: u16,
    /// Its first column in the line, from 0, and how many it has. The digits of a packed or binary number follow the record.
    pub start: usize,
    pub width: usize,
    pub kind: CellKind,
    /// How a job writes it, if it is a number of an O card.
    pub printed: Option<Printed>,
}

impl Field {
    /// Returns the field of a code.
    fn of_code(place: usize) -> Self {
        Field {
            name: FieldName::of_position(place.saturating_add(1)),
            card: 0,
            start: place,
            width: 1,
            kind: CellKind::Code,
            printed: None,
        }
    }

    /// Returns the first column after it.
    pub fn end(&self) -> usize {
        self.start.saturating_add(self.width)
    }

    /// Whether a column of the line is one of its columns.
    pub fn covers(&self, column: usize) -> bool {
        self.start <= column && column < self.end()
    }

    /// Whether another field has its name, its place and its decimals.
    pub(crate) fn is_like(&self, other: &Field) -> bool {
        self.name == other.name
            && self.start == other.start
            && self.width == other.width
            && self.kind == other.kind
    }
}

/// A constant of an O card.
#[derive(Clone, Copy)]
pub struct Constant {
    pub card: u16,
    /// Its first column in the line, from 0.
    pub start: usize,
    pub text: Sample,
}

impl Constant {
    /// Returns the first column after it.
    pub fn end(&self) -> usize {
        self.start.saturating_add(self.text.as_slice().len())
    }
}

/// A record type, or a line of an output file: its card, its codes and its fields.
#[derive(Drop)]
pub struct FieldType {
    pub card: u16,
    pub codes: Vec<Code>,
    pub fields: Vec<Field>,
    /// What a line has besides its fields, and the columns that are blank in it.
    pub constants: Vec<Constant>,
    pub blanks: Vec<usize>,
    /// Where the digits of the next packed or binary number begin.
    digits: usize,
}

/// The record types of a file, or the lines of an output file.
#[derive(Drop)]
pub struct FileFields {
    /// The name of the file.
    pub name: FieldName,
    /// The most columns of a line.
    pub width: usize,
    pub types: Vec<FieldType>,
    /// The positions of all codes, in order; of lines those that tell one from another.
    pub codes: Vec<Field>,
    /// Whether a job writes the file.
    pub is_written: bool,
}

/// Returns the field with a name.
pub(crate) fn field_named(fields: &[Field], name: FieldName) -> Option<&Field> {
    for field in fields {
        if field.name == name {
            return Some(field);
        }
    }
    None
}

// ---- the cards

/// Returns the number that digits spell.
fn number_of(digits: &[u8]) -> u16 {
    let mut number = 0u16;
    for byte in digits {
        if byte.is_ascii_digit() {
            number = number
                .saturating_mul(10)
                .saturating_add(u16::from(*byte - b'0'));
        }
    }
    number
}

/// Returns the decimals in a column, if it isn't blank.
fn decimals_of(column: &[u8]) -> Option<u8> {
    match column {
        [digit] if digit.is_ascii_digit() => Some(*digit - b'0'),
        _ => None,
    }
}

/// Returns the name of a field: an entry of an array has its index in parentheses.
fn name_on(card: &Card) -> FieldName {
    let text = trimmed(columns(card, 53, 58));
    for (place, byte) in text.iter().enumerate() {
        if *byte == b',' {
            return FieldName::new(&text[..place]).entry(number_of(&text[place + 1..]));
        }
    }
    FieldName::new(text)
}

/// The columns of a card's field in the record, from 1, and what it has.
#[derive(Clone, Copy)]
struct FieldCard {
    name: FieldName,
    card: u16,
    first: u16,
    last: u16,
    decimals: Option<u8>,
    form: Option<NumberForm>,
    /// The most digits that it has, though its bytes may have more.
    digits: u16,
}

impl FieldCard {
    fn of(card: &DeckCard) -> Self {
        FieldCard {
            name: name_on(&card.card),
            card: card.number,
            first: number_of(columns(&card.card, 44, 47)),
            last: number_of(columns(&card.card, 48, 51)),
            decimals: decimals_of(columns(&card.card, 52, 52)),
            form: form_of(43, &card.card),
            digits: u16::MAX,
        }
    }
}

/// Returns the E card of an array.
fn array_card(cards: &[DeckCard], name: FieldName) -> Option<&Card> {
    for card in cards {
        if is_on_sheet(b"E", &card.card)
            && FieldName::new(trimmed(columns(&card.card, 27, 32))) == name
        {
            return Some(&card.card);
        }
    }
    None
}

impl FieldType {
    /// A type without fields, the digits of whose packed and binary numbers begin at a column.
    pub fn new(alloc: Global, card: u16, digits: usize) -> Self {
        FieldType {
            card,
            codes: Vec::new(alloc),
            fields: Vec::new(alloc),
            constants: Vec::new(alloc),
            blanks: Vec::new(alloc),
            digits,
        }
    }

    /// Whether it has a field with this name.
    pub fn has(&self, name: FieldName) -> bool {
        field_named(self.fields.as_slice(), name).is_some()
    }

    /// Adds the field of a card, unless its name is there or it has too many digits.
    fn add(&mut self, of: FieldCard) -> Result<(), Fault> {
        if self.has(of.name) {
            let (name, card) = (of.name, self.card);
            return Err(Fault::Twice { name, card });
        }
        let size = usize::from(of.last.saturating_sub(of.first).saturating_add(1));
        let (start, width) = match of.form {
            Some(form) => (
                self.digits,
                form.digit_count(size).min(usize::from(of.digits)),
            ),
            None => (usize::from(of.first).saturating_sub(1), size),
        };
        let kind = match (of.form, of.decimals) {
            (Some(_), decimals) => CellKind::Digits(decimals.unwrap_or(0)),
            (None, Some(decimals)) => CellKind::Number(decimals),
            (None, None) => CellKind::Text,
        };
        if kind != CellKind::Text && width > MOST_DIGITS {
            return Err(Fault::LongNumber);
        }
        if of.form.is_some() {
            self.digits = self.digits.saturating_add(width);
        }
        self.fields.push(Field {
            name: of.name,
            card: of.card,
            start,
            width,
            kind,
            printed: None,
        })?;
        Ok(())
    }

    /// Adds the entries of an array.
    fn add_entries(&mut self, whole: FieldCard, array: &Card) -> Result<(), Fault> {
        let entries = number_of(columns(array, 36, 39));
        let columns_of_all = (whole.last.saturating_sub(whole.first)).saturating_add(1);
        let size = columns_of_all / entries.max(1);
        if size == 0 || size.saturating_mul(entries) != columns_of_all {
            return Err(Fault::Parts {
                name: whole.name,
                entries,
                columns: usize::from(columns_of_all),
            });
        }
        for entry in 0..entries {
            let first = whole.first.saturating_add(entry.saturating_mul(size));
            self.add(FieldCard {
                name: whole.name.entry(entry + 1),
                first,
                last: first.saturating_add(size - 1),
                decimals: decimals_of(columns(array, 44, 44)),
                digits: number_of(columns(array, 40, 42)).max(1),
                ..whole
            })?;
        }
        Ok(())
    }

    /// Adds the field of a card, or the entries of its array.
    fn add_card(&mut self, card: &DeckCard, cards: &[DeckCard]) -> Result<(), Fault> {
        let field = FieldCard::of(card);
        match array_card(cards, field.name) {
            _ if field.first == 0 || field.last < field.first => Ok(()),
            Some(array) => self.add_entries(field, array),
            None => self.add(field),
        }
    }
}

/// Whether a card goes on with the codes of a type.
fn goes_on(card: &Card) -> bool {
    is_blank(columns(card, 7, 13)) && columns(card, 14, 16) == b"AND".as_slice()
}

/// Adds the fields of a type's cards.
fn add_fields(kind: &mut FieldType, cards: &[DeckCard]) -> Result<(), Refusal> {
    let mut is_here = false;
    for card in cards {
        if !is_on_sheet(b"I", &card.card) || goes_on(&card.card) {
            continue;
        }
        if !is_blank(columns(&card.card, 7, 16)) {
            is_here = card.number == kind.card;
            continue;
        }
        if is_here && let Err(fault) = kind.add_card(card, cards) {
            return Err(Refusal::new(Part::Card(card.number), fault));
        }
    }
    Ok(())
}

/// Returns the types of a layout, with their fields.
fn types_of(alloc: Global, layout: &Layout, cards: &[DeckCard]) -> Result<Vec<FieldType>, Refusal> {
    let mut types = Vec::new(alloc);
    for kind in layout.types.as_slice() {
        let mut read = FieldType::new(alloc, kind.card, usize::from(layout.length));
        read.codes.extend_from_slice(kind.codes.as_slice())?;
        add_fields(&mut read, cards)?;
        types.push(read)?;
    }
    Ok(types)
}

/// Adds the positions of codes that aren't there.
fn add_codes(positions: &mut Vec<usize>, codes: &[Code]) -> Result<(), AllocError> {
    for code in codes {
        if !positions.as_slice().contains(&code.place) {
            positions.push(code.place)?;
        }
    }
    Ok(())
}

/// Returns the positions of all codes, in order.
fn codes_of(alloc: Global, types: &[FieldType]) -> Result<Vec<Field>, AllocError> {
    let mut places = Vec::new(alloc);
    for kind in types {
        add_codes(&mut places, kind.codes.as_slice())?;
    }
    code_fields(alloc, places)
}

/// Returns the fields of codes at these places, in order.
pub fn code_fields(alloc: Global, mut places: Vec<usize>) -> Result<Vec<Field>, AllocError> {
    places.sort()?;
    let mut codes = Vec::new(alloc);
    for place in places.as_slice() {
        codes.push(Field::of_code(*place))?;
    }
    Ok(codes)
}

/// Returns the name of the file on the card with this number.
fn file_on(cards: &[DeckCard], number: u16) -> FieldName {
    for card in cards {
        if card.number == number {
            return FieldName::new(file_name(&card.card));
        }
    }
    FieldName::new(b"")
}

/// Returns the fields of the file with this layout, by their names in the deck.
pub fn file_fields(alloc: Global, source: &[u8], layout: &Layout) -> Result<FileFields, Refusal> {
    let Ok(cards) = deck_cards(alloc, source) else {
        return Err(Refusal::from(AllocError));
    };
    let types = types_of(alloc, layout, cards.as_slice())?;
    let codes = codes_of(alloc, types.as_slice())?;
    Ok(FileFields {
        name: file_on(cards.as_slice(), layout.card),
        width: layout.columns(),
        types,
        codes,
        is_written: false,
    })
}
