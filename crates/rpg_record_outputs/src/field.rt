//! What a card puts into the columns of a record.

ghost use Rattle.std.specs.Prelude.{◌≡◌, ◌≤◌};
ghost use Rattle.rpg_record_outputs.specs.Bytes.{bytes_for};

use crate::name::{base_of, meaning_of, name_of, number_on};
use rpg_record_decks::{CardFault, DeckCard, columns};
use rpg_records::{NumberField, NumberForm};
use rpg_sheet::Card;
use rpg_text::{is_blank, trimmed};
use std::alloc::{AllocError, Global};

/// The most digits of a binary number.
const MOST_BINARY: u16 = 9;

/// The columns of a record that a card fills, counted from 1.
#[derive(Clone, Copy)]
pub(crate) struct Span {
    pub card: u16,
    pub first: u16,
    pub last: u16,
}

impl Span {
    pub fn of(field: &NumberField) -> Self {
        Span {
            card: field.card,
            first: field.first,
            last: field.last,
        }
    }

    /// Whether it shares a column with another one.
    pub fn overlaps(&self, other: &Span) -> bool {
        self.first.max(other.first) <= self.last.min(other.last)
    }
}

/// Returns the name on an O card.
fn name_on(card: &Card) -> &[u8] {
    trimmed(columns(card, 32, 37))
}

/// Returns the end position on an O card.
fn end_on(card: &Card) -> u16 {
    number_on(card, 40, 43)
}

/// Whether an O card edits its field: by a code, or by a word next to a name.
fn is_edited(card: &Card) -> bool {
    let has_word = !name_on(card).is_empty() && !is_blank(columns(card, 45, 70));
    has_word || !is_blank(columns(card, 38, 38))
}

/// Returns how many digits the number of an O card has.
fn digits_on(cards: &[DeckCard], card: &Card) -> Result<u16, CardFault> {
    let name = name_on(card);
    if name.is_empty() {
        return Err(CardFault::Unnamed);
    }
    match meaning_of(cards, name) {
        None => Err(CardFault::NoLength {
            name: name_of(base_of(name)),
        }),
        Some(named) if named.is_number && named.entries == 1 => Ok(named.length),
        Some(_) => Err(CardFault::Unnamed),
    }
}

/// Returns how many bytes a number of this many digits takes.
pub(crate) fn bytes_of(form: NumberForm, digits: u16) -> u16
    ensures bytes { result ≡ bytes_for form digits }
    ensures low { 1 ≤ result }
{
    match form {
        NumberForm::Packed => digits / 2 + 1,
        NumberForm::Binary if digits > 4 => 4,
        NumberForm::Binary => 2,
    }
}

/// Returns the packed or binary field of an O card, in a record of this length.
pub(crate) fn number_field(
    cards: &[DeckCard],
    card: &DeckCard,
    form: NumberForm,
    length: u16,
) -> Result<NumberField, CardFault> {
    if is_edited(&card.card) {
        return Err(CardFault::Edited);
    }
    let digits = digits_on(cards, &card.card)?;
    if digits > MOST_BINARY && form.is_same(NumberForm::Binary) {
        return Err(CardFault::BinaryDigits);
    }
    let (bytes, last) = (bytes_of(form, digits), end_on(&card.card));
    if last > length {
        return Err(CardFault::AfterRecord { end: last });
    }
    if last < bytes {
        return Err(CardFault::BeforeRecord { bytes });
    }
    let first = last - bytes + 1;
    if !form.allows(last - first + 1) {
        return Err(CardFault::Size);
    }
    Ok(NumberField {
        card: card.number,
        first,
        last,
        form,
        digits: form.digit_count(usize::from(last - first) + 1),
    })
}

/// Returns the part of a text between its first and its last quotation mark.
fn within_quotes(text: &[u8]) -> &[u8] {
    match trimmed(text) {
        [b'\'', inner @ .., b'\''] => inner,
        _ => &text[text.len()..],
    }
}

/// Returns the constant or the edit word on an O card. Two quotation marks in it are one.
fn text_on(alloc: Global, card: &Card) -> Result<Vec<u8>, AllocError> {
    let mut text = Vec::new(alloc);
    let mut is_second = false;
    for byte in within_quotes(columns(card, 45, 70)) {
        is_second = *byte == b'\'' && !is_second;
        if !is_second {
            text.push(*byte)?;
        }
    }
    Ok(text)
}

/// What a card puts into a record as characters.
#[derive(Drop)]
pub(crate) struct Characters {
    pub span: Span,
    /// What they are, if every line has them: a constant without conditions.
    pub constant: Option<Vec<u8>>,
}

/// Returns how many columns the characters of a card take.
fn width_on(cards: &[DeckCard], card: &Card, text: &[u8]) -> u16 {
    if !text.is_empty() && is_blank(columns(card, 38, 38)) {
        return text.len().min(26) as u16;
    }
    match meaning_of(cards, name_on(card)) {
        Some(named) => named.length.saturating_mul(named.entries),
        None => 0,
    }
}

/// Returns what an O card without a packed or binary field puts into a record.
pub(crate) fn written_characters(
    alloc: Global,
    cards: &[DeckCard],
    card: &DeckCard,
) -> Result<Characters, AllocError> {
    let text = text_on(alloc, &card.card)?;
    let width = width_on(cards, &card.card, text.as_slice());
    let last = end_on(&card.card);
    let first = last.saturating_add(1).saturating_sub(width);
    let is_certain = name_on(&card.card).is_empty() && is_blank(columns(&card.card, 23, 31));
    Ok(Characters {
        span: Span {
            card: card.number,
            first,
            last,
        },
        constant: if is_certain { Some(text) } else { None },
    })
}
