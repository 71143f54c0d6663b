//! Which type a record is of.

ghost use Rattle.std.specs.Prelude.{◌≡◌, length, true, IfSome, option_map};
ghost use Rattle.std.specs.List.{list_all};
ghost use Rattle.rpg_records.specs.Translations.{is_low_blank, page_of};
ghost use Rattle.rpg_records.specs.Types.{card_of_type, character_at, code_fits_record, first_type, fits_type, is_card};

use crate::column::Column;
use crate::layout::{Code, RecordType};
use crate::translation::Translation;

/// Returns the character at a place of a record, 0 if there is none.
fn character_at(translation: &Translation, bytes: &[u8], place: usize) -> u8
    ensures { result ≡ character_at (page_of translation.now) (is_low_blank translation.now) bytes.now place }
{
    match bytes.get(place) {
        Some(byte) => translation.character_in(Column::Text, *byte),
        None => 0,
    }
}

/// Whether a record satisfies a code.
fn code_holds(translation: &Translation, bytes: &[u8], code: &Code) -> bool
    ensures { result ≡ code_fits_record (page_of translation.now) (is_low_blank translation.now) bytes.now code.now }
{
    let stands = character_at(translation, bytes, code.place) == code.character;
    if code.is_negated { !stands } else { stands }
}

/// Whether a record satisfies all codes.
fn codes_hold(translation: &Translation, bytes: &[u8], codes: &[Code]) -> bool
    ensures { result ≡ list_all (code_fits_record (page_of translation.now) (is_low_blank translation.now) bytes.now) codes.now }
{
    for code in codes {
        if !code_holds(translation, bytes, code) {
            return false;
        }
    }
    true
}

/// Whether a record is of a type: it has its length, and satisfies all codes.
fn is_of(translation: &Translation, bytes: &[u8], kind: &RecordType) -> bool
    ensures value { result ≡ fits_type (page_of translation.now) (is_low_blank translation.now) bytes.now kind.now }
    ensures length { result ≡ true → length kind.now.columns.items ≡ length bytes.now }
{
    kind.columns.len() == bytes.len() && codes_hold(translation, bytes, kind.codes.as_slice())
}

/// Returns the first type that a record belongs to.
pub fn first_type<'a>(
    translation: &Translation,
    bytes: &[u8],
    types: &'a [RecordType],
) -> Option<&'a RecordType>
    ensures value { option_map (λ kind. kind.now) result ≡ first_type (page_of translation.now) (is_low_blank translation.now) bytes.now types.now }
    ensures length { IfSome result (λ kind. length kind.now.columns.items ≡ length bytes.now) }
{
    for kind in types {
        if is_of(translation, bytes, kind) {
            return Some(kind);
        }
    }
    None
}

/// Returns the card of a type.
pub fn card_of(kind: Option<&RecordType>) -> Option<u16>
    ensures { result ≡ option_map (λ kind. card_of_type kind.now) kind.entry }
{
    match kind {
        Some(kind) => Some(kind.card),
        None => None,
    }
}

/// Whether a type is on this card.
pub fn is_card(card: u16, kind: Option<&RecordType>) -> bool
    ensures { result ≡ is_card card (option_map (λ kind. kind.now) kind.entry) }
{
    match kind {
        Some(kind) => kind.card == card,
        None => false,
    }
}
