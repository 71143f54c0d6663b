//! Finds the card of the file to use.

ghost use Rattle.std.specs.Prelude.{◌≡◌, IfErr, IfOk, Ok, find, option_copied};
ghost use Rattle.rpg_sheet_specs.specs.Tables.{file};
ghost use Rattle.rpg_record_decks.specs.Files.{as_input, has_name, is_meant, is_read, length_by, or_columns, record_length};
ghost use Rattle.rpg_record_decks.specs.Outcomes.{IsDeckFaultOf, at_card};

use crate::deck::DeckCard;
use crate::edits::{changed_card, columns, file_name, number_columns};
use crate::fault::{CardFault, DeckFault, bad_columns};
use rpg_sheet::Card;
use std::alloc::{AllocError, Global};

/// The most bytes of a record.
const MOST_BYTES: u16 = 9_999;

/// Whether an F card describes the file with this name, or the primary one.
fn has_name(card: &Card, name: Option<&str>) -> bool
    ensures { result ≡ has_name (option_copied name.entry) card.now }
{
    match name {
        Some(name) => file_name(card) == name.as_bytes(),
        None => columns(card, 16, 16) == b"P".as_slice(),
    }
}

/// Whether a card describes a file that is read, also one that is updated or combined.
pub fn is_read(card: &Card) -> bool
    ensures { result ≡ is_read card.now }
{
    let kind = columns(card, 15, 15);
    kind == b"I".as_slice() || kind == b"U".as_slice() || kind == b"C".as_slice()
}

/// Whether a card describes the input file to use.
fn is_meant(card: &Card, name: Option<&str>) -> bool
    ensures { result ≡ is_meant (option_copied name.entry) card.now }
{
    columns(card, 6, 6) == b"F".as_slice() && is_read(card) && has_name(card, name)
}

/// Returns the first card of the file to use.
pub fn find_file<'a>(cards: &'a [DeckCard], name: Option<&str>) -> Option<&'a DeckCard>
    ensures { option_copied result ≡ find (λ c. is_meant (option_copied name.entry) c.card) cards.now }
{
    for card in cards {
        if is_meant(&card.card, name) {
            return Some(card);
        }
    }
    None
}

/// Returns the card of a file, on which each file that is read is an input file.
#[tactic(auto, using(crate::proofs::EditLemmas::full_card))]
fn as_input(alloc: Global, card: &Card) -> Result<Card, AllocError>
    ensures { IfOk result (λ plain. plain ≡ as_input card.now) }
{
    if is_read(card) {
        return changed_card(alloc, card, 15, b"I");
    }
    Ok(Card::new(card.as_slice()))
}

/// Returns the record length on a file's card.
fn record_length(number: u16, card: &Card) -> Result<u16, DeckFault>
    ensures { result ≡ at_card number (record_length (or_columns (file.reading card.now))) }
{
    match card.f() {
        Err(fault) => Err(bad_columns(number, fault)),
        Ok(spec) => {
            let length = spec.record_length;
            if 1 <= length && length <= MOST_BYTES {
                Ok(length)
            } else {
                Err(DeckFault::at(number, CardFault::Length))
            }
        }
    }
}

/// Returns the record length on the file's card, or the one in the arguments.
pub fn file_length(alloc: Global, file: &DeckCard, length: Option<u16>) -> Result<u16, DeckFault>
    ensures length { IfOk result (λ n. at_card file.now.number (length_by length file.now.card) ≡ Ok n) }
    ensures fault { IfErr result (IsDeckFaultOf (at_card file.now.number (length_by length file.now.card))) }
{
    let plain = as_input(alloc, &file.card)?;
    match length {
        None => record_length(file.number, &plain),
        Some(length) => {
            let text = number_columns(usize::from(length));
            let card = changed_card(alloc, &plain, 24, &text)?;
            record_length(file.number, &card)
        }
    }
}
