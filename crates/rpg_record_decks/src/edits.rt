//! Columns of cards, and cards with changed columns.

ghost use Rattle.std.specs.Prelude.{◌≡◌, ◌+◌, ◌-◌, ◌≤◌, ◌++◌, IfOk, OnOk, drop, length, replicate, true, vec_len};
ghost use Rattle.std.specs.List.{list_all};
ghost use Rattle.rpg_sheet_specs.specs.Columns.{cols};
ghost use Rattle.rpg_text.specs.Texts.{is_character};
ghost use Rattle.rpg_record_decks.specs.Edits.{digit_or_blank, first_columns, number_columns, with_columns};
ghost use Rattle.rpg_record_decks.specs.Files.{file_name};

use rpg_sheet::Card;
use rpg_text::trimmed;
use std::alloc::{AllocError, Global};

/// Returns the columns of a card from `first` to `last`, counted from 1.
pub fn columns(card: &Card, first: u8, last: u8) -> &[u8]
    requires counted { 1 ≤ first }
    requires ordered { first ≤ last }
    requires within { last ≤ 80 }
    ensures value { result.now ≡ cols first last card.now }
    ensures long { length result.now ≡ last + 1 - first }
{
    &card.as_slice()[usize::from(first) - 1..usize::from(last)]
}

/// Returns the name of a file on an F or an I card.
pub fn file_name(card: &Card) -> &[u8]
    ensures { result.now ≡ file_name card.now }
{
    trimmed(columns(card, 7, 14))
}

/// Returns a digit of a number, by its power of ten; a blank instead of a leading zero.
fn digit_or_blank(number: usize, place: usize) -> u8
    requires { 1 ≤ place }
    ensures value { result ≡ digit_or_blank number place }
    ensures character { is_character result ≡ true }
{
    if place <= number {
        b'0' + (number / place % 10) as u8
    } else {
        b' '
    }
}

/// Returns the last four digits of a number, right-aligned in four columns.
pub fn number_columns(number: usize) -> [u8; 4]
    ensures value { result ≡ number_columns number }
    ensures characters { list_all is_character result ≡ true }
{
    [
        digit_or_blank(number, 1_000),
        digit_or_blank(number, 100),
        digit_or_blank(number, 10),
        b'0' + (number % 10) as u8,
    ]
}

/// Pads a text with blanks to `columns` columns.
fn pad(text: &mut Vec<u8>, columns: usize) -> Result<(), AllocError>
    ensures { OnOk result (text.new.items ≡ text.old.items ++ replicate (columns - vec_len text.old) 32) }
{
    while text.len() < columns {
        text.push(b' ')?;
    }
    Ok(())
}

/// Returns the first columns of a line, padded with blanks.
#[tactic(auto, using(crate::proofs::EditLemmas::short_front, crate::proofs::EditLemmas::long_front))]
fn front(alloc: Global, line: &[u8], columns: usize) -> Result<Vec<u8>, AllocError>
    ensures { IfOk result (λ start. start.items ≡ first_columns columns line.now) }
{
    let mut start = Vec::new(alloc);
    if line.len() < columns {
        start.extend_from_slice(line)?;
        pad(&mut start, columns)?;
        return Ok(start);
    }
    let (before, _rest) = line.split_at(columns);
    start.extend_from_slice(before)?;
    Ok(start)
}

/// Returns a line from a place on.
#[tactic(auto, using(crate::proofs::EditLemmas::beyond))]
fn from_place(line: &[u8], place: usize) -> &[u8]
    ensures { result.now ≡ drop place line.now }
{
    if place < line.len() {
        &line[place..]
    } else {
        &line[line.len()..]
    }
}

/// Returns a line with a text in its columns, from the first of these on.
#[tactic(auto, using(crate::proofs::EditLemmas::three_parts))]
pub(crate) fn with_columns(
    alloc: Global,
    line: &[u8],
    first: u8,
    text: &[u8],
) -> Result<Vec<u8>, AllocError>
    ensures { IfOk result (λ changed. changed.items ≡ with_columns first text.now line.now) }
{
    let before = usize::from(first).saturating_sub(1);
    let mut changed = front(alloc, line, before)?;
    changed.extend_from_slice(text)?;
    changed.extend_from_slice(from_place(line, before + text.len()))?;
    Ok(changed)
}

/// Returns a card with a text in its columns, from the first of these on.
#[tactic(auto, using(crate::proofs::EditLemmas::changed_length, crate::proofs::EditLemmas::changed_characters, crate::proofs::EditLemmas::full_card))]
pub fn changed_card(alloc: Global, card: &Card, first: u8, text: &[u8]) -> Result<Card, AllocError>
    requires counted { 1 ≤ first }
    requires within { first - 1 + length text.now ≤ 80 }
    requires characters { list_all is_character text.now ≡ true }
    ensures { IfOk result (λ changed. changed ≡ with_columns first text.now card.now) }
{
    let changed = with_columns(alloc, card.as_slice(), first, text)?;
    Ok(Card::new(changed.as_slice()))
}
