//! The layout of a file's records, from the cards of a deck.

ghost use Rattle.std.specs.Prelude.{◌≡◌, List, [], Err, IfErr, IfOk, Ok, OnOk, Some, map};
ghost use Rattle.std.specs.List.{flat_map};
ghost use Rattle.rpg_records.specs.Seen.{layout_seen};
ghost use Rattle.rpg_record_decks.specs.Layouts.{framed, layout_by_cards, layout_for, layout_of_file, layout_with, narrow, some_types, without_numbers};
ghost use Rattle.rpg_record_decks.specs.Outcomes.{IsDeckFaultOf, and_then};
ghost use Rattle.rpg_record_decks.specs.Reading.{type_read};
ghost use Rattle.rpg_record_decks.specs.Types.{TypeRead};

use crate::deck::{DeckArguments, DeckCard};
use crate::edits::file_name;
use crate::fault::{CardFault, DeckFault};
use crate::file::{file_length, find_file};
use crate::kinds::{code_columns, record_type};
use crate::types::{TypeCards, read_types};
use rpg_records::Layout;
use std::alloc::{AllocError, Global};

/// The most columns of a line.
pub const MOST_COLUMNS: usize = 9_999;

/// Checks that no field is packed or binary.
fn refuse_numbers(types: &[TypeCards]) -> Result<(), DeckFault>
    ensures none { OnOk result (flat_map (λ t. t.numbers) (map type_read types.now) ≡ []) }
    ensures first { IfErr result (λ fault. (all : List TypeRead) → without_numbers all (flat_map (λ t. t.numbers) (map type_read types.now)) ≡ Err fault) }
{
    for kind in types {
        if let [field, ..] = kind.numbers.as_slice() {
            return Err(DeckFault::at(field.card, CardFault::BytesInLines));
        }
    }
    Ok(())
}

/// Checks that there is a type, and, if records are lines, that none has packed or binary fields.
fn refuse_types(are_lines: bool, card: u16, types: &[TypeCards]) -> Result<(), DeckFault>
    ensures valid { OnOk result (and_then (some_types card (map type_read types.now)) (framed are_lines) ≡ Ok (map type_read types.now)) }
    ensures bad { IfErr result (λ fault. and_then (some_types card (map type_read types.now)) (framed are_lines) ≡ Err fault) }
{
    if types.is_empty() {
        return Err(DeckFault::at(card, CardFault::NoType));
    }
    if are_lines {
        return refuse_numbers(types);
    }
    Ok(())
}

/// Returns the layout of these types.
fn lay_out(alloc: Global, card: u16, length: u16, types: &[TypeCards]) -> Result<Layout, AllocError>
    ensures { IfOk result (λ layout. layout_seen layout ≡ layout_with card length (map type_read types.now)) }
{
    let are_codes = code_columns(alloc, length, types)?;
    let mut all = Vec::new(alloc);
    for kind in types {
        all.push(record_type(alloc, are_codes.as_slice(), kind)?)?;
    }
    Ok(Layout {
        card,
        length,
        types: all,
    })
}

/// Checks that the lines of a layout aren't too long.
#[tactic(auto, using(crate::proofs::SeenLemmas::columns_are_seen))]
pub fn narrow(layout: Layout) -> Result<Layout, DeckFault>
    ensures layout { IfOk result (λ same. narrow (layout_seen layout) ≡ Ok (layout_seen same)) }
    ensures fault { IfErr result (λ fault. narrow (layout_seen layout) ≡ Err fault) }
{
    let columns = layout.columns();
    if columns > MOST_COLUMNS {
        return Err(DeckFault::at(layout.card, CardFault::Wide { columns }));
    }
    Ok(layout)
}

/// Returns the layout of a file with this record length.
fn layout_for(
    alloc: Global,
    are_lines: bool,
    file: &DeckCard,
    cards: &[DeckCard],
    length: u16,
) -> Result<Layout, DeckFault>
    ensures layout { IfOk result (λ layout. layout_for are_lines file.now cards.now length ≡ Ok (layout_seen layout)) }
    ensures fault { IfErr result (IsDeckFaultOf (layout_for are_lines file.now cards.now length)) }
{
    let types = read_types(alloc, length, file_name(&file.card), cards)?;
    refuse_types(are_lines, file.number, types.as_slice())?;
    let layout = lay_out(alloc, file.number, length, types.as_slice())?;
    narrow(layout)
}

/// Returns the layout of this file's records.
fn layout_of_file(
    alloc: Global,
    given: Option<u16>,
    are_lines: bool,
    cards: &[DeckCard],
    file: &DeckCard,
) -> Result<Layout, DeckFault>
    ensures layout { IfOk result (λ layout. layout_of_file given are_lines cards.now (Some file.now) ≡ Ok (layout_seen layout)) }
    ensures fault { IfErr result (IsDeckFaultOf (layout_of_file given are_lines cards.now (Some file.now))) }
{
    let length = file_length(alloc, file, given)?;
    layout_for(alloc, are_lines, file, cards, length)
}

/// Returns the layout of the records of the file to use.
///
/// Its I cards may have P or B in column 43; otherwise its cards must be readable by rpg2. Other cards must only have characters.
///
/// # Errors
///
/// The first card that is rejected; or there is no such file, or memory ran out.
#[tactic(auto, using(crate::proofs::LayoutLemmas::no_file, crate::proofs::LayoutLemmas::file_found))]
pub fn layout_by_cards(
    alloc: Global,
    words: DeckArguments,
    cards: &[DeckCard],
) -> Result<Layout, DeckFault>
    ensures layout { IfOk result (λ layout. layout_by_cards words.entry cards.now ≡ Ok (layout_seen layout)) }
    ensures fault { IfErr result (IsDeckFaultOf (layout_by_cards words.entry cards.now)) }
{
    match find_file(cards, words.file) {
        Some(file) => layout_of_file(alloc, words.length, words.are_lines, cards, file),
        None => Err(DeckFault::NoFile),
    }
}
