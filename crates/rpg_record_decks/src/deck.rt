//! The cards of a deck.

ghost use Rattle.std.specs.Prelude.{◌≡◌, ◌≤◌, IfErr, IfOk, Ok, OnOk, length, take};
ghost use Rattle.rpg_record_decks.specs.Cards.{card_on_line, cards_of, ends_cards};
ghost use Rattle.rpg_record_decks.specs.Outcomes.{IsDeckFaultOf};

use crate::fault::{CardFault, DeckFault};
use rpg_sheet::{Card, MOST_CARDS};
use rpg_text::{first_line, has_only_characters, trimmed};
use std::alloc::Global;

/// The columns of a card.
const COLUMNS: usize = 80;

/// Which file of the deck to use, and what the arguments add to its cards.
#[derive(Clone, Copy)]
pub struct DeckArguments<'a> {
    /// The file's name; None for the primary file.
    pub file: Option<&'a str>,
    /// The length of a record, which overrides the one on the card.
    pub length: Option<u16>,
    /// Whether each record is a line.
    pub are_lines: bool,
}

/// A card of a deck with its number, from 1.
#[derive(Drop)]
pub struct DeckCard {
    pub number: u16,
    pub card: Card,
}

/// Returns the part of a line in the columns of a card.
fn within_card(line: &[u8]) -> &[u8]
    ensures value { result.now ≡ take 80 line.now }
    ensures fits { length result.now ≤ 80 }
{
    if line.len() > COLUMNS {
        &line[..COLUMNS]
    } else {
        line
    }
}

/// Returns the card of a line, with its number.
#[tactic(auto, using(crate::proofs::CardLemmas::card_of_columns))]
fn card_at(number: u16, line: &[u8]) -> Result<DeckCard, CardFault>
    ensures value { result ≡ card_on_line number line.now }
    ensures few { OnOk result (number ≤ 2000) }
{
    if number > MOST_CARDS {
        return Err(CardFault::TooMany);
    }
    if trimmed(line).len() > COLUMNS {
        return Err(CardFault::TooLong);
    }
    let columns = within_card(line);
    if !has_only_characters(columns) {
        return Err(CardFault::NoCharacter);
    }
    let card = Card::new(columns);
    Ok(DeckCard { number, card })
}

/// Whether no card follows this one.
fn ends_cards(card: &Card) -> bool
    ensures { result ≡ ends_cards card.now }
{
    card.ends_source() || card.begins_data()
}

/// Returns the cards of a deck before its data and its end, without comments.
#[tactic(auto, using(crate::proofs::CardLemmas::cards_end, crate::proofs::CardLemmas::cards_refused, crate::proofs::CardLemmas::cards_last, crate::proofs::CardLemmas::cards_skipped, crate::proofs::CardLemmas::cards_next))]
pub fn deck_cards(alloc: Global, source: &[u8]) -> Result<Vec<DeckCard>, DeckFault>
    ensures cards { IfOk result (λ cards. cards_of source.now ≡ Ok cards.items) }
    ensures fault { IfErr result (IsDeckFaultOf (cards_of source.now)) }
{
    let mut cards = Vec::new(alloc);
    let mut number = 1;
    let mut rest = source;
    while !rest.is_empty() {
        let (line, more) = first_line(rest);
        let card = match card_at(number, line) {
            Ok(card) => card,
            Err(fault) => return Err(DeckFault::at(number, fault)),
        };
        if ends_cards(&card.card) {
            return Ok(cards);
        }
        number += 1;
        rest = more;
        if !card.card.is_skipped() {
            cards.push(card)?;
        }
    }
    Ok(cards)
}
