//! Finds all faults in the text of a source.

ghost use Rattle.std.specs.Prelude.{◌≡◌, None, map, IfErr, IfOk};
ghost use Rattle.rpg_faults.specs.EverySource as every;
ghost use Rattle.rpg_faults.specs.Reported.{AreFaultsOf};
ghost use Rattle.rpg_faults.specs.declared.source_fault.SourceFault.TheVariants.{NoMemory};
ghost use Rattle.rpg_faults.specs.Source.{cards_in};
ghost use Rattle.rpg_sheet.specs.Sheet.{first_sheet_fault, source};
ghost use Rattle.rpg_sheet.specs.Unreadable.{unreadable_cards};

use crate::cards::{NumberedCards, spec_cards};
use crate::every::all_faults;
use crate::source_fault::{CardFault, SourceCode, SourceFault};
use rpg_cards::SpecCard;
use rpg_sheet::{Cards, SheetFault, UnreadableCard};
use std::alloc::{AllocError, Global};

/// The faults of a source, with its cards.
#[derive(Drop)]
pub struct SourceFaults {
    /// The cards that belong to a sheet, each with its number; none if a card can't be read.
    pub cards: Vec<SpecCard>,
    pub faults: Vec<CardFault>,
}

/// Returns all faults of a source's cards, in the order of cards and codes, each with its columns and its cause. If cards can't be read,
/// returns all of these instead, each with its lowest code, since the other cards depend on them. There are none exactly if
/// `faultless_cards` returns the cards. The only error is `NoMemory`.
pub fn source_faults(alloc: Global, text: &[u8]) -> Result<SourceFaults, SourceFault>
    ensures faults { IfOk result (λ judged. every.AreSourceFaults text.now judged.faults.items) }
    ensures cards { IfOk result (λ judged. first_sheet_fault (source text.now) ≡ None → judged.cards.items ≡ cards_in text.now) }
    ensures memory { IfErr result (λ fault. fault ≡ NoMemory) }
{
    match rpg_sheet::cards(alloc, text) {
        Ok(cards) => Ok(faults_of(alloc, cards)?),
        Err(SheetFault::At { .. }) => Ok(SourceFaults {
            cards: Vec::new(alloc),
            faults: unreadable(alloc, text)?,
        }),
        Err(SheetFault::NoMemory) => Err(SourceFault::NoMemory),
    }
}

/// Returns all faults of cards that can be read.
fn faults_of(alloc: Global, cards: Cards) -> Result<SourceFaults, AllocError>
    ensures faults { IfOk result (λ judged. AreFaultsOf (every.numbered_specs cards) judged.faults.items) }
    ensures cards { IfOk result (λ judged. judged.cards.items ≡ every.numbered_specs cards) }
{
    let NumberedCards { cards } = spec_cards(alloc, cards)?;
    let faults = all_faults(alloc, &cards)?;
    Ok(SourceFaults { cards, faults })
}

/// Returns all cards that can't be read.
fn unreadable(alloc: Global, text: &[u8]) -> Result<Vec<CardFault>, AllocError>
    ensures { IfOk result (λ reported. reported.items ≡ map every.unreadable_reported (unreadable_cards (source text.now))) }
{
    let cards = rpg_sheet::unreadable_cards(alloc, text)?;
    reported(alloc, &cards)
}

/// Converts cards that can't be read to faults of a source.
fn reported(alloc: Global, cards: &[UnreadableCard]) -> Result<Vec<CardFault>, AllocError>
    ensures { IfOk result (λ reported. reported.items ≡ map every.unreadable_reported cards.now) }
{
    let mut reported = Vec::new(alloc);
    for card in cards {
        reported.push(CardFault {
            card: card.card,
            code: SourceCode::Sheet(card.code),
            columns: card.columns,
            cause: None,
        })?;
    }
    Ok(reported)
}
