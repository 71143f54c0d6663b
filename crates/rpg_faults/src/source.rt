//! Reads the text of a source to its cards.

ghost use Rattle.std.specs.Prelude.{◌≡◌, IfOk, IfErr};
ghost use Rattle.rpg_card_index.specs.Index.{IsIndexOf};
ghost use Rattle.rpg_faults.specs.Props.{IsIndexOf-prop};
ghost use Rattle.rpg_faults.specs.Source as sources;

use crate::cards::spec_cards;
use crate::least::faultless_index;
use crate::source_fault::{SourceCode, SourceFault};
use rpg_card_index::CardIndex;
use rpg_cards::SpecCard;
use std::alloc::Global;

/// The cards of a source without faults that belong to a sheet, each with its number, and their index.
#[derive(Drop)]
pub struct FaultlessCards {
    pub cards: Vec<SpecCard>,
    pub(crate) index: CardIndex,
    pub ghost exact: { IsIndexOf index cards.items } by { IsIndexOf-prop index cards.items },
}

impl FaultlessCards {
    /// Joins cards and the index of these cards.
    pub fn of_parts(cards: Vec<SpecCard>, index: CardIndex) -> Self
        requires { IsIndexOf index cards.items }
        ensures { result.cards.items ≡ cards.items }
    {
        FaultlessCards { cards, index }
    }

    /// Returns the cards, and the index that `CardIndex::over` puts over them.
    pub fn into_parts(self) -> (Vec<SpecCard>, CardIndex)
        ensures cards { result.0.items ≡ self.cards.items }
        ensures index { IsIndexOf result.1 result.0.items }
    {
        (self.cards, self.index)
    }
}

/// Returns the cards of a source without faults.
pub fn faultless_cards(alloc: Global, text: &[u8]) -> Result<FaultlessCards, SourceFault>
    ensures ok { IfOk result (λ source. sources.AreFaultless text.now source.cards.items) }
    ensures err { IfErr result (λ fault. sources.IsSourceRefusal fault text.now) }
{
    let cards = rpg_sheet::cards(alloc, text)?;
    let cards = spec_cards(alloc, cards)?;
    match faultless_index(alloc, &cards.cards)? {
        Err(fault) => Err(SourceFault::At {
            card: fault.card,
            code: SourceCode::Fault(fault.code),
            columns: None,
        }),
        Ok(index) => {
            let cards = cards.cards;
            Ok(FaultlessCards { cards, index })
        }
    }
}
