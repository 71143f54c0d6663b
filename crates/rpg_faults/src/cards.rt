//! The cards of a source that belong to a sheet.

ghost use Rattle.std.specs.Prelude.{◌≡◌, ◌≤◌, length, vec_len, IfOk};
ghost use Rattle.rpg_cards.specs.Cards.{Numbered};
ghost use Rattle.rpg_faults.specs.Cards as specs_of;
ghost use Rattle.rpg_faults.specs.Props.{Numbered-prop};

use rpg_cards::SpecCard;
use rpg_sheet::{Cards, Spec};
use std::alloc::{AllocError, Global};

/// The cards of a source that belong to a sheet: at most 2,000, and numbered.
#[derive(Drop)]
pub(crate) struct NumberedCards {
    pub cards: Vec<SpecCard>,
    pub ghost numbered: { Numbered 1 cards.items } by { Numbered-prop 1 cards.items },
    pub ghost few: { length cards.items ≤ 2000 },
}

/// Numbers each card that belongs to a sheet. Fails only if memory runs out.
#[tactic(auto, using(crate::proofs::Numbering::numbers_go_up, crate::proofs::Numbering::no_more_than_cards))]
pub(crate) fn spec_cards(alloc: Global, cards: Cards) -> Result<NumberedCards, AllocError>
    ensures { IfOk result (λ numbered. numbered.cards.items ≡ specs_of.numbered_cards 1 cards) }
{
    let cards = numbered(alloc, cards.into_vec())?;
    Ok(NumberedCards { cards })
}

fn numbered(alloc: Global, specs: Vec<Option<Spec>>) -> Result<Vec<SpecCard>, AllocError>
    requires { vec_len specs ≤ 2000 }
    ensures { IfOk result (λ v. v.items ≡ specs_of.numbered_cards 1 specs.items) }
{
    let mut known = Vec::with_capacity(alloc, specs.len())?;
    let mut number = 1;
    let mut rest = specs.into_iter();
    while let Some(spec) = rest.next() {
        if let Some(spec) = spec {
            known.push_reserved(SpecCard { number, spec });
        }
        number += 1;
    }
    Ok(known)
}
