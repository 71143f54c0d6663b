//! Rules that are known to be kept.

ghost use Rattle.std.specs.Prelude.{◌≡◌, ◌∷◌, ◌++◌, false, List};
ghost use Rattle.rpg_cards.specs.declared.spec_card.SpecCard.{SpecCard};
ghost use Rattle.std.specs.Bool.{OnTrue};
ghost use Rattle.rpg_faults.specs.Rules as rules;
ghost use Rattle.rpg_faults_operands.specs.Valid.{HasValidOperands};

use crate::code::FaultCode;
use rpg_card_index::IndexedCards;
use rpg_cards::SpecCard;

/// Whether a card is known to keep the rule of a code: by its sheet, or since its operands are valid. Inlined: it runs for every card and
/// code.
#[inline(always)]
#[tactic(auto, unfolding(crate::specs::Rules::rule))]
pub(crate) fn keeps_rule(
    code: FaultCode,
    source: &IndexedCards,
    has_valid_operands: bool,
    before: &[SpecCard],
    card: &SpecCard,
    after: &[SpecCard],
) -> bool
    requires split { source.now ≡ before.now ++ card.now ∷ after.now }
    requires valid { OnTrue has_valid_operands (HasValidOperands source.now card.now after.now) }
    ensures { OnTrue result (rules.rule code before.now card.now after.now ≡ false) }
{
    match code {
        FaultCode::F1 | FaultCode::F4 | FaultCode::F5 => has_valid_operands,
        _ => has_no_columns(code, card),
    }
}

/// Whether a card's sheet has none of the columns that the rule of a code is about.
#[inline(always)]
#[tactic(auto, unfolding(crate::specs::Rules::rule))]
fn has_no_columns(code: FaultCode, card: &SpecCard) -> bool
    ensures { (before after : List SpecCard) → OnTrue result (rules.rule code before card.now after ≡ false) }
{
    match code {
        FaultCode::F2 | FaultCode::F3 | FaultCode::F11 => card.output().is_some(),
        FaultCode::F7 | FaultCode::F16 => card.calculation().is_some(),
        FaultCode::F9 => card.calculation().is_none() && card.output().is_none(),
        FaultCode::F10 | FaultCode::F13 | FaultCode::F14 | FaultCode::F15 => {
            card.calculation().is_none()
        }
        FaultCode::F17 => card.output_field().is_none(),
        FaultCode::F18 => card.extension().is_none() && card.data().is_none(),
        _ => false,
    }
}
