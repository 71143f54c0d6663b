//! A law of the definitions. The function does nothing: it is called only for its contract.
ghost use Rattle.std.specs.Prelude.{List};
ghost use Rattle.rpg_meaning.specs.Calls.Chains.{HasChains};
ghost use Rattle.rpg_cards.specs.declared.spec_card.SpecCard.{SpecCard};
ghost use Rattle.rpg_compile_program.specs.Rules.{KeepsCardRules};

/// In a source that obeys the rules of cards no call leads back, and a subroutine has the level of the longest chain of calls that ends
/// in it.
pub fn sources_have_chains()
    ensures { (cards : List SpecCard) → KeepsCardRules cards → HasChains cards }
{}
