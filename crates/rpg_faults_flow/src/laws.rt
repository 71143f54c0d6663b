//! Laws of the definitions. The functions do nothing: they are called only for their contracts.
ghost use Rattle.std.specs.Prelude.{List};
ghost use Rattle.rpg_cards.specs.Calculations as cards;
ghost use Rattle.rpg_cards.specs.Plain.{ArePlain};
ghost use Rattle.rpg_cards.specs.Sections as sections;
ghost use Rattle.rpg_cards.specs.declared.spec_card.SpecCard.{SpecCard};
ghost use Rattle.rpg_faults_flow.specs.Faultless.{HasFewSubroutines, KeepsFlow};

/// The sections of a source without faults are as the rules on targets, calls, returns and levels need them.
pub fn faultless_sections_are_plain()
    ensures { (source : List SpecCard) → KeepsFlow source → HasFewSubroutines source → ArePlain (sections.sections_of (cards.calculations source)) }
{}
