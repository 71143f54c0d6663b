//! Laws of the definitions. The functions do nothing: they are called only for their contracts.
ghost use Rattle.std.specs.Ordering.{nat_cmp};
ghost use Rattle.std.specs.Prelude.{ℕ, List};
ghost use Rattle.rpg_cards.specs.Keys.{Key, key_cmp};
ghost use Rattle.rpg_cards.specs.Cards.{Numbered};
ghost use Rattle.rpg_cards.specs.declared.spec_card.SpecCard.{SpecCard};
ghost use Rattle.rpg_program.specs.World.{World};
ghost use Rattle.rpg_meaning.specs.Calculations.Laws.{KeepsMeaning, KeepsMeaningOfCards};
ghost use Rattle.rpg_meaning.specs.Calculations.Meaning.{Source};
ghost use Rattle.rpg_meaning.specs.Calculations.NextCard.{NumbersAreTheirs, NumbersGoUp};
ghost use Rattle.rpg_meaning.specs.Calculations.Sources.{IsAcceptedSource, source_of};
ghost use Rattle.rpg_meaning.specs.Calculations.Translation.{IsTranslation};
ghost use Rattle.rpg_program.specs.Kept.{IsProgram};
ghost use Rattle.rpg_program.specs.Object.{Object};
ghost use Rattle.rpg_program.specs.Naming.{Agree};
ghost use Rattle.rpg_verify_rules.specs.Accepted.{IsAccepted};
ghost use Rattle.rpg_compile_program.specs.Program.{key_numbers};

/// An accepted program that calculation cards compile to does what they mean.
pub fn accepted_programs_keep_meaning()
    ensures { (p : Object) → IsProgram p → IsAccepted p → (source : Source) (number : Key → ℕ) → IsTranslation p source number → KeepsMeaning p source number }
{}

/// So does the program of a source, if no calculation card lacks what it requires. And for any values of a program's fields there are
/// values by name that agree with them.
pub fn compiled_cards_keep_meaning()
    ensures meaning { (cards : List SpecCard) (allowance : ℕ) → IsAcceptedSource cards allowance → KeepsMeaningOfCards cards allowance }
    ensures worlds { (cards : List SpecCard) (w : World nat_cmp) → (v : World key_cmp) × Agree (source_of cards).forms (key_numbers cards) v w }
{}

/// The number of the next card is that of the next calculation's first card, and an earlier calculation begins on an earlier card.
pub fn numbers_are_of_cards()
    ensures theirs { (cards : List SpecCard) → NumbersAreTheirs cards }
    ensures up { (cards : List SpecCard) (low : ℕ) → Numbered low cards → NumbersGoUp cards }
{}
