//! Laws of the definitions. The functions do nothing: they are called only for their contracts.
ghost use Rattle.std.specs.Prelude.{ℕ, ℤ, List};
ghost use Rattle.rpg_cards.specs.Keys.{key_cmp};
ghost use Rattle.rpg_cards.specs.declared.spec_card.SpecCard.{SpecCard};
ghost use Rattle.rpg_program.specs.World.{World};
ghost use Rattle.rpg_meaning.specs.Calculations.Sources.{IsAcceptedSource};
ghost use Rattle.rpg_meaning.specs.Jobs.Sources.{IsDate, MeantRunsAreOne, RunsAreMeant};
ghost use Rattle.rpg_meaning.specs.Jobs.Start.{IsStart};
ghost use Rattle.rpg_program.specs.Kept.{IsProgram};
ghost use Rattle.rpg_compile_program.specs.Program.{program_of};

/// Each run of a source's program is a run of its cards, if the program is accepted and no calculation card lacks what it requires; and
/// there are values that the cards start with.
pub fn runs_are_those_of_cards()
    ensures runs { (cards : List SpecCard) (allowance : ℕ) (date : ℤ) → IsAcceptedSource cards allowance → IsDate date → RunsAreMeant cards allowance date }
    ensures start { (cards : List SpecCard) (allowance : ℕ) (date : ℤ) → IsProgram (program_of cards allowance) → (w : World key_cmp) × IsStart cards date w }
{}

/// The cards have one run over given records: one end, one count of cycles, one output.
pub fn cards_have_one_run()
    ensures { MeantRunsAreOne }
{}
