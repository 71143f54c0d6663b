//! Laws of the definitions.
ghost use Rattle.rpg_program.specs.Places.{FindsFirst, FindsLast};

/// A search finds the first position that passes, or the last one, or none if none passes.
#[tactic(auto, using(crate::proofs::PlaceLaws::finds_first, crate::proofs::PlaceLaws::finds_last))]
pub fn searches_go_by_places()
    ensures first { FindsFirst }
    ensures last { FindsLast }
{}
