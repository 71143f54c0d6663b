//! Laws.
ghost use Rattle.std.specs.Prelude.{◌≡◌, ℕ, List, length};
ghost use Rattle.rpg_cycle_records.specs.Matching.{value_cmp};
ghost use Rattle.rpg_cycle_records.specs.Merging.{LastValuesTellMatches, TheEndIsACut};
ghost use Rattle.rpg_cycle_records.specs.Paying.{TypesArePaid};
ghost use Rattle.rpg_decimal_words.specs.Order.{text_cmp};

/// What a job keeps is enough: if match values were selected in order, testing the last values is the same as testing all records
/// that were read.
#[tactic(auto, using(crate::proofs::Matches::found))]
pub fn matches_are_found()
    ensures { LastValuesTellMatches }
{}

/// The end that one file alone brings is a cut: of the other file no record is selected from the first one on whose match value is
/// greater than the ending file's greatest.
#[tactic(auto, using(crate::proofs::Choosing::cut))]
pub fn the_end_is_a_cut()
    ensures { TheEndIsACut }
{}

/// Match values of one length are ordered as texts are.
#[tactic(auto, using(crate::proofs::Order::as_texts))]
pub fn values_are_texts()
    ensures { (v w : List ℕ) → length v ≡ length w → value_cmp v w ≡ text_cmp v w }
{}

/// The steps that a cycle charges for record types are at most their weight: trying two records, the match fields of both, and the
/// control fields and input fields of the selected one.
#[tactic(auto, using(crate::proofs::Weighing::few))]
pub fn types_are_paid()
    ensures { TypesArePaid }
{}
