//! What the cycle reads of a program.
ghost use Rattle.std.specs.Prelude.{◌≡◌, ◌≤◌, ◌<◌, ◌^◌, ◌&&◌, ◌==◌, length, slice_get};
ghost use Rattle.std.specs.Option.{ForSome};
ghost use Rattle.rpg_cycle.specs.Phases as phases;
ghost use Rattle.rpg_cycle.specs.Spending.{cycle_weight};
ghost use Rattle.rpg_program.specs.Kept.{IsIndicator};
ghost use Rattle.rpg_program.specs.Sections.{has_end, place_after};
ghost use Rattle.rpg_verify.specs.Bound as words;

use rpg_cycle_records::{rows_of, type_at};
use rpg_program::section::{Place, Section};
use rpg_verify::Verified;

/// The indicator of a type.
pub(crate) fn indicator_of(program: &Verified, row: usize) -> Option<u8>
    requires { row < length program.now.types }
    ensures value { result ≡ phases.type_indicator (slice_get program.now.types row) }
    ensures right { ForSome result IsIndicator }
{
    type_at(program, row).indicator
}

/// The overflow indicator.
pub(crate) fn overflow_of(program: &Verified) -> Option<u8>
    ensures value { result ≡ program.now.overflow.indicator }
    ensures right { ForSome result IsIndicator }
{
    rows_of(program).overflow.indicator
}

/// Whether a place is the end of detail or total calculations.
#[tactic(auto, unfolding(rpg_program::specs::Sections::place_after, rpg_program::specs::Sections::first_place))]
pub(crate) fn is_end(program: &Verified, place: Place) -> bool
    ensures { result ≡ (has_end place.section && place.number == place_after program.now place.section) }
{
    let rows = rows_of(program);
    let number = usize::from(place.number);
    match place.section {
        Section::Detail => number == rows.detail.len(),
        Section::Total => number == rows.detail.len() + rows.total.len(),
        Section::Subroutine(_) => false,
    }
}

/// The weight of all phases together is within the program's bound.
#[tactic(auto, using(crate::proofs::Spending::within_bound))]
pub(crate) fn is_bounded(program: &Verified)
    ensures sum { cycle_weight program.now ≤ words.bound program.now }
    ensures few { words.bound program.now < 2 ^ 48 }
{
    let _bound = program.bound();
}
