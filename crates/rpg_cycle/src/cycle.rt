//! One cycle.
ghost use Rattle.std.specs.Prelude.{◌≤◌, ◌+◌, ◌^◌};
ghost use Rattle.rpg_cycle.specs.Cycled.{AreSeen, DoesPhases, KeepsWell, RunsCycle};
ghost use Rattle.rpg_cycle.specs.Spending.{detail_time_weight, phases_weight, reach, record_weight};
ghost use Rattle.rpg_cycle.specs.Staging.{CanSpend, FollowsSelection, KeepsSelected, TakesDetailTime};
ghost use Rattle.rpg_machine.specs.Ready.{IsReady};

use crate::ends::PhaseStop;
use crate::phases::{
    calculate_details, end_where_last, fill_fields, halt_if_indicated, output_details,
    output_overflow, set_off, show_match, take_total_time,
};
use crate::program::is_bounded;
use crate::seen::Seen;
use crate::selection::select_record;
use rpg_cycle_records::Kept;
use rpg_machine::Machine;
use rpg_store::Store;

/// Phases 7 to 9, with the selected record.
#[inline(always)]
fn take_detail_time<S: Store + Drop>(
    machine: &mut Machine<S>,
    kept: &Kept,
    selected: Option<usize>,
) -> Result<(), PhaseStop>
    requires can { CanSpend (detail_time_weight machine.old.program selected) machine.old }
    requires held { KeepsSelected machine.old.program kept.now selected }
    ensures { TakesDetailTime kept.now selected machine.old result machine.new }
{
    output_overflow(machine)?;
    show_match(machine, kept, selected);
    fill_fields(machine, kept, selected)?;
    calculate_details(machine)
}

/// Phases 5 to 9, with the selected record.
#[inline(always)]
fn follow_selection<S: Store + Drop>(
    machine: &mut Machine<S>,
    kept: &Kept,
    selected: Option<usize>,
) -> Result<(), PhaseStop>
    requires can { CanSpend (record_weight machine.old.program selected) machine.old }
    requires held { KeepsSelected machine.old.program kept.now selected }
    ensures { FollowsSelection kept.now selected machine.old result machine.new }
{
    take_total_time(machine, kept.has_any, kept.has_control)?;
    end_where_last(machine, selected)?;
    take_detail_time(machine, kept, selected)
}

/// The nine phases, from a full allowance. Returns the selected record's type.
#[inline(always)]
fn do_phases<S: Store + Drop>(
    machine: &mut Machine<S>,
    kept: &mut Kept,
    primary: Option<&[u8]>,
    secondary: Option<&[u8]>,
    seen: Seen,
) -> Result<Option<usize>, PhaseStop>
    requires seen { AreSeen seen primary secondary }
    requires ready { IsReady machine.old }
    requires few { reach machine.old.program machine.old + phases_weight machine.old.program ≤ 2 ^ 48 }
    requires kept { KeepsWell machine.old.program kept.old }
    ensures { DoesPhases machine.old.program kept.old primary.entry secondary.entry machine.old result kept.new machine.new }
{
    output_details(machine)?;
    halt_if_indicated(machine)?;
    set_off(machine);
    let program = machine.program();
    let selected = select_record(program, machine, kept, primary, secondary, seen)?;
    follow_selection(machine, kept, selected)?;
    Ok(selected)
}

/// One cycle of nine phases, with the next record of each file, or none at its end. Returns the selected record's type.
pub(crate) fn run_cycle<S: Store + Drop>(
    machine: &mut Machine<S>,
    kept: &mut Kept,
    primary: Option<&[u8]>,
    secondary: Option<&[u8]>,
    seen: Seen,
) -> Result<Option<usize>, PhaseStop>
    requires seen { AreSeen seen primary secondary }
    requires ready { IsReady machine.old }
    requires kept { KeepsWell machine.old.program kept.old }
    ensures { RunsCycle kept.old primary.entry secondary.entry machine.old result kept.new machine.new }
{
    is_bounded(machine.program());
    machine.refill();
    do_phases(machine, kept, primary, secondary, seen)
}
