//! The phases of a cycle that select no record.
ghost use Rattle.std.specs.Prelude.{◌≡◌, ℕ, All, IfOk, List, map, true};
ghost use Rattle.std.specs.Option.{ForSome};
ghost use Rattle.rpg_cycle.specs.Doing.{DoesAlone, DoesWith, selected_has_match};
ghost use Rattle.rpg_cycle.specs.Ends as ends;
ghost use Rattle.rpg_cycle.specs.Ends.{Continues};
ghost use Rattle.rpg_cycle.specs.Indicators as lights;
ghost use Rattle.rpg_cycle_records.specs.Holding.{HoldsSelected};
ghost use Rattle.rpg_cycle_records.specs.Keeping.{selected_as};
ghost use Rattle.rpg_machine.specs.Ready.{IsReady};
ghost use Rattle.rpg_cycle.specs.Phases as spec;
ghost use Rattle.rpg_cycle.specs.Spending.{section_cost, full_page_weight, totals_weight};
ghost use Rattle.rpg_cycle.specs.Stages.{IfStops, job_end};
ghost use Rattle.rpg_cycle.specs.Staging.{CanDo, CanSpend, DoesFreely, DoesPhase, FillsSelected, KeepsSelected, ShowsMatch};
ghost use Rattle.rpg_program.specs.Ends as effects;
ghost use Rattle.rpg_machine.specs.Outputs.{output_weight};
ghost use Rattle.rpg_machine.specs.declared.time.OutputTime.TheVariants as times;
ghost use Rattle.rpg_program.specs.Kept.{IsIndicator};
ghost use Rattle.rpg_program.specs.Object.{type_row};
ghost use Rattle.rpg_program.specs.Sections.{has_end};
ghost use Rattle.rpg_program.specs.declared.section.Section.TheVariants as sections;

use crate::ends::{JobEnd, PhaseStop};
use crate::indicators::{
    FIRST_PAGE, LAST_RECORD, LEVELS, MATCHING_RECORD, is_halt_indicated, turn_all, turn_type_off,
};
use crate::program::{is_bounded, overflow_of};
use rpg_cycle_records::{Kept, types_of};
use rpg_machine::Machine;
use rpg_machine::time::OutputTime;
use rpg_program::halt::Halt;
use rpg_program::outcome::End;
use rpg_program::rows::RecordType;
use rpg_program::section::Section;
use rpg_store::Store;
use rpg_verify::Verified;

/// Returns how the cycle continues after the machine's answer.
fn go_on(end: End) -> Result<(), PhaseStop>
    ensures goes { IfOk result (λ _. end ≡ End.Continues) }
    ensures stops { IfStops result (λ e. ends.phase_end (effects.end_of end) ≡ job_end e) }
{
    match end {
        End::Continues => Ok(()),
        End::Halt(halt) => Err(PhaseStop::Ends(JobEnd::Halt(halt))),
    }
}

/// Outputs the lines of a time.
fn output_lines<S: Store + Drop>(
    machine: &mut Machine<S>,
    time: OutputTime,
) -> Result<(), PhaseStop>
    requires { CanDo machine.old }
    ensures { DoesPhase (spec.output machine.old.program time) (output_weight machine.old.program time) machine.old result machine.new }
{
    let end = machine.output(time)?;
    go_on(end)
}

/// Runs a section of calculations.
#[inline(always)]
fn calculate<S: Store + Drop>(machine: &mut Machine<S>, section: Section) -> Result<(), PhaseStop>
    requires section { has_end section ≡ true }
    requires can { CanDo machine.old }
    ensures { DoesPhase (spec.section machine.old.program section) (section_cost machine.old.program section) machine.old result machine.new }
{
    let end = machine.section(section)?;
    go_on(end)
}

/// 1. Heading and detail lines.
pub(crate) fn output_details<S: Store + Drop>(machine: &mut Machine<S>) -> Result<(), PhaseStop>
    requires { CanDo machine.old }
    ensures { DoesPhase (spec.detail_lines machine.old.program) (output_weight machine.old.program times.Detail) machine.old result machine.new }
{
    output_lines(machine, OutputTime::Detail)
}

/// 2. Halt 6 if a halt indicator is on.
pub(crate) fn halt_if_indicated<S: Store + Drop>(machine: &Machine<S>) -> Result<(), PhaseStop>
    ensures goes { IfOk result (λ _. DoesAlone spec.halt_if_indicated machine.now Continues machine.now) }
    ensures stops { IfStops result (λ e. DoesAlone spec.halt_if_indicated machine.now (job_end e) machine.now) }
{
    if is_halt_indicated(machine) {
        return Err(PhaseStop::Ends(JobEnd::Halt(Halt::IndicatorOn)));
    }
    Ok(())
}

/// Turns off the indicators of record types.
fn turn_types_off<S: Store + Drop>(machine: &mut Machine<S>, types: &[RecordType])
    requires { All (λ t. ForSome t.indicator IsIndicator) types.now }
    ensures { lights.Turns (lights.without_types (map type_row types.now)) machine.old machine.new }
{
    for record_type in types {
        turn_type_off(machine, record_type.indicator);
    }
}

/// Turns off the indicators of record types, L1 to L9 and 1P.
fn turn_off<S: Store + Drop>(machine: &mut Machine<S>)
    ensures { lights.Turns (spec.all_off machine.old.program) machine.old machine.new }
{
    turn_types_off(machine, types_of(machine.program()));
    turn_all(machine, &LEVELS, false);
    machine.set_indicator(FIRST_PAGE, false);
}

/// 3. Turns off the indicators of record types, L1 to L9 and 1P.
pub(crate) fn set_off<S: Store + Drop>(machine: &mut Machine<S>)
    requires { IsReady machine.old }
    ensures { DoesFreely spec.set_off machine.old machine.new }
{
    turn_off(machine);
}

/// Whether types have control fields.
fn has_control_fields(types: &[RecordType]) -> bool
    ensures { result ≡ spec.has_control_fields (map type_row types.now) }
{
    for record_type in types {
        if !record_type.levels.is_empty() {
            return true;
        }
    }
    false
}

/// Whether total time is bypassed.
fn is_bypassed<S: Store + Drop>(machine: &Machine<S>, has_any: bool, has_control: bool) -> bool
    ensures { result ≡ spec.is_bypassed machine.now.program has_any has_control machine.now.config }
{
    !machine.indicator(LAST_RECORD)
        && (!has_any || (!has_control && has_control_fields(types_of(machine.program()))))
}

/// Total calculations and total lines.
fn do_totals<S: Store + Drop>(machine: &mut Machine<S>) -> Result<(), PhaseStop>
    requires { CanSpend 0 machine.old }
    ensures { DoesPhase (spec.totals machine.old.program) (totals_weight machine.old.program) machine.old result machine.new }
{
    is_bounded(machine.program());
    calculate(machine, Section::Total)?;
    output_lines(machine, OutputTime::Total)
}

/// 5. Total calculations and total lines, unless they are bypassed.
pub(crate) fn take_total_time<S: Store + Drop>(
    machine: &mut Machine<S>,
    has_any: bool,
    has_control: bool,
) -> Result<(), PhaseStop>
    requires { CanSpend 0 machine.old }
    ensures { DoesPhase (spec.total_time_by machine.old.program has_any has_control) (totals_weight machine.old.program) machine.old result machine.new }
{
    if is_bypassed(machine, has_any, has_control) {
        return Ok(());
    }
    do_totals(machine)
}

/// 6. The job ends if LR is on, or if no record was selected.
pub(crate) fn end_where_last<S: Store + Drop>(
    machine: &Machine<S>,
    selected: Option<usize>,
) -> Result<(), PhaseStop>
    ensures goes { IfOk result (λ _. (text : List ℕ) → DoesWith spec.end_where_last (selected_as selected text) machine.now Continues machine.now) }
    ensures stops { IfStops result (λ e. (text : List ℕ) → DoesWith spec.end_where_last (selected_as selected text) machine.now (job_end e) machine.now) }
{
    if machine.indicator(LAST_RECORD) || selected.is_none() {
        return Err(PhaseStop::Ends(JobEnd::EndOfJob));
    }
    Ok(())
}

/// Whether the overflow indicator is off, or there is none.
fn has_no_overflow<S: Store + Drop>(machine: &Machine<S>, overflow: Option<u8>) -> bool
    requires { ForSome overflow IsIndicator }
    ensures { result ≡ spec.has_no_overflow overflow machine.now.config }
{
    match overflow {
        None => true,
        Some(number) => !machine.indicator(number),
    }
}

/// 7. All lines of a new page, if the overflow indicator is on.
#[inline(always)]
pub(crate) fn output_overflow<S: Store + Drop>(machine: &mut Machine<S>) -> Result<(), PhaseStop>
    requires { CanDo machine.old }
    ensures { DoesPhase (spec.overflow_lines machine.old.program) (full_page_weight machine.old.program) machine.old result machine.new }
{
    if has_no_overflow(machine, overflow_of(machine.program())) {
        return Ok(());
    }
    output_lines(machine, OutputTime::Overflow)
}

/// Whether the selected record has a match, if one was selected.
#[inline(always)]
fn finds_match_of(program: &Verified, kept: &Kept, selected: Option<usize>) -> bool
    requires { KeepsSelected program.now kept.now selected }
    ensures { result ≡ selected_has_match program.now kept.now selected }
{
    match selected {
        None => false,
        Some(row) => kept.finds_match(program, row),
    }
}

/// 8. Sets MR to whether the selected record has a match.
#[inline(always)]
pub(crate) fn show_match<S: Store + Drop>(
    machine: &mut Machine<S>,
    kept: &Kept,
    selected: Option<usize>,
)
    requires ready { IsReady machine.old }
    requires held { KeepsSelected machine.old.program kept.now selected }
    ensures { ShowsMatch kept.now selected machine.old machine.new }
{
    let program = machine.program();
    let is_found = finds_match_of(program, kept, selected);
    machine.set_indicator(MATCHING_RECORD, is_found);
}

/// 8. Fills fields from the columns of the selected record.
#[inline(always)]
pub(crate) fn fill_fields<S: Store + Drop>(
    machine: &mut Machine<S>,
    kept: &Kept,
    selected: Option<usize>,
) -> Result<(), PhaseStop>
    requires can { CanDo machine.old }
    requires held { HoldsSelected machine.old.program kept.now selected }
    ensures { FillsSelected kept.now selected machine.old result machine.new }
{
    match selected {
        None => Ok(()),
        Some(row) => {
            let text = kept.text(machine.program(), row);
            let end = machine.fill_fields(row, text);
            go_on(end)
        }
    }
}

/// 9. Detail calculations.
#[inline(always)]
pub(crate) fn calculate_details<S: Store + Drop>(machine: &mut Machine<S>) -> Result<(), PhaseStop>
    requires { CanDo machine.old }
    ensures { DoesPhase (spec.detail_calculations machine.old.program) (section_cost machine.old.program sections.Detail) machine.old result machine.new }
{
    calculate(machine, Section::Detail)
}
