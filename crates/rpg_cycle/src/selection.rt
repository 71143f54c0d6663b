//! Reading records, and selecting one.
ghost use Rattle.std.specs.Prelude.{◌≡◌, ◌^◌, ◌<◌, ◌≤◌, IfOk, OnOk, Some, length, true};
ghost use Rattle.std.specs.List.{list_all};
ghost use Rattle.rpg_cycle.specs.Cycled.{AreSeen, KeepsWell};
ghost use Rattle.rpg_cycle.specs.Doing.{IsSeen};
ghost use Rattle.rpg_cycle.specs.Ends.{Continues};
ghost use Rattle.rpg_cycle.specs.Indicators as lights;
ghost use Rattle.rpg_cycle.specs.Selecting.{ComparesLevels, EndsAtRecord, EndsSelecting, EndsTakingIn, HoldsWaiting, IsChosen, IsPicked, IsTakenUp, IsUntaken, LeavesFile, ReadsRecord, TakesIn, TakesType};
ghost use Rattle.rpg_cycle.specs.Stages.{IfStops, job_end};
ghost use Rattle.rpg_cycle_records.specs.Fitting.{IsFilledAs};
ghost use Rattle.rpg_cycle_records.specs.Holding.{IsFileKept};
ghost use Rattle.rpg_cycle_records.specs.Identifying.{is_valid_record};
ghost use Rattle.rpg_machine.specs.Ready.{IsReady};
ghost use Rattle.rpg_program.specs.Object.{input_length};
ghost use Rattle.rpg_text.specs.Texts.{is_character};

use crate::ends::{JobEnd, PhaseStop};
use crate::indicators::{LAST_RECORD, LEVELS, turn_all, turn_type_on};
use crate::program::indicator_of;
use crate::seen::Seen;
use rpg_cycle_records::{
    Kept, KeptFile, LastBytes, LastValues, MatchValue, compare, control_fields, fill, identify,
    input_length, is_valid, match_fields,
};
use rpg_machine::Machine;
use rpg_program::halt::Halt;
use rpg_program::input::InputFile;
use rpg_store::Store;
use rpg_verify::Verified;
use std::alloc::AllocError;

/// Turns on L1 to the n-th level.
fn turn_levels_on<S: Store + Drop>(machine: &mut Machine<S>, n: usize)
    requires { n ≤ 9 }
    ensures { lights.Turns (lights.with_levels n) machine.old machine.new }
{
    turn_all(machine, &LEVELS[..n], true);
}

/// Identifies a record of a file.
fn take_type<S: Store + Drop>(
    program: &Verified,
    machine: &mut Machine<S>,
    file: InputFile,
    text: &[u8],
) -> Result<usize, PhaseStop>
    requires few { machine.old.config.steps ≤ 2 ^ 50 }
    requires whole { length text.now ≡ input_length program.now file }
    ensures goes { IfOk result (λ t. TakesType program.now file text.now machine.old t machine.new) }
    ensures stops { IfStops result (λ e. IsUntaken program.now file text.now machine.old e machine.new) }
    ensures output { machine.new.output ≡ machine.old.output }
{
    let found = identify(program, file, text);
    machine.charge(found.codes);
    match found.row {
        None => Err(PhaseStop::Ends(JobEnd::Halt(Halt::NoRecordType))),
        Some(row) => Ok(row),
    }
}

/// Whether the program accepts a record from a file. Doesn't test the bytes of one that is known to have only characters.
fn can_take(program: &Verified, file: InputFile, text: &[u8], is_seen: bool) -> bool
    requires { is_seen ≡ true → list_all is_character text.now ≡ true }
    ensures { result ≡ is_valid_record program.now file text.now }
{
    if is_seen {
        text.len() <= input_length(program, file)
    } else {
        is_valid(program, file, text)
    }
}

/// Reads a record: pads and identifies it. It waits, unless its match value is lower than the file's last one.
#[inline(always)]
fn read<S: Store + Drop>(
    program: &Verified,
    machine: &mut Machine<S>,
    kept: &mut KeptFile,
    last: &MatchValue,
    file: InputFile,
    text: &[u8],
    is_seen: bool,
) -> Result<(), PhaseStop>
    requires few { machine.old.config.steps ≤ 2 ^ 50 }
    requires seen { is_seen ≡ true → list_all is_character text.now ≡ true }
    ensures goes { IfOk result (λ _. ReadsRecord program.now file last.now (Some text.now) kept.old machine.old Continues kept.new machine.new) }
    ensures stops { IfStops result (λ e. EndsAtRecord program.now file last.now text.now machine.old (job_end e) machine.new) }
    ensures leaves { LeavesFile program.now file machine.old result kept.new machine.new }
{
    if !can_take(program, file, text, is_seen) {
        return Err(PhaseStop::Ends(JobEnd::Halt(Halt::BadRecord)));
    }
    fill(&mut kept.record, program, file, text)?;
    let row = take_type(program, machine, file, &kept.record)?;
    machine.charge(match_fields(program, row).len() as u32);
    if !kept.wait(program, row, last)? {
        return Err(PhaseStop::Ends(JobEnd::Halt(Halt::OutOfSequence)));
    }
    Ok(())
}

/// Reads a record of a file that exists, isn't at its end and has no waiting record.
#[inline(always)]
fn take_in<S: Store + Drop>(
    program: &Verified,
    machine: &mut Machine<S>,
    kept: &mut KeptFile,
    last: &MatchValue,
    file: InputFile,
    next: Option<&[u8]>,
    is_seen: bool,
) -> Result<(), PhaseStop>
    requires few { machine.old.config.steps ≤ 2 ^ 50 }
    requires kept { IsFileKept program.now file kept.old }
    requires seen { IsSeen is_seen next }
    ensures goes { IfOk result (λ _. TakesIn program.now file last.now next.entry kept.old machine.old kept.new machine.new) }
    ensures stops { IfStops result (λ e. EndsTakingIn program.now file last.now next.entry kept.old machine.old (job_end e) machine.new) }
    ensures leaves { LeavesFile program.now file machine.old result kept.new machine.new }
{
    if !kept.takes_in(program, file) {
        return Ok(());
    }
    let Some(text) = next else {
        kept.is_over = true;
        return Ok(());
    };
    read(program, machine, kept, last, file, text, is_seen)
}

/// Turns on the indicator of a record's type, compares its control fields with the last bytes of their levels, and keeps them.
#[inline(always)]
fn compare_levels<S: Store + Drop>(
    program: &Verified,
    machine: &mut Machine<S>,
    levels: &mut [LastBytes],
    row: usize,
    text: &[u8],
) -> Result<(), AllocError>
    requires few { machine.old.config.steps ≤ 2 ^ 51 }
    requires nine { length levels.old ≡ 9 }
    requires there { row < length program.now.types }
    requires whole { IsFilledAs program.now row text.now }
    ensures compared { OnOk result (ComparesLevels program.now row text.now levels.old machine.old levels.new machine.new) }
    ensures output { machine.new.output ≡ machine.old.output }
{
    turn_type_on(machine, indicator_of(program, row));
    let fields = control_fields(program, row);
    machine.charge(fields.len() as u32);
    let broken = compare(levels, fields, text)?;
    turn_levels_on(machine, broken);
    Ok(())
}

/// Selects the record that waits in a file, which then waits no longer.
#[inline(always)]
fn select_waiting<S: Store + Drop>(
    program: &Verified,
    machine: &mut Machine<S>,
    levels: &mut [LastBytes],
    values: &mut LastValues,
    kept: &mut KeptFile,
) -> Result<Option<usize>, AllocError>
    requires few { machine.old.config.steps ≤ 2 ^ 51 }
    requires nine { length levels.old ≡ 9 }
    requires held { HoldsWaiting program.now kept.old }
    ensures taken { IfOk result (λ t. IsTakenUp program.now levels.old values.old kept.old machine.old t levels.new values.new kept.new machine.new) }
    ensures output { machine.new.output ≡ machine.old.output }
{
    let Some(row) = kept.waiting else {
        return Ok(None);
    };
    kept.waiting = None;
    compare_levels(program, machine, levels, row, &kept.record)?;
    values.keep(program, row, &kept.record)?;
    Ok(Some(row))
}

/// Selects one of the waiting records; if none is selected, turns on LR and L1 to L9.
#[inline(always)]
fn select_one<S: Store + Drop>(
    program: &Verified,
    machine: &mut Machine<S>,
    kept: &mut Kept,
) -> Result<Option<usize>, AllocError>
    requires few { machine.old.config.steps ≤ 2 ^ 51 }
    requires kept { KeepsWell program.now kept.old }
    ensures picked { IfOk result (λ t. IsPicked program.now kept.old machine.old t kept.new machine.new) }
    ensures output { machine.new.output ≡ machine.old.output }
{
    match kept.chosen(program) {
        None => {
            machine.set_indicator(LAST_RECORD, true);
            turn_all(machine, &LEVELS, true);
            Ok(None)
        }
        Some(InputFile::Primary) => {
            let file = &mut kept.primary;
            select_waiting(program, machine, &mut kept.levels, &mut kept.values, file)
        }
        Some(InputFile::Secondary) => {
            let file = &mut kept.secondary;
            select_waiting(program, machine, &mut kept.levels, &mut kept.values, file)
        }
    }
}

/// 4. Reads a record from each file that needs one, and selects one. If LR is on, turns on L1 to L9 instead.
pub(crate) fn select_record<S: Store + Drop>(
    program: &Verified,
    machine: &mut Machine<S>,
    kept: &mut Kept,
    primary: Option<&[u8]>,
    secondary: Option<&[u8]>,
    seen: Seen,
) -> Result<Option<usize>, PhaseStop>
    requires seen { AreSeen seen primary secondary }
    requires ready { IsReady machine.old }
    requires few { machine.old.config.steps ≤ 2 ^ 49 }
    requires kept { KeepsWell program.now kept.old }
    ensures stops { IfStops result (λ e. EndsSelecting program.now kept.old primary.entry secondary.entry machine.old (job_end e) machine.new) }
    ensures chosen { IfOk result (λ t. IsChosen program.now kept.old primary.entry secondary.entry machine.old t kept.new machine.new) }
    ensures output { machine.new.output ≡ machine.old.output }
{
    if machine.indicator(LAST_RECORD) {
        turn_all(machine, &LEVELS, true);
        return Ok(None);
    }
    let last = &kept.values;
    take_in(
        program,
        machine,
        &mut kept.primary,
        &last.primary,
        InputFile::Primary,
        primary,
        seen.primary,
    )?;
    take_in(
        program,
        machine,
        &mut kept.secondary,
        &last.secondary,
        InputFile::Secondary,
        secondary,
        seen.secondary,
    )?;
    let row = select_one(program, machine, kept)?;
    Ok(row)
}
