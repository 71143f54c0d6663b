//! The next cycle of a job, with the next records of its files.

ghost use Rattle.std.specs.Prelude.{◌≡◌, ◌-◌, ◌^◌, ◌<◌, IfErr, IfOk, IsOk, Ok, true};
ghost use Rattle.std.specs.Option.{option_map};
ghost use Rattle.rpg_cycle.specs.Doing.{IsSeen, next_text};
ghost use Rattle.rpg_cycle.specs.Stages.{is_going};
ghost use Rattle.rpg_program.specs.Fronts.{OnlyGrows};
ghost use Rattle.rpg_program.specs.declared.input.InputFile.TheVariants as files;
ghost use Rattle.rpg_files.specs.Counting.{faults_of};
ghost use Rattle.rpg_files.specs.Reading.{answer_of, is_record, reader_of};
ghost use Rattle.rpg_engine.specs.Devices.{AreLentOn};
ghost use Rattle.rpg_engine.specs.Streaming.{ReadsIfNeeded, CanReadNext, CyclesTo, IsNeedOf, CannotFailIfNeeded, TakesCycle, TakesNone, record_with};
ghost use Rattle.rpg_engine.specs.declared.fault.CycleFault.TheVariants as stops;

use crate::fault::CycleFault;
use rpg_cycle::{CycleEnd, Job, JobEnd, Need, Seen};
use rpg_files::{Next, ReadFault, RecordReader};
use rpg_program::input::InputFile;
use rpg_store::Store;
use std::io::Read;

/// Stands in for a bad record: no program accepts it.
const BAD_RECORD: &[u8] = &[0];

/// Does a cycle of a job that continues. Returns how the job ended, if it did.
fn cycle_with<S: Store + Drop>(
    job: &mut Job<'_, S>,
    primary: Option<&[u8]>,
    secondary: Option<&[u8]>,
    seen: Seen,
) -> Result<Option<JobEnd>, CycleFault>
    requires primary { IsSeen seen.primary primary }
    requires secondary { IsSeen seen.secondary secondary }
    requires going { is_going job.old.stage ≡ true }
    ensures cycle { IfOk result (λ e. CyclesTo job.old (next_text primary.entry) (next_text secondary.entry) e job.new) }
    ensures memory { IfErr result (λ e. e ≡ CycleFault.NoMemory) }
    ensures grows { OnlyGrows job.old.output job.new.output }
{
    match job.cycle_with_seen(primary, secondary, seen)? {
        CycleEnd::Continues => Ok(None),
        CycleEnd::EndOfJob => Ok(Some(JobEnd::EndOfJob)),
        CycleEnd::Halt(halt) => Ok(Some(JobEnd::Halt(halt))),
        CycleEnd::Failed => Err(CycleFault::NoMemory),
    }
}

/// Reads the next record of a file if it is needed; otherwise reads nothing. Inlined: most programs have no secondary file.
#[inline(always)]
fn read_if_needed<R: Read>(
    records: &mut RecordReader<'_, R>,
    is_needed: bool,
) -> Result<Next, ReadFault>
    requires faults { faults_of (reader_of records.old) < 2 ^ 64 - 1 }
    requires stands_after_record { is_needed ≡ true → is_record (answer_of records.old) ≡ true }
    ensures same_reader { records.new.reader.ghost_name ≡ records.old.reader.ghost_name }
    ensures asks { ReadsIfNeeded R.remaining is_needed records.old result records.new }
    ensures sure { CannotFailIfNeeded is_needed records.old → IsOk result }
{
    if is_needed {
        records.next()
    } else {
        Ok(Next::End)
    }
}

/// Returns the record that a cycle is given, if any.
fn record_for<'a, R>(records: &'a RecordReader<'_, R>, next: Next) -> Option<&'a [u8]>
    ensures { option_map (λ t. t.now) result ≡ record_with records.now next }
{
    match next {
        Next::Record => Some(records.record()),
        Next::Bad => Some(BAD_RECORD),
        Next::End => None,
    }
}

/// Whether the reader returned a record, which then has only characters.
fn is_given(next: Next) -> bool
    ensures { result ≡ is_record (Ok next) }
{
    matches!(next, Next::Record)
}

/// Does the next cycle. Returns how the job ended, if it did. Reads a record from each file that the cycle needs one from, the primary file
/// first.
pub(crate) fn next_cycle<S: Store + Drop, R1: Read, R2: Read>(
    job: &mut Job<'_, S>,
    need: Need,
    primary: &mut RecordReader<'_, R1>,
    secondary: &mut RecordReader<'_, R2>,
) -> Result<Option<JobEnd>, CycleFault>
    requires going { is_going job.old.stage ≡ true }
    requires needs { IsNeedOf need job.old }
    requires primary { CanReadNext job.old files.Primary primary.old }
    requires secondary { CanReadNext job.old files.Secondary secondary.old }
    ensures same { AreLentOn primary secondary }
    ensures alone { job.old.program.secondary_length ≡ 0 → secondary.new ≡ secondary.old }
    ensures cycle { IfOk result (λ e. TakesCycle R1.remaining R2.remaining job.old primary.old secondary.old e job.new primary.new secondary.new) }
    ensures none { IfErr result (λ e. TakesNone R1.remaining R2.remaining job.old primary.old secondary.old e primary.new secondary.new) }
    ensures sure { CannotFailIfNeeded need.primary primary.old → CannotFailIfNeeded need.secondary secondary.old → IfErr result (λ e. e ≡ stops.NoMemory) }
    ensures grows { OnlyGrows job.old.output job.new.output }
{
    let first = match read_if_needed(primary, need.primary) {
        Ok(next) => next,
        Err(fault) => {
            return Err(CycleFault::Read {
                file: InputFile::Primary,
                fault,
            });
        }
    };
    let second = match read_if_needed(secondary, need.secondary) {
        Ok(next) => next,
        Err(fault) => {
            return Err(CycleFault::Read {
                file: InputFile::Secondary,
                fault,
            });
        }
    };
    let seen = Seen {
        primary: is_given(first),
        secondary: is_given(second),
    };
    cycle_with(
        job,
        record_for(primary, first),
        record_for(secondary, second),
        seen,
    )
}
