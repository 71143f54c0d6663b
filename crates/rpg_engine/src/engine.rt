//! The engine: from object bytes and input bytes to the report and the output bytes.

ghost use Rattle.std.specs.Prelude.{◌≡◌, IfOk, IsErrOf, None};
ghost use Rattle.rpg_cycle.specs.Job.{Starts, first_fields};
ghost use Rattle.rpg_cycle.specs.Starting.{date_in};
ghost use Rattle.rpg_program.specs.Object.{Object};
ghost use Rattle.rpg_engine.specs.Devices.{CanCountFaults, NamesFault, ReportsWhoseFault, both};
ghost use Rattle.rpg_engine.specs.Reporting.{EachRunEndsWell, HasRunOnAnyDay};
ghost use Rattle.rpg_engine.specs.Running.{RunsObject, RunsProgram, RunsProgramOver};

use crate::fault::RunFault;
use crate::files::{Readers, Writers};
use crate::object::accepted_object;
use crate::report::Report;
use crate::run::run;
use crate::watching::{Unwatched, Watcher};
use rpg_cycle::{Job, StartFault};
use rpg_cycle_safety::run_laws::runs_keep;
use rpg_cycle_safety::step_laws::first_values_hold;
use rpg_files::{Counted, RecordReader, RecordRoom};
use rpg_memory::first_values_fit;
use rpg_memory::memory::Memory;
use rpg_store::ListedStore;
use rpg_verify::Verified;
use std::alloc::Global;
use std::io::{Read, Write};

/// An accepted program has a run over any records of both files, on any date, from its first values, and each such run ends well. Does
/// nothing: it is called only for its contract.
fn runs_end_well()
    ensures exists { (p : Object) → HasRunOnAnyDay p }
    ensures each { (p : Object) → EachRunEndsWell p }
{
    first_values_hold();
    runs_keep();
}

/// Returns a job at its start, over the store that lists its values.
fn first_job<'a>(
    alloc: Global,
    program: &'a Verified,
    date: &[u8],
) -> Result<Job<'a, ListedStore>, StartFault>
    ensures start { IfOk result (λ j. Starts program.now date.now (first_fields program.now) j) }
    ensures date { IsErrOf result StartFault.BadDate → date_in date.now ≡ None }
{
    first_values_fit(program.program());
    let store = ListedStore::new(alloc, program.program())?;
    let memory = Memory::new(program.program(), store);
    Job::start_in(alloc, program, date, memory)
}

/// Runs an accepted program over the records of two readers, as `watch_program` does over those of a job.
fn run_through_files<R1: Read, R2: Read, W1: Write, W2: Write, W: Watcher>(
    alloc: Global,
    program: &Verified,
    date: &[u8],
    primary: &mut Counted<R1>,
    secondary: &mut Counted<R2>,
    writers: &mut Writers<W1, W2>,
    watcher: &mut W,
) -> Result<Report, RunFault>
    requires { CanCountFaults (both primary.old secondary.old) writers.old }
    ensures runs { RunsProgramOver R1.remaining R2.remaining W1.contents W2.contents program.now date.now primary secondary writers result }
    ensures watched { IfOk result (λ _. W.has_begun watcher.new) }
    ensures faults { NamesFault R1.remaining R2.remaining (both primary.old secondary.old) (both primary.new secondary.new) writers.old writers.new result }
{
    runs_end_well();
    let rows = program.program().rows();
    let mut job = first_job(alloc, program, date)?;
    let primary_room = RecordRoom::new(alloc, rows.record_length)?;
    let secondary_room = RecordRoom::new(alloc, rows.secondary_length)?;
    let mut records = RecordReader::new(primary, primary_room);
    let mut others = RecordReader::new(secondary, secondary_room);
    let report = run(
        &mut job,
        &mut records,
        &mut others,
        writers,
        program.bound(),
        watcher,
    );
    let _primary = records.into_reader();
    let _secondary = others.into_reader();
    report
}

/// Runs an accepted program over the records of both inputs, on a date of six digits, and sends its printed lines and disk records to the
/// writers. A watcher looks at the job between cycles and can't change the run. The date is checked first. Then each cycle reads the
/// records that it needs, from the primary file first. Output is buffered until a file has 32 KiB of it, or sent after each cycle if the
/// watcher looks at each. All buffered output is sent before a call of a reader, when memory runs out, and at the end, the printer's first.
/// Memory use doesn't grow with the number of records.
pub fn watch_program<R1: Read, R2: Read, W1: Write, W2: Write, W: Watcher>(
    alloc: Global,
    program: &Verified,
    date: &[u8],
    readers: &mut Readers<R1, R2>,
    writers: &mut Writers<W1, W2>,
    watcher: &mut W,
) -> Result<Report, RunFault>
    requires { CanCountFaults readers.old writers.old }
    ensures runs { RunsProgram R1.remaining R2.remaining W1.contents W2.contents program.now date.now readers writers result }
    ensures watched { IfOk result (λ _. W.has_begun watcher.new) }
    ensures faults { ReportsWhoseFault R1.remaining R2.remaining readers writers result }
{
    run_through_files(
        alloc,
        program,
        date,
        &mut readers.primary,
        &mut readers.secondary,
        writers,
        watcher,
    )
}

/// Runs an accepted program as `watch_program` does, without a watcher.
pub fn execute_program<R1: Read, R2: Read, W1: Write, W2: Write>(
    alloc: Global,
    program: &Verified,
    date: &[u8],
    readers: &mut Readers<R1, R2>,
    writers: &mut Writers<W1, W2>,
) -> Result<Report, RunFault>
    requires { CanCountFaults readers.old writers.old }
    ensures runs { RunsProgram R1.remaining R2.remaining W1.contents W2.contents program.now date.now readers writers result }
    ensures faults { ReportsWhoseFault R1.remaining R2.remaining readers writers result }
{
    let mut watcher = Unwatched;
    watch_program(alloc, program, date, readers, writers, &mut watcher)
}

/// Decodes and verifies an object program, then runs it as `execute_program` does. The date is checked next, before any input is read.
pub fn execute<R1: Read, R2: Read, W1: Write, W2: Write>(
    alloc: Global,
    object: &[u8],
    date: &[u8],
    readers: &mut Readers<R1, R2>,
    writers: &mut Writers<W1, W2>,
) -> Result<Report, RunFault>
    requires { CanCountFaults readers.old writers.old }
    ensures runs { RunsObject R1.remaining R2.remaining W1.contents W2.contents object.now date.now readers writers result }
    ensures faults { ReportsWhoseFault R1.remaining R2.remaining readers writers result }
{
    runs_end_well();
    let program = accepted_object(alloc, object)?;
    execute_program(alloc, &program, date, readers, writers)
}
