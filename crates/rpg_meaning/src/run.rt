//! Runs a compiled source over its files.

ghost use Rattle.std.specs.Prelude.{IfOk};
ghost use Rattle.rpg_engine.specs.Devices.{CanCountFaults, ReportsWhoseFault};
ghost use Rattle.rpg_engine.specs.Running.{RunsProgram};
ghost use Rattle.rpg_meaning.specs.Sources.Running.{RunsSource};

use crate::source::CompiledSource;
use crate::source_laws::source_to_print;
use rpg_engine::{Readers, Report, RunFault, Watcher, Writers, watch_program};
use std::alloc::Global;
use std::io::{Read, Write};

/// Runs a compiled source over the records of both inputs, on a date of six digits, and sends its printed lines and disk records to the
/// writers. A watcher looks at the job between cycles and can't change the run.
///
/// The date is checked first. Then the program runs as described for `watch_program` of rpg_engine.
pub fn run_source<R1: Read, R2: Read, W1: Write, W2: Write, W: Watcher>(
    alloc: Global,
    source: &CompiledSource,
    date: &[u8],
    readers: &mut Readers<R1, R2>,
    writers: &mut Writers<W1, W2>,
    watcher: &mut W,
) -> Result<Report, RunFault>
    requires { CanCountFaults readers.old writers.old }
    ensures runs { RunsSource R1.remaining R2.remaining W1.contents W2.contents source.now date.now readers writers result }
    // As a run of its program it keeps the promises of `watch_program`: the report's bound and place, and how much was sent before it
    // stopped.
    ensures program { RunsProgram R1.remaining R2.remaining W1.contents W2.contents source.now.program date.now readers writers result }
    // The run is shown to this watcher.
    ensures watched { IfOk result (λ _. W.has_begun watcher.new) }
    ensures faults { ReportsWhoseFault R1.remaining R2.remaining readers writers result }
{
    source_to_print();
    watch_program(alloc, source.program(), date, readers, writers, watcher)
}
