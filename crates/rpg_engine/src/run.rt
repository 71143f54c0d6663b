//! A whole run, cycle by cycle.

ghost use Rattle.std.specs.Prelude.{◌≡◌, IfErr, IfOk};
ghost use Rattle.rpg_verify.specs.Bound as words;
ghost use Rattle.rpg_engine.specs.Devices.{AreLentOn, CanCountFaults, ReportsWhoseFaultOf, readers_of};
ghost use Rattle.rpg_engine.specs.Streaming.{IsUnbegun, IsRunFault, ReportsFrom, StopsFrom};

use crate::cycle::next_cycle;
use crate::fault::RunFault;
use crate::files::Writers;
use crate::report::Report;
use crate::sending::{
    Sent, enough_for, fault_after, send_before_reading, send_where_enough, waiting_in,
};
use crate::watching::Watcher;
use rpg_cycle::Job;
use rpg_files::RecordReader;
use rpg_store::Store;
use std::io::{Read, Write};

/// Runs a job from its first cycle to the one that ends it. Sends its output when 32 KiB are buffered, before a device is read, and
/// at the end. A watcher that looks at each cycle does so before that cycle's output is sent, with no buffering.
pub(crate) fn run<S: Store + Drop, R1: Read, R2: Read, W1: Write, W2: Write, W: Watcher>(
    job: &mut Job<'_, S>,
    primary: &mut RecordReader<'_, R1>,
    secondary: &mut RecordReader<'_, R2>,
    writers: &mut Writers<W1, W2>,
    bound: u64,
    watcher: &mut W,
) -> Result<Report, RunFault>
    requires devices { CanCountFaults (readers_of primary.old secondary.old) writers.old }
    requires begins { IsUnbegun job.old primary.old secondary.old }
    requires bound { bound ≡ words.bound job.old.program }
    ensures same { AreLentOn primary secondary }
    ensures alone { job.old.program.secondary_length ≡ 0 → secondary.new ≡ secondary.old }
    ensures report { IfOk result (ReportsFrom R1.remaining R2.remaining W1.contents W2.contents job.old primary secondary writers) }
    ensures early { IfErr result (StopsFrom R1.remaining R2.remaining W1.contents W2.contents job.old primary secondary writers) }
    ensures only { IfErr result IsRunFault }
    ensures watched { IfOk result (λ _. W.has_begun watcher.new) }
    ensures faults { ReportsWhoseFaultOf R1.remaining R2.remaining primary secondary writers result }
{
    let enough = enough_for(watcher);
    watcher.begin(job);
    let mut cycles = 0u64;
    let mut most = 0u64;
    let mut sent = Sent { print: 0, disk: 0 };
    'cycles: loop {
        let need = job.needs();
        send_before_reading(job, need, primary, secondary, writers, &mut sent)?;
        let waiting = waiting_in(job.output());
        let ended = match next_cycle(job, need, primary, secondary) {
            Ok(ended) => ended,
            Err(fault) => {
                return Err(fault_after(fault, cycles, writers, job.output(), waiting, sent));
            }
        };
        cycles += 1;
        most = most.max(job.steps());
        send_where_enough(job, ended, enough, watcher, writers, &mut sent)?;
        if let Some(ending) = ended {
            return Ok(Report {
                ending,
                cycles,
                most,
                bound,
                place: job.running_place(),
            });
        }
    }
}
