//! A run's output on its way to the writers. It is buffered in the job, so that a writer is called once for many cycles.

ghost use Rattle.std.specs.Prelude.{◌≡◌, ◌-◌, ◌^◌, ◌<◌, ◌≤◌, ◌⊎◌, length, true, is_some, OnOk};
ghost use Rattle.rpg_machine.specs.Running.{no_bytes};
ghost use Rattle.rpg_files.specs.Counting.{faults_of};
ghost use Rattle.rpg_engine.specs.Outputs.{bytes_with};
ghost use Rattle.rpg_engine.specs.Sending.{CanSend, SendsTo, SendsToFile, SendsWaitingTo, StopsWithTo, state_of, waiting_bytes};
ghost use Rattle.rpg_engine.specs.Streaming.{CannotFailIfNeeded};

use crate::fault::{CycleFault, RunFault};
use crate::files::{OutputFile, Writers};
use crate::watching::Watcher;
use rpg_cycle::{Job, JobEnd, Need, Output};
use rpg_files::{Counted, RecordReader, send};
use rpg_store::Store;
use std::io::{Read, Write};

/// How many bytes of a file are buffered before they are sent, if no watcher looks at each cycle.
const ENOUGH: usize = 32_768;

/// How many bytes of a file are buffered before the watcher looks at the job and they are sent. Computed once, so that a run without a
/// watcher pays nothing for it.
pub(crate) fn enough_for<W: Watcher>(watcher: &W) -> usize {
    if watcher.looks() { 0 } else { ENOUGH }
}

/// How many bytes were written to each writer.
#[derive(Clone, Copy)]
pub(crate) struct Sent {
    pub print: u128,
    pub disk: u128,
}

/// How many bytes of each file are buffered.
#[derive(Clone, Copy)]
pub(crate) struct Waiting {
    pub print: usize,
    pub disk: usize,
}

/// Returns how many bytes of each file an output buffers.
#[inline(always)]
pub(crate) fn waiting_in(output: &Output) -> Waiting
    ensures print { result.print ≡ length output.now.print.items }
    ensures disk { result.disk ≡ length output.now.disk.items }
{
    Waiting {
        print: output.print.len(),
        disk: output.disk.len(),
    }
}

/// Sends bytes to a file and counts them.
fn send_to<W: Write>(
    file: OutputFile,
    writer: &mut Counted<W>,
    bytes: &[u8],
    sent: &mut u128,
) -> Result<(), RunFault>
    requires faults { faults_of writer.old < 2 ^ 64 - 1 }
    requires few { sent.old ≤ 2 ^ 100 }
    ensures { SendsToFile result file (state_of W.contents writer.old sent.old) (state_of W.contents writer.new sent.new) bytes.now }
{
    if let Err(fault) = send(writer, bytes) {
        let sent = *sent + fault.sent as u128;
        return Err(RunFault::Write { file, sent });
    }
    *sent += bytes.len() as u128;
    Ok(())
}

/// Sends bytes to the printer, then bytes to the disk file.
fn send_both<W1: Write, W2: Write>(
    writers: &mut Writers<W1, W2>,
    lines: &[u8],
    records: &[u8],
    sent: &mut Sent,
) -> Result<(), RunFault>
    requires ready { CanSend writers.old sent.old }
    ensures { SendsTo W1.contents W2.contents result writers sent (bytes_with lines.now records.now) }
{
    let Writers { printer, disk } = writers;
    send_to(OutputFile::Print, printer, lines, &mut sent.print)?;
    send_to(OutputFile::Disk, disk, records, &mut sent.disk)
}

/// Sends all of a job's buffered output.
#[inline(never)]
fn send_waiting<S: Store + Drop, W1: Write, W2: Write>(
    job: &mut Job<'_, S>,
    writers: &mut Writers<W1, W2>,
    sent: &mut Sent,
) -> Result<(), RunFault>
    requires ready { CanSend writers.old sent.old }
    ensures sends { SendsWaitingTo W1.contents W2.contents result job.old job.new writers sent }
    ensures all { OnOk result (job.new.output ≡ no_bytes) }
{
    let output = job.output();
    send_both(writers, &output.print, &output.disk, sent)?;
    job.clear_output();
    Ok(())
}

/// Whether reading a file can't fail in the next cycle: no record of it is needed, or its reader's buffer suffices.
#[inline(always)]
fn cannot_fail<R: Read>(records: &RecordReader<'_, R>, is_needed: bool) -> bool
    ensures { result ≡ true → CannotFailIfNeeded is_needed records.now }
{
    !is_needed || records.cannot_fail()
}

/// Sends the buffered output if a reader may fail in the next cycle. So all earlier output is sent before that fault is reported, and no
/// other device can fail after it.
#[inline(always)]
pub(crate) fn send_before_reading<S: Store + Drop, R1: Read, R2: Read, W1: Write, W2: Write>(
    job: &mut Job<'_, S>,
    need: Need,
    primary: &RecordReader<'_, R1>,
    secondary: &RecordReader<'_, R2>,
    writers: &mut Writers<W1, W2>,
    sent: &mut Sent,
) -> Result<(), RunFault>
    requires ready { CanSend writers.old sent.old }
    ensures sends { SendsWaitingTo W1.contents W2.contents result job.old job.new writers sent }
    ensures ready { OnOk result ((job.new.output ≡ no_bytes) ⊎ (CannotFailIfNeeded need.primary primary.now × CannotFailIfNeeded need.secondary secondary.now)) }
{
    if cannot_fail(primary, need.primary) && cannot_fail(secondary, need.secondary) {
        return Ok(());
    }
    send_waiting(job, writers, sent)
}

/// Shows the job to the watcher after a cycle, then sends all buffered output.
#[inline(never)]
fn look_and_send<S: Store + Drop, W1: Write, W2: Write, W: Watcher>(
    job: &mut Job<'_, S>,
    ended: Option<JobEnd>,
    watcher: &mut W,
    writers: &mut Writers<W1, W2>,
    sent: &mut Sent,
) -> Result<(), RunFault>
    requires ready { CanSend writers.old sent.old }
    requires watching { W.has_begun watcher.old }
    ensures watching { W.has_begun watcher.new }
    ensures sends { SendsWaitingTo W1.contents W2.contents result job.old job.new writers sent }
    ensures all { OnOk result (job.new.output ≡ no_bytes) }
{
    watcher.look(job, ended);
    send_waiting(job, writers, sent)
}

/// Shows the job to the watcher and sends the buffered output, if there is enough of it or the cycle was the last.
#[inline(always)]
pub(crate) fn send_where_enough<S: Store + Drop, W1: Write, W2: Write, W: Watcher>(
    job: &mut Job<'_, S>,
    ended: Option<JobEnd>,
    enough: usize,
    watcher: &mut W,
    writers: &mut Writers<W1, W2>,
    sent: &mut Sent,
) -> Result<(), RunFault>
    requires ready { CanSend writers.old sent.old }
    requires watching { W.has_begun watcher.old }
    ensures watching { W.has_begun watcher.new }
    ensures sends { SendsWaitingTo W1.contents W2.contents result job.old job.new writers sent }
    ensures all { is_some ended ≡ true → OnOk result (job.new.output ≡ no_bytes) }
{
    let waiting = waiting_in(job.output());
    if ended.is_none() && waiting.print < enough && waiting.disk < enough {
        return Ok(());
    }
    look_and_send(job, ended, watcher, writers, sent)
}

/// Returns the fault to report after `cycles` complete cycles. If memory ran out, what was buffered before that cycle is still sent, and a
/// writer that fails then is reported instead. If a reader failed, nothing was buffered.
#[inline(never)]
pub(crate) fn fault_after<W1: Write, W2: Write>(
    fault: CycleFault,
    cycles: u64,
    writers: &mut Writers<W1, W2>,
    output: &Output,
    waiting: Waiting,
    mut sent: Sent,
) -> RunFault
    requires ready { CanSend writers.old sent }
    requires lines { waiting.print ≤ length output.now.print.items }
    requires records { waiting.disk ≤ length output.now.disk.items }
    ensures { StopsWithTo W1.contents W2.contents fault cycles writers sent
        (waiting_bytes waiting output.now.print.items output.now.disk.items) result }
{
    match fault {
        CycleFault::Read { file, fault } => RunFault::Read { file, fault },
        CycleFault::NoMemory => {
            let (lines, records) = (&output.print[..waiting.print], &output.disk[..waiting.disk]);
            match send_both(writers, lines, records, &mut sent) {
                Ok(()) => RunFault::NoMemory { cycles },
                Err(fault) => fault,
            }
        }
    }
}
