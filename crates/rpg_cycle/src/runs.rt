//! Whole runs of a program over records.
ghost use Rattle.std.specs.Prelude.{◌≡◌, ◌↔◌, ◌≤◌, ◌+◌, None, IfErr, IfOk, IsErrOf, length};
ghost use Rattle.std.specs.Option.{option_map};
ghost use Rattle.rpg_cycle.specs.RunAnswers.{IsAtStart, RunsRecords, RunsToEnd, RunsWhole, records_in, texts};
ghost use Rattle.rpg_cycle.specs.Runs.{next_of, rest_where_needed};
ghost use Rattle.rpg_cycle.specs.Starting.{date_in};
ghost use Rattle.rpg_verify.specs.Bound.{bound};

use crate::ends::{JobEnd, Progress, StartFault};
use crate::jobs::Job;
use crate::seen::NOTHING_SEEN;
use rpg_machine::Output;
use rpg_store::{FlatStore, Store};
use rpg_verify::Verified;
use std::alloc::{AllocError, Global};

/// A run of a program over records.
#[derive(Drop)]
pub struct Run {
    pub ending: JobEnd,
    pub cycles: u64,
    /// The most steps that a cycle took.
    pub most: u64,
    pub output: Output,
}

/// How a run went, apart from its output.
#[derive(Clone, Copy)]
pub struct Summary {
    pub ending: JobEnd,
    pub cycles: u64,
    pub most: u64,
}

/// Runs a program over the records of its two files, on a date of six digits, until a cycle ends the job.
pub fn run_records(
    alloc: Global,
    program: &Verified,
    date: &[u8],
    primary: &[Vec<u8>],
    secondary: &[Vec<u8>],
) -> Result<Run, StartFault>
    ensures run { IfOk result (λ r. RunsWhole program.now date.now (records_in primary.now secondary.now) r) }
    ensures date { IsErrOf result StartFault.BadDate ↔ (date_in date.now ≡ None) }
    ensures cycles { IfOk result (λ r. r.cycles ≤ length primary.now + length secondary.now + 1) }
    ensures bound { IfOk result (λ r. r.most ≤ bound program.now) }
{
    let mut job = Job::<FlatStore>::start(alloc, program, date)?;
    run_to_end(&mut job, primary, secondary)
}

/// Runs a job from its first cycle over records to its end, and takes its output. Fails only if memory runs out.
fn run_to_end<S: Store + Drop>(
    job: &mut Job<S>,
    primary: &[Vec<u8>],
    secondary: &[Vec<u8>],
) -> Result<Run, StartFault>
    requires { IsAtStart job.old }
    ensures run { IfOk result (λ r. RunsToEnd job.old (records_in primary.now secondary.now) r) }
    ensures fault { IfErr result (λ e. e ≡ StartFault.NoMemory) }
{
    let summary = run_on(job, primary, secondary)?;
    Ok(Run {
        ending: summary.ending,
        cycles: summary.cycles,
        most: summary.most,
        output: job.take_output(),
    })
}

/// Splits records into the first one, if it is needed, and the rest.
fn split_needed(is_needed: bool, records: &[Vec<u8>]) -> (Option<&[u8]>, &[Vec<u8>])
    ensures next { option_map (λ t. t.now) result.0 ≡ next_of is_needed (texts records.now) }
    ensures rest { texts result.1.now ≡ rest_where_needed is_needed (texts records.now) }
{
    match records.split_first() {
        Some((first, rest)) if is_needed => (Some(first), rest),
        Some(_) | None => (None, records),
    }
}

/// Runs a job that continues over the remaining records to its end.
fn run_on<S: Store + Drop>(
    job: &mut Job<S>,
    primary: &[Vec<u8>],
    secondary: &[Vec<u8>],
) -> Result<Summary, AllocError>
    requires { IsAtStart job.old }
    ensures { IfOk result (λ s. RunsRecords job.old (records_in primary.now secondary.now) s job.new) }
{
    let mut cycles = 0u64;
    let mut most = 0u64;
    let mut primary = primary;
    let mut secondary = secondary;
    loop {
        let need = job.needs();
        let (first, others) = split_needed(need.primary, primary);
        let (second, rest) = split_needed(need.secondary, secondary);
        let progress = job.cycle_on(first, second, NOTHING_SEEN)?;
        primary = others;
        secondary = rest;
        cycles += 1;
        most = most.max(job.steps());
        match progress {
            Progress::Going => {}
            Progress::Ended(ending) => return Ok(Summary {
                ending,
                cycles,
                most,
            }),
            Progress::Failed => unreachable!(),
        }
    }
}
