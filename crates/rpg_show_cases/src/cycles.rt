//! Jobs cycle by cycle, and after their end.

use crate::answers::{write_end, write_outputs};
use crate::row::{Row, bytes_of};
use rpg_cli_text::TextWriter;
use rpg_cycle::{CycleEnd, StartFault};
use rpg_engine::Job;
use rpg_store::Store;
use rpg_verify::Verified;
use std::alloc::{AllocError, Global};

/// Writes whether the job needs a record, for either file.
fn write_need<S: Store + Drop>(out: &mut TextWriter, job: &Job<'_, S>) {
    let need = job.needs();
    if need.primary {
        out.write_str(", wants a record");
    }
    if need.secondary {
        out.write_str(", wants a secondary record");
    }
}

/// Writes how a cycle ended, its steps unless the job had already ended, and how many bytes it
/// prints.
fn write_cycle<S: Store + Drop>(
    out: &mut TextWriter,
    job: &Job<'_, S>,
    end: CycleEnd,
    is_over: bool,
    printed: usize,
) {
    out.write_str("; ");
    write_end(out, end);
    if !is_over {
        out.fill(", steps {}", &[job.steps().into()]);
    }
    let more = job.output().print.len().saturating_sub(printed);
    if more > 0 {
        out.fill(", {} bytes", &[more.into()]);
    }
}

/// Returns the record of a turn; `-` is none.
fn record_of(alloc: Global, hex: &str) -> Result<Option<Vec<u8>>, AllocError> {
    if hex == "-" {
        return Ok(None);
    }
    Ok(Some(bytes_of(alloc, hex)?))
}

/// Does the cycles of a job, each with the records of its turn.
fn write_cycles<S: Store + Drop>(
    alloc: Global,
    out: &mut TextWriter,
    job: &mut Job<'_, S>,
    row: &Row<'_>,
) -> Result<(), AllocError> {
    let mut is_over = false;
    let mut printed = 0;
    out.write_str("starts");
    write_need(out, job);
    for (first, second) in row.input.split(',').zip(row.secondary.split(',')) {
        let first = record_of(alloc, first)?;
        let second = record_of(alloc, second)?;
        match job.cycle(first.as_deref(), second.as_deref()) {
            Ok(end) => {
                write_cycle(out, job, end, is_over, printed);
                is_over = !matches!(end, CycleEnd::Continues);
                printed = job.output().print.len();
            }
            Err(_) => out.write_str("; no memory"),
        }
        write_need(out, job);
    }
    let output = job.take_output();
    write_outputs(out, &output.print, &output.disk);
    Ok(())
}

/// Writes what a job does cycle by cycle, with the store in one area of bytes.
pub fn run_cycles(
    alloc: Global,
    out: &mut TextWriter,
    program: &Verified,
    row: &Row<'_>,
) -> Result<(), AllocError> {
    match Job::start(alloc, program, row.date.as_bytes()) {
        Err(StartFault::NoMemory) => out.write_str("no memory"),
        Err(StartFault::BadDate) => out.write_str("bad date"),
        Ok(mut job) => write_cycles(alloc, out, &mut job, row)?,
    }
    Ok(())
}
