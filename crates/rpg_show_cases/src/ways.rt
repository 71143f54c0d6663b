//! Other ways than `rpg2` to run an accepted program: over lists of records, with the store in one area of bytes and with the store
//! that keeps each value apart.

use crate::answers::{write_bytes, write_counts, write_end, write_ending, write_outputs};
use crate::row::{Row, records_of};
use rpg_cli_text::TextWriter;
use rpg_cycle::{CycleEnd, run_records};
use rpg_engine::Job;
use rpg_memory::first_values_fit;
use rpg_memory::memory::Memory;
use rpg_object::decode;
use rpg_store::{FlatStore, ListedStore, Store};
use rpg_verify::{Verified, verify};
use std::alloc::{AllocError, Global};

/// Decodes the program in the bytes, and returns it if it obeys all rules.
pub fn accepted(alloc: Global, object: &[u8]) -> Option<Verified> {
    let program = decode(alloc, object).ok()?;
    verify(alloc, program).ok()
}

/// The records of both inputs.
#[derive(Drop)]
struct Inputs {
    primary: Vec<Vec<u8>>,
    secondary: Vec<Vec<u8>>,
}

impl Inputs {
    fn of(alloc: Global, row: &Row<'_>) -> Result<Inputs, AllocError> {
        Ok(Inputs {
            primary: records_of(alloc, row.input)?,
            secondary: records_of(alloc, row.secondary)?,
        })
    }
}

/// Runs a program over lists of records.
pub fn run_by_area(
    alloc: Global,
    out: &mut TextWriter,
    program: &Verified,
    row: &Row<'_>,
) -> Result<(), AllocError> {
    let inputs = Inputs::of(alloc, row)?;
    let date = row.date.as_bytes();
    match run_records(alloc, program, date, &inputs.primary, &inputs.secondary) {
        Ok(run) => {
            write_ending(out, run.ending);
            write_counts(out, run.cycles, run.most, program.bound());
            write_outputs(out, &run.output.print, &run.output.disk);
        }
        Err(_) => out.write_str("it doesn't start"),
    }
    Ok(())
}

/// Runs a program with the store that keeps each value apart.
pub fn run_by_list(
    alloc: Global,
    out: &mut TextWriter,
    program: &Verified,
    row: &Row<'_>,
) -> Result<(), AllocError> {
    first_values_fit(program.program());
    let store = ListedStore::new(alloc, program.program())?;
    let memory = Memory::new(program.program(), store);
    match Job::start_in(alloc, program, row.date.as_bytes(), memory) {
        Ok(mut job) => run_out(alloc, out, program.bound(), &mut job, row),
        Err(_) => {
            out.write_str("it doesn't start");
            Ok(())
        }
    }
}

/// Returns the record of a turn, or None after the last.
fn record_at(records: &[Vec<u8>], turn: usize) -> Option<&[u8]> {
    match records.get(turn) {
        None => None,
        Some(record) => Some(record.as_slice()),
    }
}

/// Does the cycles of a job, up to the one that ends it.
fn run_out<S: Store + Drop>(
    alloc: Global,
    out: &mut TextWriter,
    bound: u64,
    job: &mut Job<'_, S>,
    row: &Row<'_>,
) -> Result<(), AllocError> {
    let inputs = Inputs::of(alloc, row)?;
    let mut most = 0;
    let mut primary = 0usize;
    let mut secondary = 0usize;
    for cycles in 1..=u64::MAX {
        let need = job.needs();
        let first = record_at(&inputs.primary, primary);
        let second = record_at(&inputs.secondary, secondary);
        let end = job.cycle(first, second)?;
        most = job.steps().max(most);
        primary = primary.saturating_add(usize::from(need.primary));
        secondary = secondary.saturating_add(usize::from(need.secondary));
        if !matches!(end, CycleEnd::Continues) {
            write_end(out, end);
            write_counts(out, cycles, most, bound);
            break;
        }
    }
    let output = job.take_output();
    write_outputs(out, &output.print, &output.disk);
    Ok(())
}

/// Writes the bytes of all values in one area.
pub fn write_area(
    alloc: Global,
    out: &mut TextWriter,
    program: &Verified,
) -> Result<(), AllocError> {
    let store = FlatStore::new(alloc, program.program())?;
    write_bytes(out, store.bytes());
    Ok(())
}
