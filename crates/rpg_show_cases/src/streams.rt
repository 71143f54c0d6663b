//! Runs over readers and writers.

use crate::answers::{write_answer, write_outputs};
use crate::devices::{CaseReader, CaseWriter, Devices, devices_of};
use crate::row::{Row, bytes_of};
use rpg_cli_text::TextWriter;
use rpg_engine::{Readers, Report, RunFault, Writers, execute};
use std::alloc::{AllocError, Global};

/// What an object program runs on: the date, and the bytes of its inputs.
#[derive(Drop)]
pub struct Given<'a> {
    date: &'a [u8],
    input: Vec<u8>,
    secondary: Vec<u8>,
}

impl<'a> Given<'a> {
    pub fn of(alloc: Global, row: &Row<'a>) -> Result<Given<'a>, AllocError> {
        Ok(Given {
            date: row.date.as_bytes(),
            input: bytes_of(alloc, row.input)?,
            secondary: bytes_of(alloc, row.secondary)?,
        })
    }
}

/// The result of `execute`, and what its writers accepted.
#[derive(Drop)]
pub struct Streamed {
    pub reported: Result<Report, RunFault>,
    pub print: CaseWriter,
    pub disk: CaseWriter,
}

impl Streamed {
    /// Whether a cycle of the job took more steps than its bound.
    pub fn is_past_bound(&self) -> bool {
        match &self.reported {
            Ok(report) => report.most > report.bound,
            Err(_) => false,
        }
    }
}

/// Runs an object over devices.
pub fn run_over(alloc: Global, object: &[u8], given: &Given<'_>, devices: &Devices) -> Streamed {
    let [input, secondary, print, disk] = *devices;
    let mut readers = Readers::new(
        CaseReader::new(input, &given.input),
        CaseReader::new(secondary, &given.secondary),
    );
    let mut writers = Writers::new(CaseWriter::new(alloc, print), CaseWriter::new(alloc, disk));
    let reported = execute(alloc, object, given.date, &mut readers, &mut writers);
    Streamed {
        reported,
        print: writers.printer.into_device(),
        disk: writers.disk.into_device(),
    }
}

/// Runs an object over the devices of a row.
pub fn run_row(
    alloc: Global,
    out: &mut TextWriter,
    object: &[u8],
    row: &Row<'_>,
) -> Result<(), AllocError> {
    let given = Given::of(alloc, row)?;
    let streamed = run_over(alloc, object, &given, &devices_of(row.devices));
    write_answer(out, &streamed.reported);
    write_outputs(out, &streamed.print.written, &streamed.disk.written);
    Ok(())
}
