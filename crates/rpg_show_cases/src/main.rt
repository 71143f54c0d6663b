//! Tests of what only calls of the library show: does each row of the named files, and prints its result.
//!
//! README.md describes what the rows show, and tests/lay_out.py writes them and what is expected of each.
#![tactic(auto)]

mod answers;
mod calls;
mod cycles;
mod devices;
mod files;
mod row;
mod spelling;
mod streams;
mod sweep;
mod tally;
mod ways;

use crate::row::{Row, bytes_of, row_of};
use rpg_cli_text::TextWriter;
use rpg_verify::Verified;
use std::alloc::{AllocError, Global};
use std::io::{self, Write};
use std::{env, fs};

/// Does the task of a row with an accepted program.
fn do_program(
    alloc: Global,
    out: &mut TextWriter,
    program: &Verified,
    row: &Row<'_>,
) -> Result<(), AllocError> {
    match row.task {
        "area" => ways::run_by_area(alloc, out, program, row),
        "list" => ways::run_by_list(alloc, out, program, row),
        "values" => ways::write_area(alloc, out, program),
        "cycles" => cycles::run_cycles(alloc, out, program, row),
        _ => {
            out.write_str("no such task");
            Ok(())
        }
    }
}

/// Does the task of a row with an object. Nothing is reported for a program that isn't accepted.
fn do_object(
    alloc: Global,
    out: &mut TextWriter,
    object: &[u8],
    row: &Row<'_>,
) -> Result<(), AllocError> {
    match row.task {
        "devices" => streams::run_row(alloc, out, object, row),
        "spell" => spelling::spell(alloc, out, object),
        "sweep" => sweep::sweep(alloc, out, object, row),
        "change" => sweep::spell_changed(alloc, out, object),
        _ => match ways::accepted(alloc, object) {
            Some(program) => do_program(alloc, out, &program, row),
            None => Ok(()),
        },
    }
}

/// Does the task of a row.
fn do_row(
    alloc: Global,
    out: &mut TextWriter,
    object: &[u8],
    row: &Row<'_>,
) -> Result<(), AllocError> {
    match row.task {
        "records" => files::read_records(alloc, out, row),
        "send" => files::send_all(alloc, out, row),
        _ => do_object(alloc, out, object, row),
    }
}

/// Returns the line of a row: its name and its report.
fn line_of(alloc: Global, object: &[u8], row: &Row<'_>) -> Result<String, AllocError> {
    let mut out = TextWriter::new(alloc);
    out.fill("{}: ", &[row.name.into()]);
    do_row(alloc, &mut out, object, row)?;
    out.write_str("\n");
    out.finish()
}

/// Does the rows of a file. An object stays loaded for the rows after it.
fn do_rows<W: Write>(alloc: Global, out: &mut W, text: &str) -> io::Result<()> {
    let mut object = Vec::new(alloc);
    for line in text.lines() {
        match line.strip_prefix("object\t") {
            Some(hex) => object = bytes_of(alloc, hex)?,
            None => out.write_all(line_of(alloc, &object, &row_of(line))?.as_bytes())?,
        }
    }
    Ok(())
}

fn main(rt: HostRuntime) -> io::Result<()> {
    let words: Vec<String> = env::args(&rt)?.collect(rt.alloc())?;
    let mut out = io::writer(&rt);
    for path in words.iter().skip(1) {
        let text = fs::read_to_string(&rt, path.as_str())?;
        do_rows(rt.alloc(), &mut out, text.as_str())?;
    }
    let mut reported = TextWriter::new(rt.alloc());
    calls::write_calls(&mut reported);
    out.write_all(reported.finish()?.as_bytes())
}
