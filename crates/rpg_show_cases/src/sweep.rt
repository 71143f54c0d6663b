//! Objects that are cut to each length, and have each byte changed to each other value: run, or decoded and encoded
//! again.

use crate::answers::write_answer;
use crate::devices::ALL_WHOLE;
use crate::row::Row;
use crate::spelling::spell;
use crate::streams::{Given, run_over};
use crate::tally::Tally;
use rpg_cli_text::TextWriter;
use std::alloc::{AllocError, Global};

/// What is done with a damaged object.
#[derive(Clone, Copy)]
enum Trial<'a> {
    Run(&'a Given<'a>),
    Spell,
}

/// Runs an object, and adds its output to the tally.
fn run(
    alloc: Global,
    tally: &mut Tally,
    object: &[u8],
    given: &Given<'_>,
) -> Result<(), AllocError> {
    let streamed = run_over(alloc, object, given, &ALL_WHOLE);
    let mut line = TextWriter::new(alloc);
    write_answer(&mut line, &streamed.reported);
    let line = line.finish()?;
    tally.add_bytes(line.as_bytes());
    tally.add_bytes(&streamed.print.written);
    tally.add_bytes(&streamed.disk.written);
    tally.count(if streamed.is_past_bound() {
        "past the bound"
    } else {
        line.as_str()
    });
    Ok(())
}

/// Decodes an object and encodes it again.
fn spell_one(alloc: Global, tally: &mut Tally, object: &[u8]) -> Result<(), AllocError> {
    let mut line = TextWriter::new(alloc);
    spell(alloc, &mut line, object)?;
    tally.count(line.finish()?.as_str());
    Ok(())
}

/// Replaces a byte by each other value.
fn change(
    alloc: Global,
    tally: &mut Tally,
    object: &mut [u8],
    place: usize,
    trial: Trial<'_>,
) -> Result<(), AllocError> {
    let kept = object.get(place).copied().unwrap_or(0);
    for value in 0..=255 {
        if value != kept {
            put(object, place, value);
            match trial {
                Trial::Run(given) => run(alloc, tally, object, given)?,
                Trial::Spell => spell_one(alloc, tally, object)?,
            }
        }
    }
    put(object, place, kept);
    Ok(())
}

/// Stores a byte at a place, if it exists.
fn put(bytes: &mut [u8], place: usize, value: u8) {
    if let Some(there) = bytes.get_mut(place) {
        *there = value;
    }
}

/// Replaces each byte by each other value.
fn change_all(
    alloc: Global,
    tally: &mut Tally,
    object: &[u8],
    trial: Trial<'_>,
) -> Result<(), AllocError> {
    let mut damaged = Vec::from_slice(alloc, object)?;
    for place in 0..object.len() {
        change(alloc, tally, &mut damaged, place, trial)?;
    }
    Ok(())
}

/// Runs an object, cut and changed in each place, over the row's inputs.
pub fn sweep(
    alloc: Global,
    out: &mut TextWriter,
    object: &[u8],
    row: &Row<'_>,
) -> Result<(), AllocError> {
    let given = Given::of(alloc, row)?;
    let mut tally = Tally::new();
    for length in 0..object.len() {
        run(alloc, &mut tally, &object[..length], &given)?;
    }
    change_all(alloc, &mut tally, object, Trial::Run(&given))?;
    tally.write(out);
    Ok(())
}

/// Decodes and encodes an object that is changed in each place.
pub fn spell_changed(alloc: Global, out: &mut TextWriter, object: &[u8]) -> Result<(), AllocError> {
    let mut tally = Tally::new();
    change_all(alloc, &mut tally, object, Trial::Spell)?;
    out.write_str(if tally.is_spelled_again() {
        "refused or spelled again with each byte"
    } else {
        "spelled otherwise with some byte"
    });
    Ok(())
}
