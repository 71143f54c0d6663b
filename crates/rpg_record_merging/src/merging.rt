//! Merges the lines of the secondary files of a deck.

ghost use Rattle.std.specs.Prelude.{◌≡◌, ◌^◌, ◌-◌, ◌<◌, OnOk};
ghost use Rattle.std.specs.Io.KnownBytes.{Appends};
ghost use Rattle.rpg_files.specs.Counting.{device_of, faults_of};
ghost use Rattle.rpg_record_merging.specs.Order.{line_of};

use crate::deck::Secondaries;
use crate::fault::{MOST_RECORDS, MergeStop, send_line};
use crate::head::Head;
use crate::input::LineInput;
use crate::order::next_file;
use rpg_files::Counted;
use std::alloc::{AllocError, Global};
use std::io::{Read, Write};

/// Returns the room for a record of each file.
fn heads_of(alloc: Global, deck: &Secondaries) -> Result<Vec<Head>, AllocError> {
    let mut heads = Vec::new(alloc);
    for _ in deck.files.iter() {
        heads.push(Head::new(alloc))?;
    }
    Ok(heads)
}

/// Reads the next record of the file at a place.
fn take_next<R: Read>(
    deck: &Secondaries,
    inputs: &mut [LineInput<R>],
    heads: &mut [Head],
    place: usize,
) -> Result<(), MergeStop> {
    let (Some(input), Some(file)) = (inputs.get_mut(place), deck.files.get(place)) else {
        return Ok(());
    };
    if let Some(head) = heads.get_mut(place) {
        head.read(input, place, file.length)?;
        head.note_value(file.types.as_slice())?;
    }
    Ok(())
}

/// Returns the letter in front of the records of a file.
fn letter(place: usize) -> u8 {
    b'A' + (place % 26) as u8
}

/// Writes the record that waits, with the letter of its file in front.
fn send_record<W: Write>(
    letter: u8,
    head: &Head,
    line: &mut Vec<u8>,
    writer: &mut Counted<W>,
) -> Result<(), MergeStop>
    requires { faults_of writer.old < 2 ^ 64 - 1 }
    ensures line { OnOk result (Appends (W.contents (device_of writer.old)) (W.contents (device_of writer.new)) (line_of letter head.now)) }
    ensures faults { OnOk result (faults_of writer.new ≡ faults_of writer.old) }
{
    line.clear();
    line.push(letter)?;
    line.extend_from_slice(head.text())?;
    line.push(b'\n')?;
    send_line(writer, line.as_slice())
}

/// Merges the lines of the secondary files, whose inputs are in the order of their cards. Returns how many there are.
///
/// Memory is taken for one record of each file, however many there are.
pub fn merge<R: Read, W: Write>(
    alloc: Global,
    deck: &Secondaries,
    inputs: &mut [LineInput<R>],
    writer: &mut Counted<W>,
) -> Result<u64, MergeStop>
    requires { faults_of writer.old < 2 ^ 64 - 1 }
{
    let mut heads = heads_of(alloc, deck)?;
    let mut line = Vec::new(alloc);
    for place in 0..heads.len() {
        take_next(deck, inputs, heads.as_mut_slice(), place)?;
    }
    for count in 0..=MOST_RECORDS {
        let Some(place) = next_file(deck.is_descending, heads.as_slice()) else {
            return Ok(count);
        };
        if let Some(head) = heads.get(place) {
            send_record(letter(place), head, &mut line, writer)?;
        }
        take_next(deck, inputs, heads.as_mut_slice(), place)?;
    }
    Err(MergeStop::TooMany)
}
