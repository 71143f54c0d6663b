//! Single calls of rpg_files: the records of a reader, and the bytes that a writer accepts.

ghost use Rattle.std.specs.Prelude.{◌≡◌, ◌+◌, ◌-◌, ◌^◌, ◌<◌, ◌≤◌};
ghost use Rattle.rpg_files.specs.Counting.{faults_of};
ghost use Rattle.rpg_files.specs.Reading.{reader_of};

use crate::answers::write_bytes;
use crate::devices::{CaseReader, CaseWriter, device_of};
use crate::row::{Row, bytes_of};
use rpg_cli_text::TextWriter;
use rpg_files::{Counted, Next, ReadFault, RecordReader, RecordRoom, send};
use std::alloc::{AllocError, Global};
use std::io::Read;

fn word_of(answer: Result<Next, ReadFault>) -> &'static str {
    match answer {
        Ok(Next::Record) => "record",
        Ok(Next::Bad) => "bad",
        Ok(Next::End) => "end",
        Err(ReadFault::Device) => "device",
        Err(ReadFault::TooMany) => "too many",
    }
}

/// Returns the next result, after this many calls.
fn next_of<R: Read>(reader: &mut RecordReader<'_, R>, calls: u64) -> Result<Next, ReadFault>
    requires few { calls < 2 ^ 32 }
    requires faults { faults_of (reader_of reader.old) ≤ calls }
    ensures { faults_of (reader_of reader.new) ≤ calls + 1 }
{
    reader.next()
}

/// Writes each record, if they are shown, followed by a bar; then the number of records, and twice the result after them.
fn write_records<R: Read>(out: &mut TextWriter, reader: &mut RecordReader<'_, R>, are_shown: bool)
    requires { faults_of (reader_of reader.old) ≡ 0 }
{
    for i in 0..20_000_000u64 {
        let answer = next_of(reader, i);
        if let Ok(Next::Record) = answer {
            if are_shown {
                write_bytes(out, reader.record());
                out.write_str("|");
            }
            continue;
        }
        let again = next_of(reader, i + 1);
        out.fill(
            "{} {} {}",
            &[i.into(), word_of(answer).into(), word_of(again).into()],
        );
        return;
    }
}

/// Reads the records of the row's input. If the input is repeated many times, they aren't shown.
pub fn read_records(alloc: Global, out: &mut TextWriter, row: &Row<'_>) -> Result<(), AllocError> {
    let times = row.secondary.parse().unwrap_or(1);
    let input = bytes_of(alloc, row.input)?.repeat(alloc, times)?;
    let room = RecordRoom::new(alloc, row.date.parse().unwrap_or(3))?;
    let mut device = Counted::new(CaseReader::new(device_of(row.devices), &input));
    let mut reader = RecordReader::new(&mut device, room);
    write_records(out, &mut reader, times == 1);
    let faults = reader.into_reader().faults();
    out.fill(", {} faults", &[faults.into()]);
    Ok(())
}

/// Sends the row's input to a writer.
pub fn send_all(alloc: Global, out: &mut TextWriter, row: &Row<'_>) -> Result<(), AllocError> {
    let bytes = bytes_of(alloc, row.input)?;
    let mut writer = Counted::new(CaseWriter::new(alloc, device_of(row.devices)));
    let sent = match send(&mut writer, &bytes) {
        Ok(()) => bytes.len(),
        Err(fault) => fault.sent,
    };
    let faults = writer.faults();
    out.fill("{} bytes, {} faults: ", &[sent.into(), faults.into()]);
    write_bytes(out, &writer.into_device().written);
    Ok(())
}
