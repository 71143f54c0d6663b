//! Converts all lines of an input to rows.

ghost use Rattle.std.specs.Prelude.{◌≡◌, ◌^◌, ◌-◌, ◌<◌, IfErr, OnOk};
ghost use Rattle.rpg_files.specs.Counting.{faults_of};
ghost use Rattle.rpg_csv_lines.specs.Stops.{IsCounted};

use crate::row::{RowRoom, RowWriter};
use crate::stop::{Stop, send_all};
use crate::texts::Setting;
use rpg_csv_columns::{Fault, Part, Plan, Sample, field_labels};
use rpg_csv_rows::{RowInput, RowInputFault};
use rpg_files::Counted;
use std::alloc::Global;
use std::io::{Read, Write};

/// The most lines of a file.
const MOST_LINES: u64 = 10_000_000;

/// The most bytes of a line that are read, to report the length of one that is too long.
const MOST_BYTES: usize = 65_536;

/// Writes the rows of all lines that follow. Returns how many.
#[tactic(auto, using(crate::proofs::StopLemmas::read_counted, crate::proofs::StopLemmas::write_counted, crate::proofs::StopLemmas::none_counted))]
fn convert_lines<R: Read, W: Write>(
    rows: &RowWriter,
    input: &mut RowInput,
    room: &mut RowRoom,
    reader: &mut Counted<R>,
    writer: &mut Counted<W>,
) -> Result<u64, Stop>
    requires read { faults_of reader.old < 2 ^ 64 - 1 }
    requires write { faults_of writer.old < 2 ^ 64 - 1 }
    ensures read { OnOk result (faults_of reader.new ≡ faults_of reader.old) }
    ensures write { OnOk result (faults_of writer.new ≡ faults_of writer.old) }
    ensures stop { IfErr result (IsCounted (faults_of reader.old) (faults_of reader.new) (faults_of writer.old) (faults_of writer.new)) }
{
    for count in 0..=MOST_LINES {
        match input.read_line(reader, MOST_BYTES, &mut room.read) {
            Ok(()) => {}
            Err(RowInputFault::Device) => return Err(Stop::Read),
            Err(RowInputFault::NoMemory) => return Err(Stop::NoMemory),
        }
        if room.read.is_empty() {
            return Ok(count);
        }
        let part = Part::Line(count + 1);
        if count == MOST_LINES {
            return Err(Stop::at(part, Fault::TooMany, Sample::new(b"")));
        }
        if let Err(fault) = rows.write_row(room) {
            return Err(Stop::at(part, fault, room.shown(fault)));
        }
        send_all(writer, room.row.as_slice())?;
    }
    Ok(MOST_LINES)
}

/// Writes a row for each line of a reader, after the names of the columns. Returns how many lines there are.
///
/// Memory use doesn't grow with the number of lines.
#[tactic(auto, using(crate::proofs::StopLemmas::write_counted, crate::proofs::StopLemmas::none_counted))]
pub fn lines_to_rows<R: Read, W: Write>(
    alloc: Global,
    setting: Setting<'_>,
    reader: &mut Counted<R>,
    writer: &mut Counted<W>,
) -> Result<u64, Stop>
    requires read { faults_of reader.old < 2 ^ 64 - 1 }
    requires write { faults_of writer.old < 2 ^ 64 - 1 }
    ensures read { OnOk result (faults_of reader.new ≡ faults_of reader.old) }
    ensures write { OnOk result (faults_of writer.new ≡ faults_of writer.old) }
    ensures stop { IfErr result (IsCounted (faults_of reader.old) (faults_of reader.new) (faults_of writer.old) (faults_of writer.new)) }
{
    let labels = field_labels(alloc, setting.fields)?;
    let plan = match Plan::new(alloc, setting.fields, labels) {
        Ok(plan) => plan,
        Err(fault) => return Err(Stop::at(Part::Header, fault, Sample::new(b""))),
    };
    let rows = RowWriter::new(plan, setting.format);
    let mut input = RowInput::new(alloc)?;
    let mut room = RowRoom::new(alloc);
    rows.write_names(&mut room.row)?;
    send_all(writer, room.row.as_slice())?;
    convert_lines(&rows, &mut input, &mut room, reader, writer)
}
