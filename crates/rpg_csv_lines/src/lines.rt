//! Converts all rows of an input to lines.

ghost use Rattle.std.specs.Prelude.{◌≡◌, ◌^◌, ◌-◌, ◌<◌, IfErr, OnOk};
ghost use Rattle.rpg_files.specs.Counting.{faults_of};
ghost use Rattle.rpg_csv_lines.specs.Stops.{IsCounted};

use crate::input::Rows;
use crate::line::{Line, RowMaker, RowTexts};
use crate::stop::{Stop, send_all};
use crate::texts::{Header, Setting, Texts};
use rpg_csv_columns::{
    Fault, Label, Labels, Part, Plan, Sample, TextFault, field_labels, given_labels,
};
use rpg_files::Counted;
use std::alloc::Global;
use std::io::{Read, Write};

/// The most rows of a file.
const MOST_ROWS: u64 = 10_000_000;

impl Header<'_> {
    /// Whether the first row isn't a record.
    fn takes_row(&self) -> bool {
        match self {
            Header::FirstRow => true,
            Header::Fields => false,
            Header::Given { passes_row, .. } => *passes_row,
        }
    }
}

/// Returns the fault of the first row.
fn header_stop(fault: Fault) -> Stop
    ensures { IsCounted 0 0 0 0 result }
{
    Stop::at(Part::Header, fault, Sample::new(b""))
}

/// Reads the contents of the first row's cells.
#[tactic(auto, using(crate::proofs::StopLemmas::none_counted))]
fn read_header<R: Read>(
    rows: &mut Rows,
    reader: &mut Counted<R>,
    setting: Setting<'_>,
    texts: &mut Texts,
) -> Result<(), Stop>
    requires { faults_of reader.old < 2 ^ 64 - 1 }
    ensures ok { OnOk result (faults_of reader.new ≡ faults_of reader.old) }
    ensures stop { IfErr result (IsCounted (faults_of reader.old) (faults_of reader.new) 0 0) }
{
    let row = match texts.take_row(setting.format, None, rows) {
        Ok(row) => row,
        Err(fault) => return Err(header_stop(fault)),
    };
    if row.is_empty() {
        let fault = if rows.is_last(reader)? {
            Fault::NoRow
        } else {
            Fault::EmptyRow
        };
        return Err(header_stop(fault));
    }
    Ok(())
}

/// Returns the columns that the first row or the arguments name.
fn labels_of(
    alloc: Global,
    setting: Setting<'_>,
    texts: &Texts,
    shown: &mut Sample,
) -> Result<Labels, Fault> {
    let fields = setting.fields;
    match setting.header {
        Header::Fields => Ok(field_labels(alloc, fields)?),
        Header::FirstRow => {
            let mut labels = Labels::new(alloc);
            for column in 0..texts.len() {
                labels.add(fields, texts.text(&[], column), Label::Unnamed, shown)?;
            }
            Ok(labels)
        }
        Header::Given { names, passes_row } => {
            let (columns, named) = (texts.len(), names.split(',').count());
            if passes_row && columns != named {
                return Err(Fault::Named { columns, named });
            }
            given_labels(alloc, fields, names, shown)
        }
    }
}

/// Returns the plan of the rows.
fn plan_of(alloc: Global, setting: Setting<'_>, texts: &Texts) -> Result<Plan, Stop>
    ensures { IfErr result (IsCounted 0 0 0 0) }
{
    let mut shown = Sample::new(b"");
    let labels = match labels_of(alloc, setting, texts, &mut shown) {
        Ok(labels) => labels,
        Err(fault) => return Err(Stop::at(Part::Header, fault, shown)),
    };
    match Plan::new(alloc, setting.fields, labels) {
        Ok(plan) => Ok(plan),
        Err(fault) => Err(header_stop(fault)),
    }
}

/// The memory for a row: the texts of its cells, and its line.
#[derive(Drop)]
struct Room {
    texts: Texts,
    line: Line,
    out: Vec<u8>,
}

/// Makes the line of the row, which isn't empty.
fn make_line(maker: RowMaker<'_>, rows: &Rows, room: &mut Room) -> Result<(), Fault> {
    let row = room
        .texts
        .take_row(maker.format, Some(&maker.plan.labels), rows)?;
    let texts = RowTexts {
        row,
        texts: &room.texts,
    };
    maker.write_line(texts, &mut room.line, &mut room.out)
}

impl Room {
    /// Returns the text that the fault of a row is about.
    fn shown(&self, fault: Fault) -> Sample {
        match fault {
            Fault::Cell {
                fault: TextFault::Columns(_) | TextFault::OtherType { .. },
                ..
            } => self.line.shown,
            _ => self.texts.shown,
        }
    }
}

/// Writes the lines of all rows that follow, and of the one that was read, if there is one. Returns how many.
#[tactic(auto, using(crate::proofs::StopLemmas::read_counted, crate::proofs::StopLemmas::write_counted, crate::proofs::StopLemmas::none_counted))]
fn convert_rows<R: Read, W: Write>(
    maker: RowMaker<'_>,
    rows: &mut Rows,
    is_read: bool,
    room: &mut Room,
    reader: &mut Counted<R>,
    writer: &mut Counted<W>,
) -> Result<u64, Stop>
    requires read { faults_of reader.old < 2 ^ 64 - 1 }
    requires write { faults_of writer.old < 2 ^ 64 - 1 }
    ensures read { OnOk result (faults_of reader.new ≡ faults_of reader.old) }
    ensures write { OnOk result (faults_of writer.new ≡ faults_of writer.old) }
    ensures stop { IfErr result (IsCounted (faults_of reader.old) (faults_of reader.new) (faults_of writer.old) (faults_of writer.new)) }
{
    let can_end = maker.plan.labels.as_slice().len() != 1;
    let mut is_there = is_read;
    for count in 0..MOST_ROWS {
        if !is_there {
            return Ok(count);
        }
        let part = rows.part(count + 1);
        if rows.text().is_empty() {
            if can_end && rows.is_last(reader)? {
                return Ok(count);
            }
            return Err(Stop::at(part, Fault::EmptyRow, Sample::new(b"")));
        }
        if let Err(fault) = make_line(maker, rows, room) {
            return Err(Stop::at(part, fault, room.shown(fault)));
        }
        send_all(writer, room.out.as_slice())?;
        is_there = rows.read(reader)?;
    }
    if is_there {
        let part = rows.part(MOST_ROWS + 1);
        return Err(Stop::at(part, Fault::TooMany, Sample::new(b"")));
    }
    Ok(MOST_ROWS)
}

/// Reads the header, if there is one, and the row after it. Returns the plan, and whether there is such a row.
#[tactic(auto, using(crate::proofs::StopLemmas::none_counted))]
fn begin<R: Read>(
    alloc: Global,
    rows: &mut Rows,
    reader: &mut Counted<R>,
    setting: Setting<'_>,
    texts: &mut Texts,
) -> Result<(Plan, bool), Stop>
    requires { faults_of reader.old < 2 ^ 64 - 1 }
    ensures ok { OnOk result (faults_of reader.new ≡ faults_of reader.old) }
    ensures stop { IfErr result (IsCounted (faults_of reader.old) (faults_of reader.new) 0 0) }
{
    let _is_there = rows.read(reader)?;
    let is_there = match rows.begin() {
        Ok(is_there) => is_there,
        Err(fault) => return Err(header_stop(fault)),
    };
    let takes_row = setting.header.takes_row();
    if takes_row {
        if !is_there {
            return Err(header_stop(Fault::NoRow));
        }
        read_header(rows, reader, setting, texts)?;
    }
    let plan = plan_of(alloc, setting, texts)?;
    if takes_row {
        return Ok((plan, rows.read(reader)?));
    }
    Ok((plan, is_there))
}

/// Writes a line for each row of a reader. Returns how many rows there are, without the header.
///
/// Memory use doesn't grow with the number of rows: it holds one row, its line and a piece of the input.
#[tactic(auto, using(crate::proofs::StopLemmas::read_counted))]
pub fn rows_to_lines<R: Read, W: Write>(
    alloc: Global,
    setting: Setting<'_>,
    reader: &mut Counted<R>,
    writer: &mut Counted<W>,
) -> Result<u64, Stop>
    requires read { faults_of reader.old < 2 ^ 64 - 1 }
    requires write { faults_of writer.old < 2 ^ 64 - 1 }
    ensures read { OnOk result (faults_of reader.new ≡ faults_of reader.old) }
    ensures write { OnOk result (faults_of writer.new ≡ faults_of writer.old) }
    ensures stop { IfErr result (IsCounted (faults_of reader.old) (faults_of reader.new) (faults_of writer.old) (faults_of writer.new)) }
{
    let mut rows = Rows::new(alloc, setting.format.delimiter)?;
    let mut texts = Texts::new(alloc);
    let (plan, is_there) = begin(alloc, &mut rows, reader, setting, &mut texts)?;
    let maker = RowMaker {
        plan: &plan,
        format: setting.format,
    };
    let mut room = Room {
        texts,
        line: Line::new(alloc, plan.width)?,
        out: Vec::new(alloc),
    };
    convert_rows(maker, &mut rows, is_there, &mut room, reader, writer)
}
