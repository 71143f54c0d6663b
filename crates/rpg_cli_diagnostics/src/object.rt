//! A diagnostic as a JSON object: docs/diagnostics.schema.json describes it.

use crate::value::{At, Columns, Diagnostic, Level, Line, Made, Place};
use json::Writer;
use rpg_cli_text::{TextWriter, Topic};
use rpg_text::trimmed;
use std::alloc::{AllocError, Global};

fn write_member(out: &mut Writer, name: &str, text: &str) -> Made<()> {
    out.key(name)?;
    out.string(text)
}

fn write_number(out: &mut Writer, name: &str, number: u64) -> Made<()> {
    out.key(name)?;
    out.u64(number)
}

/// Writes the first column and the one after the last, under these names.
fn write_columns(out: &mut Writer, first: &str, last: &str, columns: Columns) -> Made<()> {
    write_number(out, first, columns.first as u64)?;
    write_number(out, last, (columns.last as u64).saturating_add(1))
}

fn write_marked(alloc: Global, out: &mut Writer, line: Line, columns: Columns) -> Made<()> {
    let mut shown = TextWriter::new(alloc);
    shown.write_shown(trimmed(line.bytes));
    let shown = shown.finish()?;
    out.key("text")?;
    out.begin_array()?;
    out.begin_object()?;
    write_member(out, "text", shown.as_str())?;
    write_columns(out, "highlight_start", "highlight_end", columns)?;
    out.end_object()?;
    out.end_array()
}

fn write_line(alloc: Global, out: &mut Writer, line: Line<'_>) -> Made<()> {
    write_number(out, "line_start", line.number)?;
    write_number(out, "line_end", line.number)?;
    let Some(columns) = line.columns else {
        return Ok(());
    };
    write_columns(out, "column_start", "column_end", columns)?;
    if line.bytes.is_empty() {
        return Ok(());
    }
    write_marked(alloc, out, line, columns)
}

fn write_at(alloc: Global, out: &mut Writer, at: At<'_>) -> Made<()> {
    match at {
        At::Whole => Ok(()),
        At::Line(line) => write_line(alloc, out, line),
        At::Record { number, byte } => {
            write_number(out, "record", number)?;
            write_number(out, "byte", byte)
        }
        At::Row(row) => write_number(out, "row", row),
        At::Offset(byte) => write_number(out, "byte", byte),
    }
}

/// Writes the places: one, or none.
fn write_spans(alloc: Global, out: &mut Writer, place: Option<Place>) -> Made<()> {
    out.key("spans")?;
    out.begin_array()?;
    if let Some(place) = place {
        out.begin_object()?;
        write_member(out, "file_name", place.file.path)?;
        if !place.file.role.is_empty() {
            write_member(out, "role", place.file.role)?;
        }
        write_at(alloc, out, place.at)?;
        out.end_object()?;
    }
    out.end_array()
}

fn joined(alloc: Global, paragraph: &str) -> Made<String> {
    let mut text = TextWriter::new(alloc);
    for character in paragraph.chars() {
        text.write_char(if character == '\n' { ' ' } else { character });
    }
    text.finish()
}

fn write_topic(alloc: Global, out: &mut Writer, topic: Topic) -> Made<()> {
    let mut code = TextWriter::new(alloc);
    topic.write_code(&mut code);
    let code = code.finish()?;
    let advice = joined(alloc, topic.advice())?;
    out.begin_object()?;
    write_member(out, "code", code.as_str())?;
    write_member(out, "explanation", advice.as_str())?;
    out.end_object()
}

/// Writes an object up to the children's array, which it opens.
fn write_open(
    alloc: Global,
    out: &mut Writer,
    level: Level,
    message: &str,
    code: Option<Topic>,
    place: Option<Place<'_>>,
) -> Made<()> {
    out.begin_object()?;
    write_member(out, "level", level.text())?;
    write_member(out, "message", message)?;
    out.key("code")?;
    match code {
        Some(topic) => write_topic(alloc, out, topic)?,
        None => out.null()?,
    }
    write_spans(alloc, out, place)?;
    out.key("children")?;
    out.begin_array()
}

/// Ends an object whose children are complete.
pub fn end_object(out: &mut Writer) -> Made<()> {
    out.end_array()?;
    out.end_object()
}

/// Writes a note without a code as an object: a remark, or a line about a running job.
pub fn write_note_object(
    alloc: Global,
    out: &mut Writer,
    place: Option<Place<'_>>,
    message: &str,
) -> Made<()> {
    write_open(alloc, out, Level::Note, message, None, place)?;
    end_object(out)
}

/// Writes a diagnostic as an object with its remarks. More of them may follow before [`end_object`].
pub fn begin_object(alloc: Global, out: &mut Writer, told: &Diagnostic) -> Made<()> {
    let message = told.message.as_str();
    write_open(alloc, out, told.level, message, told.code, told.place)?;
    for child in &told.children {
        write_note_object(alloc, out, child.place, child.message.as_str())?;
    }
    Ok(())
}

pub fn line_of(out: Writer) -> Made<String> {
    let mut bytes = out.into_inner();
    bytes.push(b'\n')?;
    match String::from_utf8(bytes) {
        Ok(line) => Ok(line),
        Err(_) => Err(AllocError),
    }
}
