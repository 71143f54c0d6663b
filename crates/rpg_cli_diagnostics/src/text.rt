//! A diagnostic as text, in the form of C compilers, which editors and CI services read.

use crate::picture::write_picture;
use crate::value::{At, Diagnostic, Level, Line, Place};
use rpg_cli_text::TextWriter;

/// Returns the first column of a line; 1 if the whole line is meant.
fn column_of(line: Line<'_>) -> usize {
    line.columns.map_or(1, |columns| columns.first)
}

/// Writes the file, and a line with its column.
fn write_place(out: &mut TextWriter, place: Place<'_>) {
    out.write_shown(place.file.path.as_bytes());
    if let At::Line(line) = place.at {
        out.fill(":{}:{}", &[line.number.into(), column_of(line).into()]);
    }
}

/// Writes the place and the level: `FILE:LINE:COLUMN: error: `.
fn write_head(out: &mut TextWriter, place: Option<Place<'_>>, level: Level) {
    match place {
        Some(place) => write_place(out, place),
        None => out.write_str("rpg2"),
    }
    out.fill(": {}: ", &[level.text().into()]);
}

fn write_shown_line(out: &mut TextWriter, place: Option<Place<'_>>, has_colours: bool) {
    if let Some(
        Place {
            at: At::Line(line),
            ..
        },
    ) = place
    {
        if line.is_shown {
            write_picture(out, line, has_colours);
        }
    }
}

pub fn write_note_text(
    out: &mut TextWriter,
    place: Option<Place<'_>>,
    message: &str,
    has_colours: bool,
) {
    write_head(out, place, Level::Note);
    out.write_str(message);
    out.write_char('\n');
    write_shown_line(out, place, has_colours);
}

/// Writes a diagnostic: its line, its picture, and a line for each remark. Marks are coloured on a terminal.
pub fn write_text(out: &mut TextWriter, told: &Diagnostic<'_>, has_colours: bool) {
    write_head(out, told.place, told.level);
    out.write_str(told.message.as_str());
    if let Some(code) = told.code {
        out.write_str(" [");
        code.write_code(out);
        out.write_char(']');
    }
    out.write_char('\n');
    write_shown_line(out, told.place, has_colours);
    for child in &told.children {
        write_note_text(out, child.place, child.message.as_str(), has_colours);
    }
}

/// Writes a line about a running job, which is no diagnostic: the record, if it is about one, and the text.
pub fn write_line_text(out: &mut TextWriter, record: Option<Place<'_>>, text: &str) {
    if let Some(place) = record {
        out.write_shown(place.file.path.as_bytes());
        if let At::Line(line) = place.at {
            out.fill(":{}", &[line.number.into()]);
        }
        out.write_str(": ");
    }
    out.write_str(text);
    out.write_char('\n');
}
