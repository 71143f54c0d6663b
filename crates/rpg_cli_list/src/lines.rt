//! Charts of lines and records, drawn below a ruler; and lines: when each is written, its layout, and where its fields are.

use crate::files::{length_words, write_heading};
use rpg_card_index::IndexedCards;
use rpg_cards::{Defined, FileUse, SpecCard, in_places, time_of, use_of};
use rpg_cli_show_fields::{
    name_text, time_word, write_code, write_quoted, write_spacing, write_when,
};
use rpg_cli_text::TextWriter;
use rpg_decimal::fit;
use rpg_edit::edit_at_end;
use rpg_edit_marks::Fill;
use rpg_edit_widths::{EditWord, How, width};
use rpg_faults_operands::fill_in;
use rpg_program::form::{FieldForm, Kind};
use rpg_program::line::Spacing;
use rpg_sheet_specs::{
    Entry, EntryIndex, FileSpec, Movement, OutputField, OutputRecord, OutputSpec, Within,
};
use rpg_text::trimmed;

fn lines_in<const FIRST: u8, const LAST: u8>(column: Option<Within<FIRST, LAST>>) -> u8 {
    column.map_or(0, |lines| lines.number())
}

/// Returns how the form moves: if all four columns are blank, it spaces one line after.
fn spacing_of(movement: Movement) -> Spacing {
    let mut spacing = Spacing {
        skip_before: lines_in(movement.skip_before),
        space_before: lines_in(movement.space_before),
        skip_after: lines_in(movement.skip_after),
        space_after: lines_in(movement.space_after),
    };
    if let Movement {
        space_before: None,
        space_after: None,
        skip_before: None,
        skip_after: None,
    } = movement
    {
        spacing.space_after = 1;
    }
    spacing
}

fn write_head(
    out: &mut TextWriter,
    card: u16,
    record: &OutputRecord,
    file: Option<&FileSpec>,
    after: &[SpecCard],
) {
    let time = time_word(time_of(record.time));
    out.fill("  line, card {}: {}", &[card.into(), time.into()]);
    match file {
        Some(file) if use_of(file) == FileUse::Printer => {
            write_spacing(out, spacing_of(record.movement));
        }
        _ => {}
    }
    write_when(out, ", when", in_places(record.conditions));
    for card in after {
        match card.output() {
            Some(OutputSpec::Record(_)) => break,
            Some(OutputSpec::And(conditions)) => write_when(out, " and", in_places(*conditions)),
            Some(OutputSpec::Or(conditions)) => write_when(out, ", or", in_places(*conditions)),
            Some(OutputSpec::Field(_)) | None => {}
        }
    }
    out.write_char('\n');
}

fn write_chart(out: &mut TextWriter, source: &IndexedCards, length: u16, after: &[SpecCard]) {
    let mut chart = Chart::new(length, b' ');
    for card in after {
        match card.output() {
            Some(OutputSpec::Record(_)) => break,
            Some(OutputSpec::Field(field)) => draw_field(&mut chart, source, field),
            Some(OutputSpec::And(_) | OutputSpec::Or(_)) | None => {}
        }
    }
    chart.write(out);
}

fn draw_field(chart: &mut Chart, source: &IndexedCards, field: &OutputField) {
    if let Some(picture) = picture_of(source, field) {
        let text = picture.text();
        if let Some(first) = first_place(text.len(), field.end) {
            chart.draw(first, text);
        }
    }
}

/// Writes the places of a field, only its end if its width isn't known.
fn write_places(out: &mut TextWriter, source: &IndexedCards, field: &OutputField) {
    let end = field.end;
    let first = match picture_of(source, field) {
        Some(picture) => first_place(picture.text().len(), end),
        None => None,
    };
    match first {
        Some(first) => out.fill("{:>4}-{:<4}", &[first.into(), end.into()]),
        None => out.fill("    -{:<4}", &[end.into()]),
    }
}

fn write_entry(out: &mut TextWriter, entry: &Entry) {
    out.write_str(name_text(entry.name.as_slice()));
    match &entry.index {
        None => {}
        Some(EntryIndex::Literal(index)) => out.fill(",{}", &[(*index).into()]),
        Some(EntryIndex::Name(index)) => out.fill(",{}", &[name_text(index.as_slice()).into()]),
    }
}

/// Writes the field or the constant, and how it is edited.
fn write_printed(out: &mut TextWriter, field: &OutputField) {
    if let Some(entry) = &field.operand {
        write_entry(out, entry);
    }
    if let Some(code) = field.code {
        write_code(out, code, fill_in(&field.text).unwrap_or(Fill::Blank));
    } else if let Some(text) = &field.text {
        if field.operand.is_some() {
            out.write_str(" by word ");
        }
        write_quoted(out, text.as_slice());
    }
}

fn write_field(out: &mut TextWriter, source: &IndexedCards, card: u16, field: &OutputField) {
    out.fill("  {:>6}  ", &[card.into()]);
    write_places(out, source, field);
    out.write_str("  ");
    write_printed(out, field);
    if field.blank_after {
        out.write_str(", blank after");
    }
    write_when(out, ", when", in_places(field.conditions));
    out.write_char('\n');
}

fn write_line(
    out: &mut TextWriter,
    source: &IndexedCards,
    file: Option<&FileSpec>,
    after: &[SpecCard],
) {
    if let Some(file) = file {
        write_chart(out, source, file.record_length, after);
    }
    let mut heading = "    card  places     printed\n";
    for card in after {
        match card.output() {
            Some(OutputSpec::Record(_)) => break,
            Some(OutputSpec::Field(field)) => {
                out.write_str(heading);
                heading = "";
                write_field(out, source, card.number, field);
            }
            Some(OutputSpec::And(_) | OutputSpec::Or(_)) | None => {}
        }
    }
}

pub(crate) fn write_lines(out: &mut TextWriter, source: &IndexedCards) {
    let mut file = None;
    let mut is_first = true;
    let mut rest = source.as_slice();
    while let Some((card, after)) = rest.split_first() {
        rest = after;
        let Some(record) = card.line() else {
            continue;
        };
        if let Some(name) = &record.file {
            file = source.file_named(name);
        }
        if is_first || record.file.is_some() {
            let counted = match file {
                Some(file) => length_words(file),
                None => "",
            };
            write_heading(out, "LINES", record.file.as_ref(), file, counted);
        }
        is_first = false;
        write_head(out, card.number, record, file, after);
        write_line(out, source, file, after);
    }
}

/// The most places that are drawn, as many as a printed line can have.
pub(crate) const MOST_DRAWN: u16 = 132;

const MARGIN: &str = "          ";

/// A ruler: a digit at each tenth place, a plus at each fifth.
const RULER: &str =
    "....+....1....+....2....+....3....+....4....+....5....+....6....+....7....+....8....+....9....+....0....+....1....+....2....+....3..";

pub(crate) fn write_ruler(out: &mut TextWriter, places: usize) {
    out.write_str(RULER.get(..places).unwrap_or(RULER));
}

/// The places of a line, or the columns of a record.
#[derive(Clone, Copy)]
pub(crate) struct Chart {
    places: [u8; 132],
    length: usize,
}

/// Returns the first place of a text that ends at `end`, counted from 1; None if it would begin before place 1.
pub(crate) fn first_place(width: usize, end: u16) -> Option<usize> {
    usize::from(end).checked_sub(width)?.checked_add(1)
}

impl Chart {
    /// Returns `length` places, each holding `empty` until something is drawn.
    pub fn new(length: u16, empty: u8) -> Self {
        Chart {
            places: [empty; 132],
            length: usize::from(length.min(MOST_DRAWN)),
        }
    }

    pub fn fill(&mut self, first: u16, last: u16, character: u8) {
        let before = usize::from(first).saturating_sub(1);
        let count = usize::from(last).saturating_sub(before);
        for place in self.places.iter_mut().skip(before).take(count) {
            *place = character;
        }
    }

    pub fn draw(&mut self, first: usize, text: &[u8]) {
        let before = first.saturating_sub(1);
        for (place, character) in self.places.iter_mut().skip(before).zip(text) {
            *place = *character;
        }
    }

    pub fn write(&self, out: &mut TextWriter) {
        out.write_str(MARGIN);
        write_ruler(out, self.length);
        out.write_char('\n');
        let text = trimmed(self.places.get(..self.length).unwrap_or(&[]));
        if !text.is_empty() {
            out.write_str(MARGIN);
            out.write_shown(text);
        }
        out.write_char('\n');
    }
}

/// The most characters that a field prints.
const MOST: usize = 256;

/// The number with the most nines, negative so that its sign shows.
const NINES: i128 = -999_999_999_999_999;

/// What a field prints, at the end of these characters.
#[derive(Clone, Copy)]
pub(crate) struct Picture {
    characters: [u8; 256],
    first: usize,
}

impl Picture {
    pub fn text(&self) -> &[u8] {
        self.characters.get(self.first..).unwrap_or(&[])
    }

    fn of(text: &[u8]) -> Self {
        let mut characters = [b' '; 256];
        let first = MOST.saturating_sub(text.len());
        for (place, character) in characters.iter_mut().skip(first).zip(text) {
            *place = *character;
        }
        Picture { characters, first }
    }
}

/// Returns what an output field prints: a constant's characters, an X for each character of a text, and for a number all nines, edited,
/// and negative if it is edited. None if the name has no form, or the field's code or word doesn't fit.
pub(crate) fn picture_of(source: &IndexedCards, field: &OutputField) -> Option<Picture> {
    match &field.operand {
        None => Some(Picture::of(field.text.as_ref()?.as_slice())),
        Some(entry) => match source.form_of_name(&entry.name) {
            Defined::Valid(form) => field_picture(form, field),
            Defined::Missing | Defined::Bad => None,
        },
    }
}

fn field_picture(form: FieldForm, field: &OutputField) -> Option<Picture> {
    match form.kind {
        Kind::Text => Some(Picture {
            characters: [b'X'; 256],
            first: MOST.saturating_sub(usize::from(form.length)),
        }),
        Kind::Number => number_picture(u8::try_from(form.length).ok()?, form.decimals, field),
    }
}

fn number_picture(length: u8, decimals: u8, field: &OutputField) -> Option<Picture> {
    if length < 1 || length > 15 || decimals > length {
        return None;
    }
    let how = how_of(field, length)?;
    if width(length, decimals, &how) > MOST {
        return None;
    }
    let mut characters = [b' '; 256];
    let nines = fit(sign_of(&how), length);
    let first = edit_at_end(nines, length, decimals, &how, &mut characters);
    Some(Picture { characters, first })
}

/// Returns the sign: without a code or a word a number shows none, so it isn't negative.
fn sign_of(how: &How) -> i128 {
    match how {
        How::Plain => -NINES,
        How::Code { .. } | How::Word(_) => NINES,
    }
}

/// Returns how a number of this many digits is edited, if its code or word fits.
fn how_of(field: &OutputField, digits: u8) -> Option<How> {
    match (field.code, &field.text) {
        (None, None) => Some(How::Plain),
        (None, Some(word)) => Some(How::Word(EditWord::parse(word.as_slice(), digits).ok()?)),
        (Some(code), text) => Some(How::Code {
            code,
            fill: fill_in(text)?,
        }),
    }
}
