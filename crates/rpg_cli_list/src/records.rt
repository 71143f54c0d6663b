//! Record types with their codes and fields, and the `sort` command for each input file with control or match fields.

use crate::files::{write_decimals, write_heading};
use crate::lines::{Chart, MOST_DRAWN};
use rpg_card_index::IndexedCards;
use rpg_cards::{SpecCard, number_of, shows_of};
use rpg_cli_list_names::Done;
use rpg_cli_show_fields::{name_text, write_named, write_quoted, write_shows};
use rpg_cli_text::TextWriter;
use rpg_sheet_specs::{FileSpec, InputFieldSpec, InputSpec, RecordCode, RecordType, Three, Word};
use std::alloc::{AllocError, Global};

/// Writes which type it is, and which indicator it turns on.
fn write_head(out: &mut TextWriter, card: u16, record_type: &RecordType) {
    let sequence = name_text(record_type.sequence.as_slice());
    out.fill("  type {}, card {}", &[sequence.into(), card.into()]);
    write_named(out, ", turns on {}", number_of(record_type.indicator));
    out.write_char('\n');
}

/// Writes the codes of a card. Returns how many there are.
fn write_codes(out: &mut TextWriter, card: u16, codes: &Three<Option<RecordCode>>) -> u64 {
    for code in [codes.first, codes.second, codes.third] {
        if let Some(code) = code {
            let is = if code.negated { "isn't" } else { "is" };
            out.fill_three("  {:>6}  column {} {} ", card, code.position, is);
            write_quoted(out, &[code.character.number()]);
            out.write_char('\n');
        }
    }
    codes.filled()
}

/// Writes which records are of the type, by the codes on its card and on AND cards.
fn write_all_codes(
    out: &mut TextWriter,
    card: u16,
    codes: &Three<Option<RecordCode>>,
    after: &[SpecCard],
) {
    let mut is_any = write_codes(out, card, codes) == 0;
    for card in after {
        match card.input() {
            Some(InputSpec::Type(_)) => break,
            Some(InputSpec::And(codes)) => {
                write_codes(out, card.number, codes);
                is_any = false;
            }
            Some(InputSpec::Field(_)) | None => {}
        }
    }
    if is_any {
        out.write_str("          every record\n");
    }
}

fn write_field(out: &mut TextWriter, card: u16, field: &InputFieldSpec) {
    let (from, to) = (field.from, field.to);
    out.fill_three("  {:>6}  {:>4}-{:<4}  ", card, from, to);
    out.fill_one("{:<6}  ", name_text(field.name.as_slice()));
    if from > to {
        out.write_str("     -");
    } else {
        out.fill("{:>6}", &[(usize::from(to - from) + 1).into()]);
    }
    out.write_str("  ");
    write_decimals(out, field.decimals);
    if let Some(level) = field.level {
        out.fill("  L{}", &[level.number().into()]);
    }
    if let Some(level) = field.match_level {
        out.fill("  M{}", &[level.number().into()]);
    }
    let sentences = ["  plus {}", "  minus {}", "  zero or blank {}"];
    write_shows(out, sentences, shows_of(field.indicators));
    out.end_line();
}

/// Draws the record: an X for each character of a text, a 9 for each digit, a point outside all
/// fields.
fn write_layout(out: &mut TextWriter, length: u16, after: &[SpecCard]) {
    let mut chart = Chart::new(length, b'.');
    for card in after {
        match card.input() {
            Some(InputSpec::Type(_)) => break,
            Some(InputSpec::Field(field)) => {
                let letter = if field.decimals.is_some() { b'9' } else { b'X' };
                chart.fill(field.from, field.to, letter);
            }
            Some(InputSpec::And(_)) | None => {}
        }
    }
    chart.write(out);
}

/// Writes the fields of a type below a heading, if there are any.
fn write_fields(out: &mut TextWriter, file: Option<&FileSpec>, after: &[SpecCard]) {
    let mut is_first = true;
    for card in after {
        let field = match card.input() {
            Some(InputSpec::Type(_)) => break,
            Some(InputSpec::Field(field)) => field,
            Some(InputSpec::And(_)) | None => continue,
        };
        if is_first {
            write_field_heading(out, file, after);
        }
        is_first = false;
        write_field(out, card.number, field);
    }
}

/// Draws a short record, and writes the heading of its fields.
fn write_field_heading(out: &mut TextWriter, file: Option<&FileSpec>, after: &[SpecCard]) {
    match file {
        Some(file) if file.record_length <= MOST_DRAWN => {
            write_layout(out, file.record_length, after);
        }
        _ => {}
    }
    out.write_str("    card  columns    field   length  decimals\n");
}

pub(crate) fn write_records(out: &mut TextWriter, source: &IndexedCards) {
    let mut file = None;
    let mut is_first = true;
    let mut rest = source.as_slice();
    while let Some((card, after)) = rest.split_first() {
        rest = after;
        let Some(record_type) = card.record_type() else {
            continue;
        };
        if let Some(name) = &record_type.file {
            file = source.file_named(name);
        }
        if is_first || record_type.file.is_some() {
            write_heading(out, "RECORDS", record_type.file.as_ref(), file, "columns");
        }
        is_first = false;
        write_head(out, card.number, record_type);
        write_all_codes(out, card.number, &record_type.codes, after);
        write_fields(out, file, after);
    }
}

/// The fields by which records are in sequence.
#[derive(Clone, Copy, PartialEq, Eq)]
enum Keys {
    Match,
    Control,
}

impl Keys {
    /// Returns the level that a field has among these.
    fn level_of(self, field: &InputFieldSpec) -> Option<u8> {
        match self {
            Keys::Match => Some(field.match_level?.number()),
            Keys::Control => Some(field.level?.number()),
        }
    }
}

/// The keys of a record type, as options of `sort`.
#[derive(Drop)]
struct TypeKeys {
    options: String,
    has_numbers: bool,
    has_texts: bool,
}

impl TypeKeys {
    /// Returns the keys of the type whose cards follow: the highest level first.
    fn of(alloc: Global, keys: Keys, after: &[SpecCard]) -> Result<Self, AllocError> {
        let mut out = TextWriter::new(alloc);
        let (mut has_numbers, mut has_texts) = (false, false);
        for below in 0..9u8 {
            for card in after {
                let field = match card.input() {
                    Some(InputSpec::Type(_)) => break,
                    Some(InputSpec::Field(field)) => field,
                    Some(InputSpec::And(_)) | None => continue,
                };
                if keys.level_of(field) == Some(9 - below) {
                    let is_number = field.decimals.is_some();
                    out.fill(" -k1.{},1.{}", &[field.from.into(), field.to.into()]);
                    out.write_str(if is_number { "n" } else { "" });
                    has_numbers |= is_number;
                    has_texts |= !is_number;
                }
            }
        }
        Ok(TypeKeys {
            options: out.finish()?,
            has_numbers,
            has_texts,
        })
    }

    /// Returns the match fields of a type, or its control fields if it has none.
    fn of_type(alloc: Global, after: &[SpecCard]) -> Result<Self, AllocError> {
        let keys = TypeKeys::of(alloc, Keys::Match, after)?;
        if keys.options.is_empty() {
            return TypeKeys::of(alloc, Keys::Control, after);
        }
        Ok(keys)
    }
}

/// Whether all types of a file have the keys of its first type, whose cards follow, and it has any.
fn are_alike(alloc: Global, first: &TypeKeys, after: &[SpecCard]) -> Result<bool, AllocError> {
    let mut rest = after;
    while let Some((card, following)) = rest.split_first() {
        rest = following;
        let Some(record_type) = card.record_type() else {
            continue;
        };
        if record_type.file.is_some() {
            return Ok(true);
        }
        let keys = TypeKeys::of_type(alloc, following)?;
        if keys.options.as_str() != first.options.as_str() {
            return Ok(false);
        }
    }
    Ok(true)
}

/// Whether any type of a file, whose cards follow that of its first one, has keys.
fn any_has_keys(after: &[SpecCard]) -> bool {
    for card in after {
        match card.input() {
            Some(InputSpec::Type(record_type)) if record_type.file.is_some() => return false,
            Some(InputSpec::Field(field)) => {
                if field.level.is_some() || field.match_level.is_some() {
                    return true;
                }
            }
            _ => {}
        }
    }
    false
}

/// Writes the command for a file, given the cards after that of its first type.
fn write_command(alloc: Global, out: &mut TextWriter, file: &Word<8>, after: &[SpecCard]) -> Done {
    out.fill("  {}: ", &[name_text(file.as_slice()).into()]);
    let first = TypeKeys::of_type(alloc, after)?;
    if !are_alike(alloc, &first, after)? {
        out.write_str("no sort does: its types don't have these fields in the same columns\n");
        return Ok(());
    }
    out.write_str("LC_ALL=C sort -s");
    out.write_str(first.options.as_str());
    out.write_char('\n');
    if first.has_numbers {
        out.write_str("    unless a number has a sign: no sort ignores it\n");
    }
    if first.has_texts {
        out.write_str(
            "    unless a column of a text has letters and digits: letters come first here\n",
        );
    }
    Ok(())
}

/// Writes for each input file with control or match fields the command that sorts its records.
pub(crate) fn write_order(alloc: Global, out: &mut TextWriter, source: &IndexedCards) -> Done {
    let mut heading = "\nORDER\n";
    let mut rest = source.as_slice();
    while let Some((card, after)) = rest.split_first() {
        rest = after;
        match card.record_type() {
            Some(
                RecordType {
                    file: Some(file),
                    ..
                },
            ) if any_has_keys(after) => {
                out.write_str(heading);
                heading = "";
                write_command(alloc, out, file, after)?;
            }
            _ => {}
        }
    }
    Ok(())
}
