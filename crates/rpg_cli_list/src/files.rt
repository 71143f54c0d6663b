//! The files of a source, and its tables and arrays.

use rpg_cards::{FileUse, SpecCard, is_table, use_of};
use rpg_cli_list_names::{By, Done, Mentions, overflow_of};
use rpg_cli_show_fields::{name_text, write_named};
use rpg_cli_text::TextWriter;
use rpg_sheet_specs::{DataSpec, ExtensionSpec, FileSpec, TableSpec, Word};
use std::alloc::Global;

/// The columns before the other cards that name a file.
const NAMED: usize = 23;

pub(crate) fn length_words(file: &FileSpec) -> &'static str {
    match use_of(file) {
        FileUse::Primary | FileUse::Secondary | FileUse::Disk => "columns",
        FileUse::Printer => "places",
    }
}

pub(crate) fn write_heading(
    out: &mut TextWriter,
    rows: &str,
    name: Option<&Word<8>>,
    file: Option<&FileSpec>,
    counted: &str,
) {
    out.fill("\n{}", &[rows.into()]);
    if let Some(name) = name {
        out.fill(" OF {}", &[name_text(name.as_slice()).into()]);
    }
    if let Some(file) = file {
        out.fill(", {} {}", &[file.record_length.into(), counted.into()]);
    }
    out.write_char('\n');
}

fn named_file(card: &SpecCard) -> Option<&Word<8>> {
    match card.record_type() {
        Some(record_type) => record_type.file.as_ref(),
        None => card.line()?.file.as_ref(),
    }
}

/// Notes the cards of record types and lines that name a file.
fn note_users(mentions: &mut Mentions, cards: &[SpecCard], name: &Word<8>) -> Done {
    for card in cards {
        match named_file(card) {
            Some(file) if file == name => mentions.note(By::Using, card.number)?,
            _ => {}
        }
    }
    Ok(())
}

fn write_file(out: &mut TextWriter, card: u16, file: &FileSpec) {
    let serves = match use_of(file) {
        FileUse::Primary => "input",
        FileUse::Secondary => "secondary",
        FileUse::Printer => "printer",
        FileUse::Disk => "disk",
    };
    let name = name_text(file.name.as_slice());
    let words = length_words(file);
    out.fill_three("  {:<8}  {:<9}  {:>4} ", name, serves, file.record_length);
    out.fill_two("{}  card {}", words, card);
    write_named(out, ", turns on {} where a page is full", overflow_of(file));
    out.write_str(", named on ");
}

/// Writes a row for each file, for the first card that describes it, with the cards of record types and lines that name it.
pub(crate) fn write_files(alloc: Global, out: &mut TextWriter, cards: &[SpecCard]) -> Done {
    let mut heading = "\nFILES\n";
    for (place, card) in cards.iter().enumerate() {
        let Some(file) = card.file() else {
            continue;
        };
        out.write_str(heading);
        heading = "";
        let before = cards.get(..place).unwrap_or(&[]);
        let mut files = before.iter().filter_map(|card| card.file());
        if !files.any(|other| other.name == file.name) {
            write_file(out, card.number, file);
            let mut mentions = Mentions::new(alloc);
            note_users(&mut mentions, cards, &file.name)?;
            mentions.write_lines(out, By::Using, NAMED);
            out.write_char('\n');
        }
    }
    Ok(())
}

const HEADING: &str =
    "\nTABLES AND ARRAYS\n  card  name    is     entries  length  decimals  sequence   data\n";

/// Writes a table or an array of an E card, whose data come after a card.
fn write_table(
    out: &mut TextWriter,
    card: u16,
    extension: &ExtensionSpec,
    table: &TableSpec,
    beginning: Option<u16>,
) {
    let row = if is_table(&table.name) {
        "  {:>4}  {:<6}  table"
    } else {
        "  {:>4}  {:<6}  array"
    };
    out.fill_two(row, card, name_text(table.name.as_slice()));
    out.fill_two("  {:>7}  {:>6}  ", extension.entries, table.length);
    write_decimals(out, table.decimals);
    let order = if table.ascending { "ascending" } else { "" };
    out.fill_one("  {:<9}  ", order);
    match (extension.entries_per_card, &extension.alternating) {
        (None, _) => out.write_str("no data"),
        (Some(count), None) => out.fill("{} on a card", &[count.into()]),
        (Some(count), Some(_)) => out.fill("{} pairs on a card", &[count.into()]),
    }
    if let Some(beginning) = beginning {
        out.fill(", after card {}", &[beginning.into()]);
    }
    out.end_line();
}

/// Returns the next card after which data come, and moves on to the cards after it.
fn next_deck(rest: &mut &[SpecCard]) -> Option<u16> {
    while let Some((card, following)) = rest.split_first() {
        *rest = following;
        if matches!(card.data(), Some(DataSpec::Begin)) {
            return Some(card.number);
        }
    }
    None
}

/// Writes decimals in their column, for tables and fields.
pub(crate) fn write_decimals(out: &mut TextWriter, decimals: Option<u8>) {
    match decimals {
        Some(decimals) => out.fill("{:>8}", &[decimals.into()]),
        None => out.write_str("        "),
    }
}

/// Writes a row for each table and array of the E cards. The data come in the order of the E cards that have data: where they are is known
/// if these are all tables of the source.
pub(crate) fn write_tables(out: &mut TextWriter, cards: &[SpecCard], are_all: bool) {
    let mut decks = if are_all { cards } else { &[] };
    let mut heading = HEADING;
    for card in cards {
        let Some(extension) = card.extension() else {
            continue;
        };
        out.write_str(heading);
        heading = "";
        let beginning = match extension.entries_per_card {
            Some(_) => next_deck(&mut decks),
            None => None,
        };
        write_table(out, card.number, extension, &extension.table, beginning);
        if let Some(table) = &extension.alternating {
            write_table(out, card.number, extension, table, beginning);
        }
    }
}
