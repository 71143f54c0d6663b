//! Compiles cards to a program.

ghost use Rattle.std.specs.Prelude.{◌≡◌, ◌<◌, ◌≤◌, length, is_some, option_copied, IfOk};
ghost use Rattle.std.specs.Option.{option_and_then};
ghost use Rattle.rpg_faults.specs.Faults.{Faultless};
ghost use Rattle.rpg_compile.specs.Limits.{HasProgram};
ghost use Rattle.rpg_verify_rules.specs.Accepted.{IsAccepted};
ghost use Rattle.rpg_compile_program.specs.Lines as lines;
ghost use Rattle.rpg_compile_program.specs.Program as programs;

use crate::rows::{SectionRows, section_rows};
use crate::{
    faultless_sources_are_accepted, faultless_sources_fill_their_fields,
    faultless_sources_keep_limits,
};
use rpg_card_index::IndexedCards;
use rpg_cards::{FileUse, ending_file};
use rpg_compile_layouts::{lines_of, types_of};
use rpg_compile_program::{Fields, fields_of};
use rpg_paper::Page;
use rpg_program::Program;
use rpg_program::input::InputFile;
use rpg_program::rows::{Overflow, Rows, Version};
use rpg_sheet_specs::FileSpec;
use std::alloc::{AllocError, Global};

/// Compiles cards without faults. `allowance` limits the backward branches and calls of a cycle. Fails only if memory runs out.
pub fn translate(
    alloc: Global,
    source: &IndexedCards,
    allowance: u16,
) -> Result<Program, AllocError>
    requires allowed { 0 < allowance }
    requires few { length source.now ≤ 2000 }
    requires faultless { Faultless source.now }
    ensures program { IfOk result (λ p. p ≡ programs.program_of source.now allowance) }
    ensures accepted { IfOk result (λ p. IsAccepted p) }
{
    let cards = source.as_slice();
    faultless_sources_are_accepted(cards);
    faultless_sources_keep_limits(cards);
    faultless_sources_fill_their_fields(cards);
    program_of(alloc, source, allowance)
}

/// Compiles cards that keep the limits of a program.
fn program_of(alloc: Global, source: &IndexedCards, allowance: u16) -> Result<Program, AllocError>
    requires allowed { 0 < allowance }
    requires few { length source.now ≤ 2000 }
    requires kept { HasProgram source.now allowance }
    ensures { IfOk result (λ p. p ≡ programs.program_of source.now allowance) }
{
    let cards = source.as_slice();
    let Fields {
        table,
        forms: fields,
        values,
    } = fields_of(alloc, source)?;
    let types = types_of(alloc, &table, cards)?;
    let lines = lines_of(alloc, &table, cards)?;
    let SectionRows {
        detail,
        total,
        subroutines,
    } = section_rows(alloc, &table, cards)?;
    let secondary = source.file_for(FileUse::Secondary);
    let printer = source.file_for(FileUse::Printer);
    let page = source.page();
    let ends = ending_file(cards);
    Ok(Program::build(Rows {
        version: version_for(needs_page(page, ends), secondary, source.has_match_field()),
        allowance,
        record_length: length_of(source.file_for(FileUse::Primary)),
        secondary_length: length_of(secondary),
        printer_length: length_of(printer),
        disk_length: length_of(source.file_for(FileUse::Disk)),
        overflow: overflow_of(printer, page),
        ends,
        fields,
        values,
        types,
        lines,
        detail,
        total,
        subroutines,
    }))
}

/// Whether only version 3 has this page and this ending file.
fn needs_page(page: Page, ends: Option<InputFile>) -> bool
    ensures { result ≡ programs.needs_page page ends }
{
    let standard = Page::standard();
    let is_standard = page.lines == standard.lines && page.overflow_line == standard.overflow_line;
    !is_standard || ends.is_some()
}

/// The version of a program: 3 if it needs that, 2 with a secondary file or match fields, else 1.
fn version_for(needs_page: bool, secondary: Option<&FileSpec>, has_match_field: bool) -> Version
    ensures { result ≡ programs.version_with needs_page (is_some (option_copied secondary.entry)) has_match_field }
{
    match secondary {
        _ if needs_page => Version::Three,
        Some(_) => Version::Two,
        None if has_match_field => Version::Two,
        None => Version::One,
    }
}

/// The record length of a file, 0 if there is none.
fn length_of(file: Option<&FileSpec>) -> u16
    ensures { result ≡ lines.record_length_of (option_copied file.entry) }
{
    match file {
        Some(file) => file.record_length,
        None => 0,
    }
}

/// The page, with the indicator of the file that a full one turns on.
fn overflow_of(file: Option<&FileSpec>, page: Page) -> Overflow
    ensures { result ≡ record { indicator = option_and_then (λ f. f.overflow) (option_copied file.entry); page = page } }
{
    let indicator = match file {
        Some(file) => file.overflow.map(|indicator| indicator.number()),
        None => None,
    };
    Overflow { indicator, page }
}
