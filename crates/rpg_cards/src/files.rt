//! The files of a source.

ghost use Rattle.std.specs.Prelude.{◌≡◌, ◌≤◌, option_copied};
ghost use Rattle.rpg_cards.specs.Files as files;

use crate::spec_card::SpecCard;
use rpg_paper::Page;
use rpg_program::input::InputFile;
use rpg_sheet_specs::{Device, FileRole, FileSpec, FormSpec, Word};

/// What a file is used for.
#[derive(Clone, Copy, PartialEq, Eq)]
pub enum FileUse {
    Primary,
    Secondary,
    Printer,
    Disk,
}

pub const fn use_of(file: &FileSpec) -> FileUse
    ensures { result ≡ files.file_use file.now }
{
    match (file.role, file.device) {
        (FileRole::Primary, _) => FileUse::Primary,
        (FileRole::Secondary, _) => FileUse::Secondary,
        (FileRole::Output, Device::Printer) => FileUse::Printer,
        (FileRole::Output, Device::Disk) => FileUse::Disk,
    }
}

/// Returns the first F card with this name.
pub fn file_named<'a>(name: &Word<8>, cards: &'a [SpecCard]) -> Option<&'a FileSpec>
    ensures { option_copied result ≡ files.file_named name.now cards.now }
{
    for card in cards {
        match card.file() {
            Some(file) if *name == file.name => return Some(file),
            _ => {}
        }
    }
    None
}

/// Returns the first file with this use.
pub fn file_for(file_use: FileUse, cards: &[SpecCard]) -> Option<&FileSpec>
    ensures { option_copied result ≡ files.file_for file_use cards.now }
{
    for card in cards {
        match card.file() {
            Some(file) if is_same_use(file_use, use_of(file)) => return Some(file),
            _ => {}
        }
    }
    None
}

/// Returns the input file that ends the job alone: the one of two with E, if the other has none.
pub fn ending_file(cards: &[SpecCard]) -> Option<InputFile>
    ensures { result ≡ files.ending_file cards.now }
{
    let primary = file_for(FileUse::Primary, cards)?;
    let secondary = file_for(FileUse::Secondary, cards)?;
    match (primary.ends_job, secondary.ends_job) {
        (true, false) => Some(InputFile::Primary),
        (false, true) => Some(InputFile::Secondary),
        _ => None,
    }
}

/// Returns the page of the printer's L card, or the standard one.
pub fn page_of(cards: &[SpecCard]) -> Page
    ensures value { result ≡ files.page_of cards.now }
    ensures shortest { 3 ≤ result.lines }
    ensures longest { result.lines ≤ 112 }
    ensures first { 1 ≤ result.overflow_line }
{
    match printer_form(cards) {
        None => Page::standard(),
        Some(form) => Page {
            lines: form.lines.number(),
            overflow_line: form.overflow_line.number(),
        },
    }
}

/// Returns the first L card with the printer's name.
fn printer_form(cards: &[SpecCard]) -> Option<&FormSpec>
    ensures { option_copied result ≡ files.printer_form cards.now }
{
    let printer = file_for(FileUse::Printer, cards)?;
    form_named(&printer.name, cards)
}

/// Returns the first L card with this name.
fn form_named<'a>(name: &Word<8>, cards: &'a [SpecCard]) -> Option<&'a FormSpec>
    ensures { option_copied result ≡ files.form_named name.now cards.now }
{
    for card in cards {
        match card.form() {
            Some(form) if *name == form.file => return Some(form),
            _ => {}
        }
    }
    None
}

const fn is_same_use(a: FileUse, b: FileUse) -> bool
    ensures { result ≡ files.same_use a b }
{
    matches!(
        (a, b),
        (FileUse::Primary, FileUse::Primary)
            | (FileUse::Secondary, FileUse::Secondary)
            | (FileUse::Printer, FileUse::Printer)
            | (FileUse::Disk, FileUse::Disk)
    )
}
