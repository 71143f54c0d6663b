//! The file description sheet (F).
#![tactic(auto, unfolding(rpg_sheet_specs::specs::Columns::values, rpg_sheet_specs::specs::Columns::at_with, rpg_sheet_specs::specs::Columns::also, rpg_sheet_specs::specs::Columns::past, rpg_sheet_specs::specs::Columns::blank, rpg_sheet_specs::specs::Columns::where_card, rpg_sheet_specs::specs::Values::blank_or, rpg_sheet_specs::specs::Tables::file, rpg_sheet_specs::specs::Tables::file_overflow, rpg_sheet_specs::specs::Tables::overflow, rpg_sheet_specs::specs::Tables::form_mark, rpg_sheet_specs::specs::Tables::role))]

ghost use Rattle.std.specs.Prelude.{◌≡◌};
ghost use Rattle.rpg_sheet.specs.Rest.{rest_of_file};
ghost use Rattle.rpg_sheet_specs.specs.Columns.{cols};
ghost use Rattle.rpg_sheet_specs.specs.Tables as tables;

use crate::card::Card;
use crate::columns::{at, optional};
use rpg_sheet_specs::{ColumnFault, FileRole, FileSpec, Within, Word, ranges};

#[inline(never)]
pub(crate) fn file(card: &Card) -> Result<FileSpec, ColumnFault>
    ensures { result ≡ tables.file.reading card.now }
{
    let name = card.name(ranges::FILE_NAME)?;
    let text = card.columns(ranges::FILE_TYPE);
    at(ranges::FILE_TYPE, rpg_sheet_values::direction(text))?;
    let role = at(ranges::FILE_ROLE, role(card))?;
    let ends_job = card.mark(ranges::ENDS_JOB, b"E")?;
    let ascending = card.mark(ranges::FILE_SEQUENCE, b"A")?;
    let text = card.columns(ranges::RECORD_FORMAT);
    at(ranges::RECORD_FORMAT, rpg_sheet_values::only(b"F", text))?;
    file_with(card, name, role, ends_job, ascending)
}

/// Reads the rest of a file with this name and role.
fn file_with(
    card: &Card,
    name: Word<8>,
    role: FileRole,
    ends_job: bool,
    ascending: bool,
) -> Result<FileSpec, ColumnFault>
    ensures { result ≡ (rest_of_file name role ends_job ascending).reading card.now }
{
    let record_length = card.number(ranges::RECORD_LENGTH)?;
    let overflow = file_overflow(card)?;
    let has_form = at(ranges::HAS_FORM, form_mark(card))?;
    let device = rpg_sheet_values::device(card.columns(ranges::DEVICE));
    card.blank(ranges::AFTER_DEVICE)?;
    Ok(FileSpec {
        name,
        role,
        ends_job,
        ascending,
        record_length,
        overflow,
        has_form,
        device,
    })
}

/// Reads a blank, or L on the printer's card.
fn form_mark(card: &Card) -> Option<bool>
    ensures { result ≡ tables.form_mark card.now (cols 39 39 card.now) }
{
    let has_form = rpg_sheet_values::marked(b"L", card.columns(ranges::HAS_FORM))?;
    if has_form && !is_printer_card(card) {
        return None;
    }
    Some(has_form)
}

fn is_printer_card(card: &Card) -> bool
    ensures { result ≡ tables.is_printer_card card.now }
{
    card.columns(ranges::FILE_TYPE) == b"O".as_slice()
        && card.columns(ranges::DEVICE) == b"PRINTER".as_slice()
}

fn file_overflow(card: &Card) -> Result<Option<Within<112, 119>>, ColumnFault>
    ensures { result ≡ tables.file_overflow.reading card.now }
{
    card.blank(ranges::BEFORE_OVERFLOW)?;
    let overflow = overflow(card)?;
    card.blank(ranges::AFTER_OVERFLOW)?;
    Ok(overflow)
}

/// Reads the indicator of a full page, which only an output file has.
fn overflow(card: &Card) -> Result<Option<Within<112, 119>>, ColumnFault>
    ensures { result ≡ tables.overflow.reading card.now }
{
    let text = card.columns(ranges::OVERFLOW);
    if card.columns(ranges::FILE_TYPE) == b"O".as_slice() {
        let value = rpg_sheet_values::indicator_within(text);
        optional(ranges::OVERFLOW, text, value)
    } else {
        at(ranges::OVERFLOW, rpg_sheet_values::unused(text))?;
        Ok(None)
    }
}

/// Reads P or S after I, blank after O.
fn role(card: &Card) -> Option<FileRole>
    ensures { result ≡ tables.role card.now (cols 16 16 card.now) }
{
    let is_read = card.columns(ranges::FILE_TYPE) == b"I".as_slice();
    rpg_sheet_values::role(is_read, card.columns(ranges::FILE_ROLE))
}
