//! W14: of two input files one ends the job. W15: an L card, or L in 39, by itself.

ghost use Rattle.std.specs.Prelude.{◌≡◌, ◌++◌, OnOk, find, option_copied};
ghost use Rattle.std.specs.List.{filter_map};
ghost use Rattle.rpg_cli_warnings.specs.Files as files;

use rpg_cards::{SpecCard, has_match_field};
use rpg_sheet_specs::{ColumnFault, FileRole, FileSpec};
use rpg_warnings_lines::{Warning, WarningKind, is_printer, put_warning};
use std::alloc::AllocError;

/// The column of the end of file.
const END: ColumnFault = ColumnFault {
    column: 17,
    last: 17,
};

/// The column of the extension code.
const EXTENSION: ColumnFault = ColumnFault {
    column: 39,
    last: 39,
};

const fn are_inputs(one: FileRole, other: FileRole) -> bool
    ensures { result ≡ files.are_inputs one other }
{
    matches!(
        (one, other),
        (FileRole::Primary, FileRole::Secondary) | (FileRole::Secondary, FileRole::Primary)
    )
}

/// Whether a card is that of the other input file, and has no E.
fn is_other(file: &FileSpec, card: &SpecCard) -> bool
    ensures { result ≡ files.is_other file.now card.now }
{
    match card.file() {
        None => false,
        Some(other) => are_inputs(file.role, other.role) && !other.ends_job,
    }
}

fn other_card<'a>(cards: &'a [SpecCard], file: &FileSpec) -> Option<&'a SpecCard>
    ensures { option_copied result ≡ find (files.is_other file.now) cards.now }
{
    for card in cards {
        if is_other(file, card) {
            return Some(card);
        }
    }
    None
}

/// Returns what becomes of the other file's records.
const fn loss(is_matched: bool, role: FileRole, card: u16) -> Option<WarningKind>
    ensures { result ≡ files.loss is_matched role card }
{
    match (is_matched, role) {
        (true, _) => Some(WarningKind::LeftOut { card }),
        (false, FileRole::Primary) => Some(WarningKind::NeverRead { card }),
        (false, _) => None,
    }
}

fn ending_kind(cards: &[SpecCard], file: &FileSpec) -> Option<WarningKind>
    ensures { result ≡ files.ending_kind cards.now file.now }
{
    if !file.ends_job {
        return None;
    }
    let other = other_card(cards, file)?;
    loss(has_match_field(cards), file.role, other.number)
}

fn is_form(card: &SpecCard) -> bool
    ensures { result ≡ files.is_form card.now }
{
    card.form().is_some()
}

/// Whether a source has an L card.
fn has_form(cards: &[SpecCard]) -> bool
    ensures { result ≡ files.has_form cards.now }
{
    cards.iter().any(is_form)
}

fn form_kind(cards: &[SpecCard], file: &FileSpec) -> Option<WarningKind>
    ensures { result ≡ files.form_kind cards.now file.now }
{
    if !is_printer(file) {
        return None;
    }
    match (file.has_form, has_form(cards)) {
        (true, false) => Some(WarningKind::NoForm),
        (false, true) => Some(WarningKind::UnmarkedForm),
        _ => None,
    }
}

fn at(card: &SpecCard, columns: ColumnFault, kind: Option<WarningKind>) -> Option<Warning>
    ensures { result ≡ files.at card.now columns kind }
{
    let kind = kind?;
    Some(Warning {
        card: card.number,
        columns,
        kind,
    })
}

/// Returns the warning of an input file that ends the job, or of a printer and its L card.
#[tactic(auto, unfolding(crate::specs::Files::file_warning))]
fn file_warning(cards: &[SpecCard], card: &SpecCard) -> Option<Warning>
    ensures { result ≡ files.file_warning cards.now card.now }
{
    let file = card.file()?;
    at(card, END, ending_kind(cards, file)).or(at(card, EXTENSION, form_kind(cards, file)))
}

/// Appends the warnings of files that end the job, and of printers and their L cards, in the order of their cards.
pub(crate) fn put_files(warnings: &mut Vec<Warning>, cards: &[SpecCard]) -> Result<(), AllocError>
    ensures { OnOk result (warnings.new.items ≡ warnings.old.items ++ filter_map (files.file_warning cards.now) cards.now) }
{
    for card in cards {
        put_warning(warnings, file_warning(cards, card))?;
    }
    Ok(())
}
