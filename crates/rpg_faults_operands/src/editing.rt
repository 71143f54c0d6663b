//! F17: edit codes and words that don't fit; and the width of an output field.

ghost use Rattle.std.specs.Prelude.{◌≡◌, ◌&&◌, true, is_some, option_and_then, IfSome};
ghost use Rattle.std.specs.Option.{is_none};
ghost use Rattle.rpg_edit_marks.specs.How.{width_of};
ghost use Rattle.rpg_edit_marks.specs.declared.how.How.TheVariants as how;
ghost use Rattle.rpg_faults_operands.specs.Editing as editing;
ghost use Rattle.rpg_faults_operands.specs.Operands.{card_entry_form};
ghost use Rattle.rpg_faults_operands.specs.Sizes.{IsSized};

use crate::forms::is_text;
use crate::operands::entry_form;
use rpg_card_index::IndexedCards;
use rpg_cards::SpecCard;
use rpg_edit_marks::{EditCode, Fill};
use rpg_edit_widths::{EditWord, How};
use rpg_program::form::{FieldForm, Kind};
use rpg_sheet_specs::{Entry, OutputField, TextLiteral};

// ---- the meaning of the columns

/// Returns the fill that a text beside a code means: blanks if there is no text.
pub fn fill_in(text: &Option<TextLiteral<24>>) -> Option<Fill>
    ensures { result ≡ editing.fill_in text.now }
{
    match text {
        None => Some(Fill::Blank),
        Some(text) => Fill::of(text.as_slice()),
    }
}

// ---- whether editing fits

fn suits_code(form: FieldForm, code: EditCode, fill: Fill) -> bool
    ensures { result ≡ editing.suits form (how.Code code fill) }
{
    !is_text(form) && code.fits(fill, form.length, form.decimals)
}

/// Returns the word if it fits.
fn fitting_word(form: FieldForm, word: &TextLiteral<24>) -> Option<EditWord>
    requires { IsSized form }
    ensures fits { is_some result ≡ editing.suits form (how.Word word.now) }
    ensures word { IfSome result (λ w. w ≡ word.now) }
{
    match form.kind {
        Kind::Text => None,
        Kind::Number => EditWord::parse(word.as_slice(), form.length as u8).ok(),
    }
}

/// Returns how a field of this form is edited, if its code or word fits.
fn fitting_how(form: FieldForm, field: &OutputField) -> Option<How>
    requires { IsSized form }
    ensures how { result ≡ editing.fitting_how form field.now }
    ensures suited { IfSome result (λ how. editing.suits form how ≡ true) }
{
    match field.code {
        None => match &field.text {
            None => Some(How::Plain),
            Some(word) => Some(How::Word(fitting_word(form, word)?)),
        },
        Some(code) => {
            let fill = fill_in(&field.text)?;
            if suits_code(form, code, fill) {
                Some(How::Code { code, fill })
            } else {
                None
            }
        }
    }
}

/// Whether the fill is invalid, which is all that can be tested for a field without a form.
pub(crate) fn lacks_fill(field: &OutputField) -> bool
    ensures { result ≡ editing.unedited None field.now }
{
    let Some(code) = field.code else {
        return false;
    };
    match fill_in(&field.text) {
        None => true,
        Some(fill) => !code.takes(fill),
    }
}

#[inline(never)]
fn is_badly_edited(source: &IndexedCards, field: &OutputField) -> bool
    ensures { result ≡ editing.edits_badly source.now field.now }
{
    let Some(entry) = &field.operand else {
        return false;
    };
    match entry_form(source, entry) {
        None => lacks_fill(field),
        Some(form) => fitting_how(form, field).is_none(),
    }
}

/// Whether a field has neither a code nor a word. Most fields have none, so their forms aren't looked up.
fn is_unedited(field: &OutputField) -> bool
    ensures { result ≡ (is_none field.now.code && is_none field.now.text) }
{
    field.code.is_none() && field.text.is_none()
}

/// F17: an edit code or word that doesn't fit. Inlined, because it runs for every card.
#[inline(always)]
pub(crate) fn bad_editing(source: &IndexedCards, card: &SpecCard) -> bool
    ensures { result ≡ editing.bad_editing source.now card.now }
{
    match card.output_field() {
        None => false,
        Some(field) => {
            field.operand.is_some() && !is_unedited(field) && is_badly_edited(source, field)
        }
    }
}

// ---- widths

fn width_by(form: FieldForm, how: &How) -> usize
    requires sized { IsSized form }
    requires suited { editing.suits form how.now ≡ true }
    ensures { result ≡ width_of form.length form.decimals how.now }
{
    match form.kind {
        Kind::Text => usize::from(form.length),
        Kind::Number => rpg_edit_widths::width(form.length as u8, form.decimals, how),
    }
}

#[inline(never)]
fn edited_width(form: FieldForm, field: &OutputField) -> Option<usize>
    requires { IsSized form }
    ensures { result ≡ editing.edited_width form field.now }
{
    match fitting_how(form, field) {
        None => None,
        Some(how) => Some(width_by(form, &how)),
    }
}

/// Returns the width of an output field in columns; None if its code or word doesn't fit, or its name has no form.
#[inline(always)]
pub fn width(source: &IndexedCards, field: &OutputField) -> Option<usize>
    ensures { result ≡ editing.width source.now field.now }
{
    match &field.operand {
        None => constant_width(field),
        Some(entry) => field_width(source, entry, field),
    }
}

/// Returns the width of a named field. Without editing that is its length in storage.
#[inline(never)]
fn field_width(source: &IndexedCards, entry: &Entry, field: &OutputField) -> Option<usize>
    ensures { result ≡ option_and_then (λ form. editing.edited_width form field.now) (card_entry_form source.now entry.now) }
{
    let form = entry_form(source, entry)?;
    if is_unedited(field) {
        return Some(usize::from(form.length));
    }
    edited_width(form, field)
}

#[inline(always)]
fn constant_width(field: &OutputField) -> Option<usize>
    ensures { result ≡ editing.constant_width field.now }
{
    match field.code {
        None => Some(field.text.as_ref()?.as_slice().len()),
        Some(_) => None,
    }
}
