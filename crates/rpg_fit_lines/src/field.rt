//! Output fields: names, ends, constants and widths.

use rpg_edit_marks::{EditCode, Fill};
use rpg_edit_widths::{How, width};
use rpg_fit_deck::{Card, View};
use rpg_fit_words::{Constant, Form, Operand, form_of};
use rpg_text::trimmed;

/// Returns the name that a field prints, which may have an index.
pub(crate) fn name_on(field: &Card) -> &[u8] {
    field.value(32, 37)
}

/// Returns where a field ends; 0 if that isn't a number.
pub(crate) fn end_on(field: &Card) -> usize {
    field.number(40, 43).unwrap_or(0)
}

/// Returns the constant or edit word in columns 45 to 70.
fn constant_on(field: &Card) -> Constant {
    Constant::of(trimmed(field.columns(45, 70)))
}

/// Returns the form of what a field prints, or None if nothing defines it.
fn form_on(view: &View, field: &Card) -> Option<Form> {
    form_of(view, Operand::of(name_on(field)).name)
}

/// Returns the form and the edit word of a number that a field edits by a word.
pub(crate) fn worded(view: &View, field: &Card) -> Option<(Form, Constant)> {
    if field.is_blank(32, 37) || !field.is_blank(38, 38) || field.is_blank(45, 70) {
        return None;
    }
    match form_on(view, field) {
        Some(form) if form.is_number() => Some((form, constant_on(field))),
        _ => None,
    }
}

/// Returns how many columns a field fills. A name that nothing defines fills one.
pub(crate) fn width_on(view: &View, field: &Card) -> usize {
    let constant = constant_on(field);
    if field.is_blank(32, 37) {
        return constant.text().len();
    }
    match (form_on(view, field), EditCode::of(field.column(38))) {
        (None, _) => 1,
        (Some(form), Some(code)) if form.is_number() => coded_width(form, code, constant.text()),
        (Some(form), None) if form.is_number() && !field.is_blank(45, 70) => constant.text().len(),
        (Some(form), _) => form.length,
    }
}

/// Returns how many columns a number fills that is edited by a code.
fn coded_width(form: Form, code: EditCode, fill: &[u8]) -> usize {
    let decimals = form.places();
    if form.length == 0 || form.length > 15 || decimals > form.length {
        return form.length;
    }
    let fill = Fill::of(fill).unwrap_or(Fill::Blank);
    width(form.length as u8, decimals as u8, &How::Code { code, fill })
}
