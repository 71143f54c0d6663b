//! V2 and V8 to V15: output lines.

ghost use Rattle.std.specs.Prelude.{◌≡◌, true, map, Some};
ghost use Rattle.std.specs.List.{list_all, list_any};
ghost use Rattle.std.specs.Global.{Vec};
ghost use Rattle.rpg_edit_marks.specs.How.{width_of};
ghost use Rattle.rpg_program.specs.Editing as edits;
ghost use Rattle.rpg_program.specs.Forms as forms;
ghost use Rattle.rpg_program.specs.LineFaults as faults;
ghost use Rattle.rpg_program.specs.Constants.{word_at};
ghost use Rattle.rpg_program.specs.Kept.{IsFieldRow, IsProgram};
ghost use Rattle.rpg_program.specs.Object.{seen, line_row};
ghost use Rattle.rpg_verify_rules.specs.Indicators as marks;
ghost use Rattle.rpg_verify_rules.specs.LineRules as words;

use crate::indicators::{all_testable, is_testable};
use crate::rule::LineRule;
use crate::words::{edit_word_width, is_edit_word};
use rpg_edit_marks::Fill;
use rpg_edit_widths::{How, width};
use rpg_program::columns::{has_entry, is_one_entry};
use rpg_program::condition::Condition;
use rpg_program::form::{FieldForm, Kind, same_kind};
use rpg_program::forms::{
    decimals_of, form_at, is_index_form, is_text_constant, kind_of, length_of, may_write,
};
use rpg_program::line::{Editing, File, LineField, Source, Spacing};
use rpg_program::rows::{Line, Rows, Version};

/// Whether a line breaks a rule.
#[tactic(auto, using(crate::proofs::Lists::not_all), unfolding(crate::specs::LineRules::line_breaks))]
pub fn breaks(rule: LineRule, rows: &Rows, line: &Line) -> bool
    requires { IsProgram (seen rows.now) }
    ensures { result ≡ words.line_breaks rule (seen rows.now) (line_row line.now) }
{
    match rule {
        LineRule::V2 => rows.file_length(line.file) == 0,
        LineRule::V8 => !is_spaced_on(rows.overflow.page.lines, line.file, line.spacing),
        LineRule::V9 => !are_alternatives_testable(rows.version, &line.alternatives),
        LineRule::V10
        | LineRule::V11
        | LineRule::V12
        | LineRule::V13
        | LineRule::V14
        | LineRule::V15 => any_field_breaks(rule, rows, rows.file_length(line.file), &line.fields),
    }
}

fn is_spaced_on(lines: u8, file: File, s: Spacing) -> bool
    ensures { result ≡ words.is_spaced_on lines file s }
{
    match file {
        File::Printer => {
            (s.space_before <= 3 && s.space_after <= 3)
                && (s.skip_before <= lines && s.skip_after <= lines)
        }
        File::Disk => {
            (s.space_before == 0 && s.space_after == 0) && (s.skip_before == 0 && s.skip_after == 0)
        }
    }
}

// ---- alternatives

pub fn are_all_testable(version: Version, conditions: &[Condition]) -> bool
    ensures { result ≡ list_all (marks.is_testable version) conditions.now }
{
    for condition in conditions {
        if !is_testable(version, condition) {
            return false;
        }
    }
    true
}

fn are_alternatives_testable(version: Version, alternatives: &[Vec<Condition>]) -> bool
    ensures { result ≡ list_all (list_all (marks.is_testable version)) (map (λ a. a.items) alternatives.now) }
{
    for conditions in alternatives {
        if !are_all_testable(version, conditions) {
            return false;
        }
    }
    true
}

// ---- whether fields exist, and may be blanked

fn is_source_of(source: Source, form: Option<FieldForm>) -> bool
    ensures { result ≡ faults.fits_source source form }
{
    match source {
        Source::Value => true,
        Source::Page => is_index_form(form) && length_of(form) == 4,
    }
}

pub fn is_field_there(rows: &Rows, field: &LineField<u16>) -> bool
    ensures { result ≡ words.is_field_there (seen rows.now) field.now }
{
    (has_entry(rows, field.operand) && is_one_entry(rows, field.operand))
        && is_source_of(field.source, form_at(rows, field.operand.field))
}

fn is_blanked_writable(rows: &Rows, field: &LineField<u16>) -> bool
    ensures { result ≡ faults.blanks_writable (forms.form_at rows.now.fields.items) (word_at (seen rows.now)) field.now }
{
    !field.is_blanked || may_write(form_at(rows, field.operand.field))
}

// ---- editing

fn edits_form(form: Option<FieldForm>, editing: Editing<u16>, fill: Fill) -> bool
    ensures { result ≡ words.edits_form form editing fill }
{
    match editing {
        Editing::Plain => fill.is_blank(),
        Editing::Code(code) => {
            same_kind(kind_of(form), Kind::Number)
                && code.fits(fill, length_of(form), decimals_of(form))
        }
        Editing::Word(_) => same_kind(kind_of(form), Kind::Number) && fill.is_blank(),
    }
}

fn is_field_edited(rows: &Rows, field: &LineField<u16>) -> bool
    ensures { result ≡ words.is_field_edited (seen rows.now) field.now }
{
    edits_form(
        form_at(rows, field.operand.field),
        field.editing,
        field.fill,
    )
}

pub fn lacks_editing(rows: &Rows, field: &LineField<u16>) -> bool
    ensures { result ≡ words.lacks_editing (seen rows.now) field.now }
{
    is_field_there(rows, field) && !is_field_edited(rows, field)
}

// ---- edit words

/// The digits of a number, 0 if there is no field.
fn digits_of(rows: &Rows, field: u16) -> u8
    requires program { IsProgram (seen rows.now) }
    requires number { forms.same_kind (forms.kind_of (forms.form_at rows.now.fields.items field)) Kind.Number ≡ true }
    ensures { result ≡ forms.length_of (forms.form_at rows.now.fields.items field) }
{
    length_of(form_at(rows, field)) as u8
}

fn is_field_worded(rows: &Rows, field: &LineField<u16>) -> bool
    requires program { IsProgram (seen rows.now) }
    requires edited { words.is_field_edited (seen rows.now) field.now ≡ true }
    ensures { result ≡ words.is_field_worded (seen rows.now) field.now }
{
    match field.editing {
        Editing::Plain => true,
        Editing::Code(_) => true,
        Editing::Word(word) => is_edit_word(rows, word, digits_of(rows, field.operand.field)),
    }
}

pub fn lacks_word(rows: &Rows, field: &LineField<u16>) -> bool
    requires { IsProgram (seen rows.now) }
    ensures { result ≡ words.lacks_word (seen rows.now) field.now }
{
    is_field_there(rows, field) && (is_field_edited(rows, field) && !is_field_worded(rows, field))
}

// ---- room

/// Whether the edit word, if there is one, is a text constant.
fn names_text(rows: &Rows, editing: Editing<u16>) -> bool
    ensures { result ≡ words.names_text (seen rows.now) editing }
{
    match editing {
        Editing::Plain => true,
        Editing::Code(_) => true,
        Editing::Word(word) => is_text_constant(form_at(rows, word)),
    }
}

/// The width of a number in a line.
fn number_width(rows: &Rows, form: FieldForm, editing: Editing<u16>, fill: Fill) -> usize
    requires row { IsFieldRow form }
    requires number { form.kind ≡ Kind.Number }
    requires text { words.names_text (seen rows.now) editing ≡ true }
    ensures { result ≡ width_of form.length form.decimals (edits.how_of (word_at (seen rows.now)) editing fill) }
{
    let digits = form.length as u8;
    match editing {
        Editing::Plain => width(digits, form.decimals, &How::Plain),
        Editing::Code(code) => width(digits, form.decimals, &How::Code { code, fill }),
        Editing::Word(word) => edit_word_width(rows, word),
    }
}

fn field_width(rows: &Rows, form: FieldForm, editing: Editing<u16>, fill: Fill) -> usize
    requires row { IsFieldRow form }
    requires text { words.names_text (seen rows.now) editing ≡ true }
    ensures { result ≡ edits.width_as form.kind (Some form) (edits.how_of (word_at (seen rows.now)) editing fill) }
{
    match form.kind {
        Kind::Number => number_width(rows, form, editing, fill),
        Kind::Text => usize::from(form.length),
    }
}

/// Whether a field begins and ends inside a line of this length.
fn has_room(rows: &Rows, length: u16, field: &LineField<u16>) -> bool
    requires program { IsProgram (seen rows.now) }
    requires width { words.may_have_width (seen rows.now) field.now ≡ true }
    ensures { result ≡ faults.has_room (forms.form_at rows.now.fields.items) (word_at (seen rows.now)) length field.now }
{
    match form_at(rows, field.operand.field) {
        None => unreachable!(),
        Some(form) => {
            field_width(rows, form, field.editing, field.fill) <= usize::from(field.end)
                && field.end <= length
        }
    }
}

/// Whether the field exists and its editing is valid, with any edit word a text constant. Doesn't test whether the word fits.
fn may_have_width(rows: &Rows, field: &LineField<u16>) -> bool
    requires { IsProgram (seen rows.now) }
    ensures { result ≡ words.may_have_width (seen rows.now) field.now }
{
    is_field_there(rows, field) && (is_field_edited(rows, field) && names_text(rows, field.editing))
}

/// Whether an otherwise valid field has no room in its line. Tests last, and only for such a field, whether its word fits.
pub fn lacks_room(rows: &Rows, length: u16, field: &LineField<u16>) -> bool
    requires { IsProgram (seen rows.now) }
    ensures { result ≡ words.lacks_room (seen rows.now) length field.now }
{
    may_have_width(rows, field) && (!has_room(rows, length, field) && is_field_worded(rows, field))
}

// ---- requirements on fields that fit

fn has_width(rows: &Rows, field: &LineField<u16>) -> bool
    requires { IsProgram (seen rows.now) }
    ensures { result ≡ words.has_width (seen rows.now) field.now }
{
    is_field_there(rows, field) && (is_field_edited(rows, field) && is_field_worded(rows, field))
}

/// Whether V10 to V13 allow a field in a line of this length.
fn fits_line(rows: &Rows, length: u16, field: &LineField<u16>) -> bool
    requires { IsProgram (seen rows.now) }
    ensures { result ≡ words.fits_line (seen rows.now) length field.now }
{
    has_width(rows, field) && has_room(rows, length, field)
}

pub fn blanks_wrongly(rows: &Rows, length: u16, field: &LineField<u16>) -> bool
    requires { IsProgram (seen rows.now) }
    ensures { result ≡ words.blanks_wrongly (seen rows.now) length field.now }
{
    !is_blanked_writable(rows, field) && fits_line(rows, length, field)
}

pub fn has_untestable_condition(rows: &Rows, length: u16, field: &LineField<u16>) -> bool
    requires { IsProgram (seen rows.now) }
    ensures { result ≡ words.has_untestable_condition (seen rows.now) length field.now }
{
    !all_testable(rows.version, field.conditions)
        && (is_blanked_writable(rows, field) && fits_line(rows, length, field))
}

// ---- all fields of a line

/// Whether a field breaks a rule in a line of this length. No field breaks V2, V8 or V9, which are about the line itself.
fn field_breaks(rule: LineRule, rows: &Rows, length: u16, field: &LineField<u16>) -> bool
    requires { IsProgram (seen rows.now) }
    ensures { result ≡ words.field_breaks rule (seen rows.now) length field.now }
{
    match rule {
        LineRule::V2 | LineRule::V8 | LineRule::V9 => false,
        LineRule::V10 => !is_field_there(rows, field),
        LineRule::V11 => lacks_editing(rows, field),
        LineRule::V12 => lacks_word(rows, field),
        LineRule::V13 => lacks_room(rows, length, field),
        LineRule::V14 => blanks_wrongly(rows, length, field),
        LineRule::V15 => has_untestable_condition(rows, length, field),
    }
}

fn any_field_breaks(rule: LineRule, rows: &Rows, length: u16, fields: &[LineField<u16>]) -> bool
    requires { IsProgram (seen rows.now) }
    ensures { result ≡ list_any (words.field_breaks rule (seen rows.now) length) fields.now }
{
    for field in fields {
        if field_breaks(rule, rows, length, field) {
            return true;
        }
    }
    false
}
