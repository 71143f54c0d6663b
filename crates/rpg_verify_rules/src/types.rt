//! V3 to V7, V25 and V26: record types.

ghost use Rattle.std.specs.Prelude.{◌≡◌, ◌≤◌, ◌^◌, map};
ghost use Rattle.std.specs.List.{list_all, list_any};
ghost use Rattle.rpg_program.specs.Input as inputs;
ghost use Rattle.rpg_program.specs.Object.{seen, type_row};
ghost use Rattle.rpg_verify_rules.specs.TypeRules as words;

use crate::indicators::{are_settable, is_of_type};
use crate::matches::are_matches;
use crate::rule::TypeRule;
use rpg_program::form::{Kind, is_plain};
use rpg_program::forms::{form_at, kind_of};
use rpg_program::input::{ControlField, InputField, RecordCode};
use rpg_program::operation::Shows;
use rpg_program::rows::{RecordType, Rows};

/// Whether a record type breaks a rule, given the joined lengths of the first types that have each level or match fields.
#[tactic(auto, unfolding(crate::specs::TypeRules::type_breaks))]
pub fn breaks(
    rule: TypeRule,
    rows: &Rows,
    measures: &[u128; 9],
    widths: &[u128; 9],
    record_type: &RecordType,
) -> bool
    requires measures { measures.now ≡ words.measures (map type_row rows.now.types.items) }
    requires widths { widths.now ≡ words.joined_widths (words.first_matches (map type_row rows.now.types.items)) }
    ensures { result ≡ words.type_breaks rule (seen rows.now) (type_row record_type.now) }
{
    let length = rows.input_length(record_type.file);
    match rule {
        TypeRule::V3 => !are_codes_in(length, &record_type.codes),
        TypeRule::V4 => !is_of_type(record_type.indicator),
        TypeRule::V5 => {
            !(are_controls_in(length, &record_type.levels)
                && all_measured(measures, &record_type.levels))
        }
        TypeRule::V6 => !are_inputs_in(rows, length, &record_type.inputs),
        TypeRule::V7 => show_wrongly(rows, length, &record_type.inputs),
        TypeRule::V25 => !rows.has_file(record_type.file),
        TypeRule::V26 => !are_matches(length, widths, &record_type.matches),
    }
}

/// The columns of a control field if it is of this level; 0 if their order is reversed.
fn columns_at(level: u8, field: &ControlField) -> u128
    ensures value { result ≡ words.columns_at level field.now }
    ensures few { result ≤ 65536 }
{
    if field.level == level {
        (u128::from(field.to) + 1).saturating_sub(u128::from(field.from))
    } else {
        0
    }
}

/// The columns of all control fields of a level.
pub fn joined(level: u8, fields: &[ControlField]) -> u128
    ensures value { result ≡ words.joined_width level fields.now }
    ensures few { result ≤ 2 ^ 80 }
{
    let mut sum = 0;
    for field in fields {
        sum += columns_at(level, field);
    }
    sum
}

/// The joined length of the first type that has the level.
fn measure(level: u8, types: &[RecordType]) -> u128
    ensures { result ≡ words.measure level (map type_row types.now) }
{
    for record_type in types {
        let n = joined(level, &record_type.levels);
        if n != 0 {
            return n;
        }
    }
    0
}

pub fn measures(types: &[RecordType]) -> [u128; 9]
    ensures { result ≡ words.measures (map type_row types.now) }
{
    [
        measure(1, types),
        measure(2, types),
        measure(3, types),
        measure(4, types),
        measure(5, types),
        measure(6, types),
        measure(7, types),
        measure(8, types),
        measure(9, types),
    ]
}

pub fn is_measured(measure: u128, n: u128) -> bool
    ensures { result ≡ words.is_measured measure n }
{
    n == 0 || (n <= 256 && n == measure)
}

#[tactic(auto, using(crate::proofs::Measures::measured_on, crate::proofs::Measures::not_measured))]
fn all_measured(measures: &[u128; 9], fields: &[ControlField]) -> bool
    ensures { result ≡ words.all_measured 1 measures.now fields.now }
{
    let mut level = 1;
    for measure in measures {
        if !is_measured(*measure, joined(level, fields)) {
            return false;
        }
        level += 1;
    }
    true
}

pub fn is_code_in(length: u16, code: &RecordCode) -> bool
    ensures { result ≡ words.is_code_in length code.now }
{
    1 <= code.position && code.position <= length
}

fn are_codes_in(length: u16, codes: &[RecordCode]) -> bool
    ensures { result ≡ list_all (words.is_code_in length) codes.now }
{
    for code in codes {
        if !is_code_in(length, code) {
            return false;
        }
    }
    true
}

pub fn is_control_in(length: u16, field: &ControlField) -> bool
    ensures { result ≡ words.is_control_in length field.now }
{
    1 <= field.from && (field.from <= field.to && field.to <= length)
}

pub(crate) fn are_controls_in(length: u16, fields: &[ControlField]) -> bool
    ensures { result ≡ list_all (words.is_control_in length) fields.now }
{
    for field in fields {
        if !is_control_in(length, field) {
            return false;
        }
    }
    true
}

pub fn is_input_in(rows: &Rows, length: u16, field: &InputField<u16>) -> bool
    ensures { result ≡ words.is_input_in (seen rows.now) length field.now }
{
    match form_at(rows, field.field) {
        None => false,
        Some(form) => {
            (1 <= field.from && (field.from <= field.to && field.to <= length))
                && (is_plain(form.class) && field.to - field.from + 1 == form.length)
        }
    }
}

fn are_inputs_in(rows: &Rows, length: u16, fields: &[InputField<u16>]) -> bool
    ensures { result ≡ list_all (words.is_input_in (seen rows.now) length) fields.now }
{
    for field in fields {
        if !is_input_in(rows, length, field) {
            return false;
        }
    }
    true
}

/// Whether the indicators suit the kind: a text shows only blanks.
fn fits_shows(kind: Kind, shows: Shows) -> bool
    ensures { result ≡ inputs.fits_shows kind shows }
{
    match kind {
        Kind::Number => true,
        Kind::Text => !(shows.plus.is_some() || shows.minus.is_some()),
    }
}

fn is_input_shown(rows: &Rows, field: &InputField<u16>) -> bool
    ensures { result ≡ words.is_input_shown (seen rows.now) field.now }
{
    are_settable(field.shows) && fits_shows(kind_of(form_at(rows, field.field)), field.shows)
}

pub fn shows_wrongly(rows: &Rows, length: u16, field: &InputField<u16>) -> bool
    ensures { result ≡ words.shows_wrongly (seen rows.now) length field.now }
{
    !is_input_shown(rows, field) && is_input_in(rows, length, field)
}

fn show_wrongly(rows: &Rows, length: u16, fields: &[InputField<u16>]) -> bool
    ensures { result ≡ list_any (words.shows_wrongly (seen rows.now) length) fields.now }
{
    for field in fields {
        if shows_wrongly(rows, length, field) {
            return true;
        }
    }
    false
}
