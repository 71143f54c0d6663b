//! What in a record type breaks V3 to V7, V25 and V26.

ghost use Rattle.std.specs.Prelude.{◌≡◌, map, slice_get};
ghost use Rattle.rpg_program.specs.Object.{seen, type_row};
ghost use Rattle.rpg_refusal_causes.specs.First.{cause_of_row, first_cause};
ghost use Rattle.rpg_refusal_causes.specs.TypeCauses as words;

use crate::cause::RefusalCause;
use crate::joined::{levels_cause, matches_cause};
use rpg_program::input::{ControlField, InputField, RecordCode};
use rpg_program::rows::{RecordType, Rows};
use rpg_verify_rules::TypeRule;
use rpg_verify_rules::matches::{first_widths, has_level};
use rpg_verify_rules::types::{is_code_in, is_control_in, is_input_in, measures, shows_wrongly};

/// Returns what in a row's record type breaks a rule, if it does.
#[tactic(auto, using(crate::proofs::AtRows::row_seen))]
pub(crate) fn type_cause(rule: TypeRule, rows: &Rows, row: usize) -> Option<RefusalCause>
    ensures { result ≡ cause_of_row (words.type_cause rule (seen rows.now)) (slice_get (map type_row rows.now.types.items) row) }
{
    cause_in_type(rule, rows, rows.types.get(row)?)
}

#[tactic(auto, unfolding(crate::specs::TypeCauses::type_cause))]
fn cause_in_type(rule: TypeRule, rows: &Rows, record_type: &RecordType) -> Option<RefusalCause>
    ensures { result ≡ words.type_cause rule (seen rows.now) (type_row record_type.now) }
{
    let length = rows.input_length(record_type.file);
    match rule {
        TypeRule::V3 => code_cause(length, &record_type.codes),
        TypeRule::V4 => Some(RefusalCause::TurnedOn {
            indicator: record_type.indicator?,
        }),
        TypeRule::V5 => control_cause(length, &record_type.levels).or(levels_cause(
            &measures(&rows.types),
            &record_type.levels,
        )),
        TypeRule::V6 => input_cause(rows, length, &record_type.inputs),
        TypeRule::V7 => shown_cause(rows, length, &record_type.inputs),
        TypeRule::V25 => Some(RefusalCause::NoSecondary),
        TypeRule::V26 => match_cause(length, &record_type.matches).or(matches_cause(
            &first_widths(&rows.types),
            &record_type.matches,
        )),
    }
}

fn code_cause(length: u16, codes: &[RecordCode]) -> Option<RefusalCause>
    ensures { result ≡ first_cause (words.code_cause length) 0 codes.now }
{
    for (at, code) in codes.iter().enumerate() {
        if !is_code_in(length, code) {
            return Some(RefusalCause::Code {
                at,
                position: code.position,
                columns: length,
            });
        }
    }
    None
}

fn control_cause(length: u16, fields: &[ControlField]) -> Option<RefusalCause>
    ensures { result ≡ first_cause (words.control_cause length) 0 fields.now }
{
    for (at, field) in fields.iter().enumerate() {
        if !is_control_in(length, field) {
            return Some(RefusalCause::Control {
                at,
                field: *field,
                columns: length,
            });
        }
    }
    None
}

fn match_cause(length: u16, fields: &[ControlField]) -> Option<RefusalCause>
    ensures { result ≡ first_cause (words.match_cause length fields.now) 0 fields.now }
{
    for (at, field) in fields.iter().enumerate() {
        if !is_control_in(length, field) {
            return Some(RefusalCause::Match {
                at,
                field: *field,
                columns: length,
            });
        }
        if has_level(field.level, &fields[..at]) {
            return Some(RefusalCause::Twice {
                at,
                level: field.level,
            });
        }
    }
    None
}

fn input_cause(rows: &Rows, length: u16, inputs: &[InputField<u16>]) -> Option<RefusalCause>
    ensures { result ≡ first_cause (words.input_cause (seen rows.now) length) 0 inputs.now }
{
    for (at, input) in inputs.iter().enumerate() {
        if !is_input_in(rows, length, input) {
            return Some(RefusalCause::Input {
                at,
                input: *input,
                columns: length,
            });
        }
    }
    None
}

fn shown_cause(rows: &Rows, length: u16, inputs: &[InputField<u16>]) -> Option<RefusalCause>
    ensures { result ≡ first_cause (words.shown_cause (seen rows.now) length) 0 inputs.now }
{
    for (at, input) in inputs.iter().enumerate() {
        if shows_wrongly(rows, length, input) {
            return Some(RefusalCause::Shown { at, input: *input });
        }
    }
    None
}
