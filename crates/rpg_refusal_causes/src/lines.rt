//! What in an output line breaks V2 and V8 to V15.

ghost use Rattle.std.specs.Prelude.{◌≡◌, map, slice_get};
ghost use Rattle.rpg_program.specs.Kept.{IsProgram};
ghost use Rattle.rpg_program.specs.Object.{seen, line_row};
ghost use Rattle.rpg_refusal_causes.specs.First.{cause_of_row, first_cause};
ghost use Rattle.rpg_refusal_causes.specs.LineCauses as words;

use crate::cause::RefusalCause;
use rpg_program::condition::Condition;
use rpg_program::line::LineField;
use rpg_program::rows::{Line, Rows, Version};
use rpg_verify_rules::LineRule;
use rpg_verify_rules::lines::{
    are_all_testable, blanks_wrongly, has_untestable_condition, is_field_there, lacks_editing,
    lacks_room, lacks_word,
};

/// Returns what in a row's line breaks a rule, if it does.
#[tactic(auto, using(crate::proofs::AtRows::row_seen))]
pub(crate) fn line_cause(rule: LineRule, rows: &Rows, row: usize) -> Option<RefusalCause>
    requires { IsProgram (seen rows.now) }
    ensures { result ≡ cause_of_row (words.line_cause rule (seen rows.now)) (slice_get (map line_row rows.now.lines.items) row) }
{
    cause_in_line(rule, rows, rows.lines.get(row)?)
}

#[tactic(auto, unfolding(crate::specs::LineCauses::line_cause))]
fn cause_in_line(rule: LineRule, rows: &Rows, line: &Line) -> Option<RefusalCause>
    requires { IsProgram (seen rows.now) }
    ensures { result ≡ words.line_cause rule (seen rows.now) (line_row line.now) }
{
    match rule {
        LineRule::V2 => Some(RefusalCause::NoFile),
        LineRule::V8 => Some(RefusalCause::Movements {
            spacing: line.spacing,
        }),
        LineRule::V9 => alternative_cause(rows.version, &line.alternatives),
        LineRule::V10
        | LineRule::V11
        | LineRule::V12
        | LineRule::V13
        | LineRule::V14
        | LineRule::V15 => field_cause(rule, rows, rows.file_length(line.file), &line.fields),
    }
}

fn alternative_cause(version: Version, alternatives: &[Vec<Condition>]) -> Option<RefusalCause>
    ensures { result ≡ first_cause (words.alternative_cause version) 0 (map (λ a. a.items) alternatives.now) }
{
    for (at, alternative) in alternatives.iter().enumerate() {
        if !are_all_testable(version, alternative) {
            return Some(RefusalCause::Alternative { at });
        }
    }
    None
}

fn field_cause(
    rule: LineRule,
    rows: &Rows,
    length: u16,
    fields: &[LineField<u16>],
) -> Option<RefusalCause>
    requires { IsProgram (seen rows.now) }
    ensures { result ≡ first_cause (words.line_field_cause rule (seen rows.now) length) 0 fields.now }
{
    for (at, field) in fields.iter().enumerate() {
        if breaks(rule, rows, length, field) {
            return Some(RefusalCause::Field { at, field: *field });
        }
    }
    None
}

fn breaks(rule: LineRule, rows: &Rows, length: u16, field: &LineField<u16>) -> bool
    requires { IsProgram (seen rows.now) }
    ensures { result ≡ words.field_breaks rule (seen rows.now) length field.now }
{
    match rule {
        LineRule::V10 => !is_field_there(rows, field),
        LineRule::V11 => lacks_editing(rows, field),
        LineRule::V12 => lacks_word(rows, field),
        LineRule::V13 => lacks_room(rows, length, field),
        LineRule::V14 => blanks_wrongly(rows, length, field),
        LineRule::V15 => has_untestable_condition(rows, length, field),
        LineRule::V2 | LineRule::V8 | LineRule::V9 => false,
    }
}
