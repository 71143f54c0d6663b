//! V26: match fields.

ghost use Rattle.std.specs.Prelude.{◌≡◌, map};
ghost use Rattle.std.specs.List.{list_any, sum};
ghost use Rattle.rpg_program.specs.Object.{type_row};
ghost use Rattle.rpg_verify_rules.specs.TypeRules as words;

use crate::types::{are_controls_in, joined};
use rpg_program::input::ControlField;
use rpg_program::rows::RecordType;

/// The joined lengths of levels 1 to 9.
fn joined_widths(fields: &[ControlField]) -> [u128; 9]
    ensures { result ≡ words.joined_widths fields.now }
{
    [
        joined(1, fields),
        joined(2, fields),
        joined(3, fields),
        joined(4, fields),
        joined(5, fields),
        joined(6, fields),
        joined(7, fields),
        joined(8, fields),
        joined(9, fields),
    ]
}

/// The columns of levels 1 to 9 together.
pub fn joined_in_all(fields: &[ControlField]) -> u128
    ensures { result ≡ sum (words.joined_widths fields.now) }
{
    joined(1, fields)
        + joined(2, fields)
        + joined(3, fields)
        + joined(4, fields)
        + joined(5, fields)
        + joined(6, fields)
        + joined(7, fields)
        + joined(8, fields)
        + joined(9, fields)
}

/// The joined lengths in the first type that has match fields.
pub fn first_widths(types: &[RecordType]) -> [u128; 9]
    ensures { result ≡ words.joined_widths (words.first_matches (map type_row types.now)) }
{
    for record_type in types {
        if !record_type.matches.is_empty() {
            return joined_widths(&record_type.matches);
        }
    }
    [0; 9]
}

pub fn has_level(level: u8, fields: &[ControlField]) -> bool
    ensures { result ≡ list_any (words.is_of_level level) fields.now }
{
    for field in fields {
        if field.level == level {
            return true;
        }
    }
    false
}

/// Whether each level appears once at most.
fn are_once(fields: &[ControlField]) -> bool
    ensures { result ≡ words.are_once fields.now }
{
    let mut following = 1;
    for field in fields {
        if has_level(field.level, &fields[following..]) {
            return false;
        }
        following += 1;
    }
    true
}

/// Whether there are no match fields, or their levels have these joined lengths.
fn are_joined_as(widths: &[u128; 9], fields: &[ControlField]) -> bool
    ensures { result ≡ words.are_joined_as widths.now fields.now }
{
    fields.is_empty() || joined_widths(fields) == *widths
}

/// Whether match fields are valid in a record of this length, given the joined lengths of the first type that has some.
pub(crate) fn are_matches(length: u16, widths: &[u128; 9], fields: &[ControlField]) -> bool
    ensures { result ≡ words.are_matches length widths.now fields.now }
{
    are_controls_in(length, fields)
        && (are_once(fields) && (joined_in_all(fields) <= 256 && are_joined_as(widths, fields)))
}
