//! V5 and V26: control fields and match fields whose joined lengths differ or are too long.

ghost use Rattle.std.specs.Prelude.{◌≡◌};
ghost use Rattle.rpg_refusal_causes.specs.TypeCauses as words;

use crate::cause::RefusalCause;
use rpg_program::input::ControlField;
use rpg_verify_rules::matches::joined_in_all;
use rpg_verify_rules::types::{is_measured, joined};

fn level_cause(level: u8, columns: u128, first: u128) -> RefusalCause
    ensures { result ≡ words.level_length_cause level columns first }
{
    if columns <= 256 {
        RefusalCause::OtherLevel {
            level,
            columns,
            first,
        }
    } else {
        RefusalCause::LongLevel { level, columns }
    }
}

/// Returns the first level whose joined length differs from the first type with it, or is over 256.
pub(crate) fn levels_cause(measures: &[u128; 9], fields: &[ControlField]) -> Option<RefusalCause>
    ensures { result ≡ words.levels_cause 1 measures.now fields.now }
{
    let mut level = 1;
    for measure in measures {
        let columns = joined(level, fields);
        if !is_measured(*measure, columns) {
            return Some(level_cause(level, columns, *measure));
        }
        level += 1;
    }
    None
}

/// Returns the first level whose match fields don't have this joined length.
fn widths_cause(widths: &[u128; 9], fields: &[ControlField]) -> Option<RefusalCause>
    ensures { result ≡ words.widths_cause 1 widths.now fields.now }
{
    let mut level = 1;
    for first in widths {
        let columns = joined(level, fields);
        if columns != *first {
            return Some(RefusalCause::OtherMatches {
                level,
                columns,
                first: *first,
            });
        }
        level += 1;
    }
    None
}

/// Returns match fields of more than 256 columns together, or a level whose joined length differs from the first type with
/// match fields.
pub(crate) fn matches_cause(widths: &[u128; 9], fields: &[ControlField]) -> Option<RefusalCause>
    ensures { result ≡ words.matches_cause widths.now fields.now }
{
    let columns = joined_in_all(fields);
    if columns > 256 {
        return Some(RefusalCause::LongMatches { columns });
    }
    widths_cause(widths, fields)
}
