//! The first record type, line or subroutine that breaks a rule.

ghost use Rattle.std.specs.Prelude.{◌≡◌, map};
ghost use Rattle.std.specs.List.{position};
ghost use Rattle.rpg_program.specs.Kept.{IsProgram};
ghost use Rattle.rpg_program.specs.Object.{seen, line_row, subroutine_row, type_row};
ghost use Rattle.rpg_verify_rules.specs.Least.{first_true};
ghost use Rattle.rpg_verify_rules.specs.LineRules as line_words;
ghost use Rattle.rpg_verify_rules.specs.PlaceRules as place_words;
ghost use Rattle.rpg_verify_rules.specs.Rules as rules;
ghost use Rattle.rpg_verify_rules.specs.TypeRules as type_words;
ghost use Rattle.rpg_verify_rules.specs.declared.rule.Rule.TheVariants as rule_names;
ghost use Rattle.rpg_verify_rules.specs.declared.rule.SubroutineRule.TheVariants as rule_kinds;

use rpg_program::rows::{Rows, Subroutine};
use rpg_verify_rules::matches::first_widths;
use rpg_verify_rules::subroutines::{has_return, is_body};
use rpg_verify_rules::types::measures;
use rpg_verify_rules::{LineRule, SubroutineRule, TypeRule, lines, types};

/// Returns the first record type that breaks a rule.
#[tactic(auto, using(rpg_verify_rules::proofs::Lists::position_seen), unfolding(rpg_verify_rules::specs::Rules::broken))]
pub(crate) fn first_type(rule: TypeRule, rows: &Rows) -> Option<usize>
    ensures { result ≡ first_true 0 (rules.broken (seen rows.now) (rule_names.Type rule)) }
{
    let measures = measures(&rows.types);
    let widths = first_widths(&rows.types);
    first_type_by(rule, rows, &measures, &widths)
}

fn first_type_by(
    rule: TypeRule,
    rows: &Rows,
    measures: &[u128; 9],
    widths: &[u128; 9],
) -> Option<usize>
    requires measures { measures.now ≡ type_words.measures (map type_row rows.now.types.items) }
    requires widths { widths.now ≡ type_words.joined_widths (type_words.first_matches (map type_row rows.now.types.items)) }
    ensures { result ≡ position (λ t. type_words.type_breaks rule (seen rows.now) (type_row t)) rows.now.types.items }
{
    rows.types
        .iter()
        .position(|t| types::breaks(rule, rows, measures, widths, t))
}

/// Returns the first line that breaks a rule.
#[tactic(auto, using(rpg_verify_rules::proofs::Lists::position_seen), unfolding(rpg_verify_rules::specs::Rules::broken))]
pub(crate) fn first_line(rule: LineRule, rows: &Rows) -> Option<usize>
    requires { IsProgram (seen rows.now) }
    ensures { result ≡ first_true 0 (rules.broken (seen rows.now) (rule_names.Line rule)) }
{
    first_line_by(rule, rows)
}

fn first_line_by(rule: LineRule, rows: &Rows) -> Option<usize>
    requires { IsProgram (seen rows.now) }
    ensures { result ≡ position (λ l. line_words.line_breaks rule (seen rows.now) (line_row l)) rows.now.lines.items }
{
    rows.lines.iter().position(|l| lines::breaks(rule, rows, l))
}

/// Returns the first subroutine that breaks a rule, 0 if detail or total calculations do.
#[tactic(auto, using(rpg_verify_rules::proofs::Lists::levels), unfolding(rpg_verify_rules::specs::Rules::broken))]
pub(crate) fn first_subroutine(rule: SubroutineRule, rows: &Rows) -> Option<usize>
    requires { IsProgram (seen rows.now) }
    ensures { result ≡ first_true 0 (rules.broken (seen rows.now) (rule_names.Subroutine rule)) }
{
    match rule {
        SubroutineRule::V23 => first_unended(rows),
        SubroutineRule::V24 => first_off_level(&rows.subroutines),
    }
}

fn first_unended(rows: &Rows) -> Option<usize>
    requires { IsProgram (seen rows.now) }
    ensures { result ≡ first_true 0 (rules.subroutines_broken rule_kinds.V23 (seen rows.now)) }
{
    if has_return(&rows.detail) || has_return(&rows.total) {
        return Some(0);
    }
    first_bad_body(&rows.subroutines)
}

fn first_off_level(subroutines: &[Subroutine]) -> Option<usize>
    ensures { result ≡ position (λ s. place_words.is_off_level (subroutine_row s)) subroutines.now }
{
    subroutines
        .iter()
        .position(|s| !(1 <= s.level && s.level <= 100))
}

fn first_bad_body(subroutines: &[Subroutine]) -> Option<usize>
    ensures { result ≡ first_true 0 (place_words.bodies_judged 0 (map subroutine_row subroutines.now)) }
{
    let mut number = 0;
    for subroutine in subroutines {
        if !is_body(number, &subroutine.instructions) {
            return Some(number);
        }
        number += 1;
    }
    None
}
