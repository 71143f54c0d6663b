//! The lowest-numbered rule that is broken, and its first row.

ghost use Rattle.std.specs.Prelude.{◌≡◌, MatchOption, option_map};
ghost use Rattle.rpg_program.specs.Kept.{IsProgram};
ghost use Rattle.rpg_program.specs.Object.{seen};
ghost use Rattle.rpg_verify_rules.specs.Accepted.{IsAccepted, IsLeastBroken};
ghost use Rattle.rpg_verify_rules.specs.Least.{first_true};
ghost use Rattle.rpg_verify_rules.specs.Least as leasts;
ghost use Rattle.rpg_verify_rules.specs.Rules as rules;

use crate::places::first_place;
use crate::tables::{first_line, first_subroutine, first_type};
use rpg_program::rows::Rows;
use rpg_verify_rules::{BrokenRule, LineRule, PlaceRule, Rule, SubroutineRule, TypeRule};

/// All rules, in numeric order.
pub const RULES: [Rule; 26] = [
    Rule::Overflow,
    Rule::Line(LineRule::V2),
    Rule::Type(TypeRule::V3),
    Rule::Type(TypeRule::V4),
    Rule::Type(TypeRule::V5),
    Rule::Type(TypeRule::V6),
    Rule::Type(TypeRule::V7),
    Rule::Line(LineRule::V8),
    Rule::Line(LineRule::V9),
    Rule::Line(LineRule::V10),
    Rule::Line(LineRule::V11),
    Rule::Line(LineRule::V12),
    Rule::Line(LineRule::V13),
    Rule::Line(LineRule::V14),
    Rule::Line(LineRule::V15),
    Rule::Place(PlaceRule::V16),
    Rule::Place(PlaceRule::V17),
    Rule::Place(PlaceRule::V18),
    Rule::Place(PlaceRule::V19),
    Rule::Place(PlaceRule::V20),
    Rule::Place(PlaceRule::V21),
    Rule::Place(PlaceRule::V22),
    Rule::Subroutine(SubroutineRule::V23),
    Rule::Subroutine(SubroutineRule::V24),
    Rule::Type(TypeRule::V25),
    Rule::Type(TypeRule::V26),
];

/// Returns the lowest-numbered broken rule, with its first row, if any rule is broken. Allocates nothing.
pub fn first_broken(rows: &Rows) -> Option<BrokenRule>
    requires { IsProgram (seen rows.now) }
    ensures { MatchOption result (IsAccepted (seen rows.now)) (λ b. IsLeastBroken (seen rows.now) b) }
{
    first_of(&RULES, rows)
}

fn first_of(order: &[Rule], rows: &Rows) -> Option<BrokenRule>
    requires { IsProgram (seen rows.now) }
    ensures { option_map (λ b. (b.rule, b.row)) result ≡ leasts.first_broken rules.rule_number (rules.broken (seen rows.now)) order.now }
{
    for rule in order {
        match first_row(*rule, rows) {
            Some(row) => return Some(BrokenRule { rule: *rule, row }),
            None => {}
        }
    }
    None
}

fn first_row(rule: Rule, rows: &Rows) -> Option<usize>
    requires { IsProgram (seen rows.now) }
    ensures { result ≡ first_true 0 (rules.broken (seen rows.now) rule) }
{
    match rule {
        Rule::Overflow => first_overflow(rows),
        Rule::Type(rule) => first_type(rule, rows),
        Rule::Line(rule) => first_line(rule, rows),
        Rule::Place(rule) => first_place(rule, rows),
        Rule::Subroutine(rule) => first_subroutine(rule, rows),
    }
}

/// V1: an overflow indicator requires a printer.
#[tactic(auto, unfolding(rpg_verify_rules::specs::Rules::broken))]
fn first_overflow(rows: &Rows) -> Option<usize>
    ensures { result ≡ first_true 0 (rules.broken (seen rows.now) Rule.Overflow) }
{
    if rows.overflow.indicator.is_some() && rows.printer_length == 0 {
        Some(0)
    } else {
        None
    }
}
