//! The lowest-numbered broken rule, with its cause.

ghost use Rattle.std.specs.Prelude.{◌≡◌, MatchOption};
ghost use Rattle.rpg_program.specs.Kept.{IsProgram};
ghost use Rattle.rpg_program.specs.Object.{seen};
ghost use Rattle.rpg_refusal_causes.specs.Causes.{IsRefusalOf, cause_in};
ghost use Rattle.rpg_verify_rules.specs.Accepted.{IsAccepted, IsLeastBroken};

use crate::cause::{Refusal, RefusalCause};
use crate::lines::line_cause;
use crate::places::place_cause;
use crate::subroutines::subroutine_cause;
use crate::types::type_cause;
use rpg_program::Program;
use rpg_program::rows::Rows;
use rpg_verify::first_broken;
use rpg_verify_rules::{BrokenRule, Rule};

#[tactic(auto, unfolding(crate::specs::Causes::cause_in))]
fn cause_in(rows: &Rows, broken: BrokenRule) -> Option<RefusalCause>
    requires { IsProgram (seen rows.now) }
    ensures { result ≡ cause_in (seen rows.now) broken.rule broken.row }
{
    match broken.rule {
        Rule::Overflow => Some(RefusalCause::Overflow {
            indicator: rows.overflow.indicator?,
        }),
        Rule::Type(rule) => type_cause(rule, rows, broken.row),
        Rule::Line(rule) => line_cause(rule, rows, broken.row),
        Rule::Place(rule) => place_cause(rule, rows, broken.row),
        Rule::Subroutine(rule) => subroutine_cause(rule, rows, broken.row),
    }
}

/// Returns the refusal of a program by its lowest-numbered broken rule.
fn refusal_by(rows: &Rows, broken: BrokenRule) -> Option<Refusal>
    requires program { IsProgram (seen rows.now) }
    requires broken { IsLeastBroken (seen rows.now) broken }
    ensures { MatchOption result ⊥ (λ r. IsRefusalOf (seen rows.now) r) }
{
    match cause_in(rows, broken) {
        None => None,
        Some(cause) => Some(Refusal { broken, cause }),
    }
}

fn refusal_of(rows: &Rows) -> Option<Refusal>
    requires { IsProgram (seen rows.now) }
    ensures { MatchOption result (IsAccepted (seen rows.now)) (λ r. IsRefusalOf (seen rows.now) r) }
{
    match first_broken(rows) {
        None => None,
        Some(broken) => refusal_by(rows, broken),
    }
}

/// Returns the lowest-numbered rule that a program breaks, with its first row and what in that row breaks it; None if no row
/// breaks a rule. Allocates nothing.
pub fn refusal(program: &Program) -> Option<Refusal>
    ensures { MatchOption result (IsAccepted program.now) (λ r. IsRefusalOf program.now r) }
{
    refusal_of(program.rows())
}
