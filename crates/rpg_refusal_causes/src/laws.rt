//! Which rows have a cause.

ghost use Rattle.std.specs.Prelude.{ℕ, ◌↔◌, IsSome};
ghost use Rattle.rpg_program.specs.Object.{Object};
ghost use Rattle.rpg_refusal_causes.specs.Causes.{refusal_cause_of};
ghost use Rattle.rpg_verify_rules.specs.Least.{IsBroken};
ghost use Rattle.rpg_verify_rules.specs.Rules.{broken, rule_number};
ghost use Rattle.rpg_verify_rules.specs.declared.rule.Rule.{Rule};

/// A row has a cause exactly if it breaks the rule.
pub fn broken_rows_have_causes()
    ensures { (p : Object) (r : Rule) (row : ℕ) → IsSome (refusal_cause_of p r row) ↔ IsBroken rule_number (broken p) r row }
{}
