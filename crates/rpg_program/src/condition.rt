//! Conditions.

ghost use Rattle.std.specs.Prelude.{◌≡◌};
ghost use Rattle.rpg_program.specs.Control as words;

/// A condition that an indicator (1 to 129) is on or, if negated, off.
#[derive(Clone, Copy)]
pub struct Condition {
    pub indicator: u8,
    pub is_negated: bool,
}

/// Three places for conditions, any of which may be empty.
#[derive(Clone, Copy)]
pub struct Conditions {
    pub first: Option<Condition>,
    pub second: Option<Condition>,
    pub third: Option<Condition>,
}

/// Whether any of the three is filled.
pub fn has_conditions(conditions: Conditions) -> bool
    ensures { result ≡ words.has_conditions conditions }
{
    conditions.first.is_some() || (conditions.second.is_some() || conditions.third.is_some())
}
