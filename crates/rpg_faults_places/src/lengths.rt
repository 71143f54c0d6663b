//! The joined lengths of control fields.

ghost use Rattle.std.specs.Prelude.{◌≡◌, ◌≤◌, [], List, length, min};
ghost use Rattle.rpg_cards.specs.Groups.{followers, input_role};
ghost use Rattle.rpg_cards.specs.declared.spec_card.SpecCard.{SpecCard};
ghost use Rattle.rpg_faults_places.specs.Before.{IncludesCard, IncludesField, DetectsInput};
ghost use Rattle.rpg_faults_places.specs.Places as rules;
ghost use Rattle.rpg_faults_places.specs.Lengths.{AreJoinedLengths, AreOpenLengths, any_differs, lengths_of, some_length, with_lengths};

use crate::columns::has_level;
use rpg_cards::SpecCard;
use rpg_sheet_specs::{InputFieldSpec, InputSpec};

/// The greatest joined length of a level.
const LIMIT: u16 = 256;

/// The joined lengths of the control levels, L1 first.
#[derive(Clone, Copy)]
pub(crate) struct JoinedLengths {
    /// The lengths in the first type that has the level.
    first: [Option<u32>; 9],
    /// The lengths of the open type's fields so far; longer ones count as `u16::MAX`.
    open_type: Option<[u16; 9]>,
}

impl JoinedLengths {
    /// Returns the state before the first card.
    pub(crate) fn nothing() -> Self
        ensures { (cards : List SpecCard) → AreJoinedLengths cards [] result }
    {
        JoinedLengths {
            first: [None; 9],
            open_type: None,
        }
    }

    /// Returns the state after one more card, given those after it.
    pub(crate) fn with(self, card: &SpecCard, after: &[SpecCard]) -> Self
        requires { length after.now ≤ 2000 }
        ensures { IncludesCard AreJoinedLengths card.now after.now self result }
    {
        let first = self.first;
        match card.input() {
            Some(InputSpec::Type(_)) => {
                let first = with_type(first, after);
                JoinedLengths {
                    first,
                    open_type: Some([0; 9]),
                }
            }
            Some(InputSpec::Field(field)) => JoinedLengths {
                first,
                open_type: with_field(self.open_type, field),
            },
            Some(InputSpec::And(_)) => self,
            None => self,
        }
    }

    /// Whether a type's joined lengths differ from those of the first types with its levels, or a field puts its level over the limit.
    pub(crate) fn join_badly(&self, card: &SpecCard, after: &[SpecCard]) -> bool
        requires { length after.now ≤ 2000 }
        ensures { DetectsInput AreJoinedLengths rules.controls_badly card.now after.now self.now result }
    {
        match card.input() {
            Some(InputSpec::Type(_)) => self.differ_from(after),
            Some(InputSpec::Field(field)) => self.pass_limit_with(field),
            _ => false,
        }
    }

    /// Whether a type's joined lengths differ from the first ones.
    fn differ_from(&self, after: &[SpecCard]) -> bool
        requires { length after.now ≤ 2000 }
        ensures { result ≡ any_differs self.now.first (followers input_role after.now) }
    {
        for level in 1..=9 {
            let first = self.first[level as usize - 1];
            if is_other(first, level_length(level, after)) {
                return true;
            }
        }
        false
    }

    /// Whether a field puts the joined length of its level over the limit.
    pub(crate) fn pass_limit_with(&self, field: &InputFieldSpec) -> bool
        ensures { (before : List SpecCard) → AreOpenLengths before self.now → result ≡ rules.passes_length before field.now }
    {
        let Some(level) = field.level else {
            return false;
        };
        let joined = self.open_length(level.number());
        joined <= LIMIT && joined.saturating_add(columns_of(field)) > LIMIT
    }

    /// Returns the joined length of a level in the open type.
    fn open_length(&self, level: u8) -> u16
        requires low { 1 ≤ level }
        requires high { level ≤ 9 }
        ensures { (before : List SpecCard) → AreOpenLengths before self.now → result ≡ min (rules.joined_length level (rules.open_specs before)) 65535 }
    {
        match self.open_type {
            None => 0,
            Some(lengths) => lengths[level as usize - 1],
        }
    }
}

/// Adds the lengths of another type to the first lengths. Most types have no control or match fields.
fn with_type(first: [Option<u32>; 9], after: &[SpecCard]) -> [Option<u32>; 9]
    requires { length after.now ≤ 2000 }
    ensures { result ≡ with_lengths first (followers input_role after.now) }
{
    if has_level(after) {
        with_levels(first, after)
    } else {
        first
    }
}

/// Adds the lengths of another type, level by level.
fn with_levels(first: [Option<u32>; 9], after: &[SpecCard]) -> [Option<u32>; 9]
    requires { length after.now ≤ 2000 }
    ensures { result ≡ with_lengths first (followers input_role after.now) }
{
    let mut first = first;
    for level in 1..=9 {
        let i = level as usize - 1;
        first[i] = first[i].or(level_length(level, after));
    }
    first
}

/// Adds a field to the lengths of the open type.
fn with_field(open_type: Option<[u16; 9]>, field: &InputFieldSpec) -> Option<[u16; 9]>
    ensures { IncludesField lengths_of field.now open_type result }
{
    let mut lengths = open_type?;
    if let Some(level) = field.level {
        let i = level.number() as usize - 1;
        lengths[i] = lengths[i].saturating_add(columns_of(field));
    }
    Some(lengths)
}

fn is_other(first: Option<u32>, own: Option<u32>) -> bool
    ensures { result ≡ rules.lengths_differ first own }
{
    match (first, own) {
        (Some(first), Some(own)) => first != own,
        _ => false,
    }
}

/// Returns the joined length of a level's fields up to the next record type; None without a field, or with bad columns.
fn level_length(level: u8, after: &[SpecCard]) -> Option<u32>
    requires { length after.now ≤ 2000 }
    ensures { result ≡ rules.level_length level (followers input_role after.now) }
{
    let mut sum = 0;
    for card in after {
        match card.input() {
            Some(InputSpec::Type(_)) => return some_length(sum),
            Some(InputSpec::Field(field)) if is_at_level(level, field) => {
                let columns = columns_of(field);
                if columns == 0 {
                    return None;
                }
                sum += columns as u32;
            }
            _ => {}
        }
    }
    some_length(sum)
}

fn some_length(sum: u32) -> Option<u32>
    ensures { result ≡ some_length sum }
{
    if sum == 0 { None } else { Some(sum) }
}

fn is_at_level(level: u8, field: &InputFieldSpec) -> bool
    ensures { result ≡ rules.is_at_level level field.now }
{
    match field.level {
        None => false,
        Some(own) => own.number() == level,
    }
}

/// Returns how many columns a field has: 0 if they begin at 0 or are reversed.
pub(crate) fn columns_of(field: &InputFieldSpec) -> u16
    ensures { result ≡ rules.input_columns field.now }
{
    if field.from == 0 {
        return 0;
    }
    field.to.saturating_sub(field.from - 1)
}
