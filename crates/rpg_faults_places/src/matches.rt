//! The match fields of record types.

ghost use Rattle.std.specs.Prelude.{◌≡◌, ◌+◌, ◌-◌, ◌≤◌, [], ◌∷◌, ◌++◌, ◌&&◌, List, false, nat_le, nat_lt, slice_index_or};
ghost use Rattle.rpg_cards.specs.Groups.{followers, input_role};
ghost use Rattle.rpg_cards.specs.declared.spec_card.SpecCard.{SpecCard};
ghost use Rattle.rpg_faults_places.specs.Matches.{AddsMatch, AreValid, AreMatches, AreOpenMatches, MakesOf, matches_of};
ghost use Rattle.rpg_faults_places.specs.Before.{IncludesCard, IncludesField, DetectsInput};
ghost use Rattle.rpg_faults_places.specs.Places as rules;
ghost use Rattle.rpg_sheet_specs.specs.declared.input.InputFieldSpec.{InputFieldSpec};
ghost use Rattle.rpg_sheet_specs.specs.declared.input.InputSpec.{InputSpec};
ghost use Rattle.rpg_sheet_specs.specs.declared.input.InputSpec.TheVariants as input;

use crate::lengths::columns_of;
use rpg_cards::SpecCard;
use rpg_sheet_specs::{InputFieldSpec, InputSpec};

/// The greatest total length of a type's match fields.
const LIMIT: u16 = 256;

/// The match fields of a type so far.
#[derive(Clone, Copy)]
pub(crate) struct OpenMatches {
    /// Whether a field has the level, M1 first.
    levels: [bool; 9],
    /// The total length of the fields; longer ones count as `u16::MAX`.
    length: u16,
}

/// The match fields of record types.
#[derive(Clone, Copy)]
pub(crate) struct Matches {
    /// The lengths of M1 to M9 in the first type that has match fields, all of them valid.
    first: Option<[u16; 9]>,
    open_type: Option<OpenMatches>,
}

/// What one more card does to the match fields of a type.
#[derive(Clone, Copy)]
enum Further {
    /// It belongs to another type.
    OtherType,
    /// A level appears twice, or the columns are bad.
    Bad,
    /// The lengths including those of the card.
    Lengths(Option<[u16; 9]>),
}

impl OpenMatches {
    /// The match fields before the first field of a type.
    const NONE: OpenMatches = OpenMatches {
        levels: [false; 9],
        length: 0,
    };

    fn with(self, field: &InputFieldSpec) -> Self
        ensures { (specs : List InputSpec) → self ≡ matches_of specs → result ≡ matches_of (specs ++ input.Field field.now ∷ []) }
    {
        match field.match_level {
            None => self,
            Some(level) => {
                let mut levels = self.levels;
                levels[level.number() as usize - 1] = true;
                OpenMatches {
                    levels,
                    length: self.length.saturating_add(columns_of(field)),
                }
            }
        }
    }

    /// Whether the level of a match field is already there, or the field puts the total length over its limit.
    fn refuse(self, field: &InputFieldSpec) -> bool
        ensures { (specs : List InputSpec) → self ≡ matches_of specs → result ≡ rules.refuses (rules.matched_fields specs) field.now }
    {
        match field.match_level {
            None => false,
            Some(level) => self.has(level.number()) || self.pass_limit_with(columns_of(field)),
        }
    }

    fn has(self, level: u8) -> bool
        requires low { 1 ≤ level }
        requires high { level ≤ 9 }
        ensures { result ≡ slice_index_or self.levels (level - 1) false }
    {
        self.levels[level as usize - 1]
    }

    /// Whether this many more columns put the length over its limit.
    fn pass_limit_with(self, columns: u16) -> bool
        ensures { result ≡ (nat_le self.length 256 && nat_lt 256 (self.length + columns)) }
    {
        self.length <= LIMIT && self.length.saturating_add(columns) > LIMIT
    }
}

impl Matches {
    /// Returns the state before the first card.
    pub(crate) fn nothing() -> Self
        ensures { (cards : List SpecCard) → AreMatches cards [] result }
    {
        Matches {
            first: None,
            open_type: None,
        }
    }

    /// Returns the state after one more card, given those after it.
    pub(crate) fn with(self, card: &SpecCard, after: &[SpecCard]) -> Self
        ensures { IncludesCard AreMatches card.now after.now self result }
    {
        let first = self.first;
        match card.input() {
            Some(InputSpec::Type(_)) => {
                let own = valid_matches(after);
                let first = first.or(own);
                Matches {
                    first,
                    open_type: Some(OpenMatches::NONE),
                }
            }
            Some(InputSpec::Field(field)) => Matches {
                first,
                open_type: with_field(self.open_type, field),
            },
            Some(InputSpec::And(_)) => self,
            None => self,
        }
    }

    /// Whether a type's match fields differ from those of the first type that has some, or a field repeats a match level or makes the
    /// fields too long.
    pub(crate) fn join_badly(&self, card: &SpecCard, after: &[SpecCard]) -> bool
        ensures { DetectsInput AreMatches rules.matches_badly card.now after.now self.now result }
    {
        match card.input() {
            Some(InputSpec::Type(_)) => {
                let own = valid_matches(after);
                are_other(self.first, own)
            }
            Some(InputSpec::Field(field)) => {
                let matches = self.of_open_type();
                matches.refuse(field)
            }
            _ => false,
        }
    }

    /// Returns the match fields of the open type, empty if no type is open.
    fn of_open_type(&self) -> OpenMatches
        ensures { (before : List SpecCard) → AreOpenMatches before self.now → result ≡ matches_of (rules.open_specs before) }
    {
        match self.open_type {
            None => OpenMatches::NONE,
            Some(matches) => matches,
        }
    }
}

/// Adds a field to the match fields of the open type.
fn with_field(open_type: Option<OpenMatches>, field: &InputFieldSpec) -> Option<OpenMatches>
    ensures { IncludesField matches_of field.now open_type result }
{
    Some(open_type?.with(field))
}

fn are_other(first: Option<[u16; 9]>, own: Option<[u16; 9]>) -> bool
    ensures { result ≡ rules.matches_differ first own }
{
    match (first, own) {
        (Some(first), Some(own)) => first != own,
        _ => false,
    }
}

/// Returns the lengths of M1 to M9 up to the next record type; None without a match field, or if a level appears twice or columns are bad.
fn valid_matches(after: &[SpecCard]) -> Option<[u16; 9]>
    ensures { result ≡ rules.valid_matches (rules.matched_fields (followers input_role after.now)) }
{
    let mut found = None;
    let mut rest = after;
    'cards: while let Some((card, following)) = rest.split_first() {
        match matches_on(found, card) {
            Further::OtherType => return found,
            Further::Bad => return None,
            Further::Lengths(lengths) => found = lengths,
        }
        rest = following;
    }
    found
}

/// Adds a card to the lengths of the match fields before it.
fn matches_on(found: Option<[u16; 9]>, card: &SpecCard) -> Further
    ensures { (fs : List InputFieldSpec) → AreValid fs found → MakesOf fs card.now found result }
{
    match card.input() {
        Some(InputSpec::Type(_)) => Further::OtherType,
        Some(InputSpec::Field(field)) => match field.match_level {
            None => Further::Lengths(found),
            Some(level) => match lengths_with(found, level.number(), columns_of(field)) {
                None => Further::Bad,
                Some(lengths) => Further::Lengths(Some(lengths)),
            },
        },
        Some(InputSpec::And(_)) => Further::Lengths(found),
        None => Further::Lengths(found),
    }
}

/// Adds a field to the lengths; None if its level is already there, or its columns are bad.
fn lengths_with(found: Option<[u16; 9]>, level: u8, columns: u16) -> Option<[u16; 9]>
    requires low { 1 ≤ level }
    requires high { level ≤ 9 }
    ensures { AddsMatch level columns found result }
{
    let mut lengths = found.unwrap_or([0; 9]);
    let i = level as usize - 1;
    if columns == 0 {
        return None;
    }
    let before = lengths[i];
    if before == 0 {
        lengths[i] = columns;
        Some(lengths)
    } else {
        None
    }
}
