//! F16 of control fields and match fields: joined lengths that differ or are too long, and repeated match levels.

ghost use Rattle.std.specs.Prelude.{◌≡◌, ◌≤◌, ◌∷◌, ◌++◌, false, is_some, length, sum_by};
ghost use Rattle.std.specs.Option.{option_map_or};
ghost use Rattle.rpg_cards.specs.Cards.{input_on};
ghost use Rattle.rpg_cards.specs.Groups.{followers, input_role};
ghost use Rattle.rpg_cards.specs.Levels.{is_at, match_level};
ghost use Rattle.rpg_faults_places.specs.Joins as causes;
ghost use Rattle.rpg_faults_places.specs.JoinSums as sums;
ghost use Rattle.rpg_faults_places.specs.Lengths.{some_length};
ghost use Rattle.rpg_faults_places.specs.Places as rules;
ghost use Rattle.rpg_faults_places.specs.State.{IsPlaces};

use crate::columns::join_badly;
use crate::state::Places;
use rpg_card_index::IndexedCards;
use rpg_cards::SpecCard;
use rpg_sheet_specs::{ColumnRange, InputFieldSpec, InputSpec};

/// The most columns of a level, and of all match fields together.
const LIMIT: u32 = 256;

/// What is wrong with control fields and match fields.
#[derive(Clone, Copy)]
pub enum JoinCause {
    /// With this field its control level has this many columns in its type.
    LongLevel {
        level: u8,
        columns: u32,
    },
    /// The joined length of the control level differs from the type of that card.
    OtherLength {
        level: u8,
        length: u32,
        first: u32,
        card: u16,
    },
    /// That card already has the match level.
    MatchedTwice {
        level: u8,
        card: u16,
    },
    /// With this field the match fields of its type have this many columns.
    LongMatches {
        columns: u32,
    },
    /// The length of the match level differs from the type of that card; 0 is none.
    OtherMatches {
        level: u8,
        length: u32,
        first: u32,
        card: u16,
    },
}

/// The joined length of a control level, with its type's card.
#[derive(Clone, Copy)]
pub struct FirstLength {
    pub card: u16,
    pub length: u32,
}

/// The lengths of the match levels of a type, M1 first, with its card.
#[derive(Clone, Copy)]
pub struct FirstMatched {
    pub card: u16,
    pub lengths: [u32; 9],
}

impl JoinCause {
    /// Returns the columns of a card that the cause is about; None if a record type differs from others.
    pub fn range(self) -> Option<ColumnRange>
        ensures { result ≡ causes.join_range self }
    {
        match self {
            JoinCause::LongLevel { .. } => Some(ColumnRange::InputLevel),
            JoinCause::MatchedTwice { .. } | JoinCause::LongMatches { .. } => {
                Some(ColumnRange::InputMatch)
            }
            JoinCause::OtherLength { .. } | JoinCause::OtherMatches { .. } => None,
        }
    }
}

/// F16 of control fields and match fields: what is wrong with them. The cards are gone through only if something is.
pub fn join_cause(
    source: &IndexedCards,
    places: &Places,
    before: &[SpecCard],
    card: &SpecCard,
    after: &[SpecCard],
) -> Option<JoinCause>
    requires split { source.now ≡ before.now ++ card.now ∷ after.now }
    requires few { length source.now ≤ 2000 }
    requires places { IsPlaces source.now before.now places.now }
    ensures cause { result ≡ causes.join_cause before.now card.now after.now }
    ensures rule { is_some result ≡ option_map_or (rules.joins_badly before.now after.now) (input_on card.now.spec) false }
{
    let _ = source;
    if !join_badly(places, card, after) {
        return None;
    }
    on_card(before, card, after)
}

#[tactic(auto, unfolding(crate::specs::Joins::join_cause))]
fn on_card(before: &[SpecCard], card: &SpecCard, after: &[SpecCard]) -> Option<JoinCause>
    requires few { length before.now ≤ 2000 }
    requires few_after { length after.now ≤ 2000 }
    ensures { result ≡ causes.join_cause before.now card.now after.now }
{
    match card.input()? {
        InputSpec::Type(_) => {
            let lengths = other_length(before, after);
            if lengths.is_some() {
                return lengths;
            }
            other_matches(before, after)
        }
        InputSpec::And(_) => None,
        InputSpec::Field(field) => on_field(open_cards(before), field),
    }
}

fn on_field(own: &[SpecCard], field: &InputFieldSpec) -> Option<JoinCause>
    requires { length own.now ≤ 2000 }
    ensures { result ≡ causes.on_field own.now field.now }
{
    let level = level_cause(own, field);
    if level.is_some() {
        return level;
    }
    match_cause(own, field)
}

/// Returns the cards of the open type, without its own.
fn open_cards(before: &[SpecCard]) -> &[SpecCard]
    ensures own { result.now ≡ causes.open_cards before.now }
    ensures few { length result.now ≤ length before.now }
{
    let mut own = &before[..0];
    let mut rest = before;
    while let Some((card, following)) = rest.split_first() {
        if card.record_type().is_some() {
            own = following;
        }
        rest = following;
    }
    own
}

/// Returns how many columns a field has: 0 if they begin at 0 or are reversed.
fn columns_of(field: &InputFieldSpec) -> u32
    ensures value { result ≡ rules.input_columns field.now }
    ensures few { result ≤ 65535 }
{
    if field.from == 0 {
        return 0;
    }
    (field.to as u32 + 1).saturating_sub(field.from as u32)
}

// ---- control fields

fn is_at_level(level: u8, field: &InputFieldSpec) -> bool
    ensures { result ≡ rules.is_at_level level field.now }
{
    match field.level {
        None => false,
        Some(own) => own.number() == level,
    }
}

fn some_length(sum: u32) -> Option<u32>
    ensures { result ≡ some_length sum }
{
    if sum == 0 { None } else { Some(sum) }
}

/// Returns the joined length of a level up to the next type; None without a field, or with bad columns.
fn level_length(level: u8, cards: &[SpecCard]) -> Option<u32>
    requires { length cards.now ≤ 2000 }
    ensures { result ≡ rules.level_length level (followers input_role cards.now) }
{
    let mut sum = 0;
    for card in cards {
        match card.input() {
            Some(InputSpec::Type(_)) => return some_length(sum),
            Some(InputSpec::Field(field)) if is_at_level(level, field) => {
                let columns = columns_of(field);
                if columns == 0 {
                    return None;
                }
                sum += columns;
            }
            _ => {}
        }
    }
    some_length(sum)
}

/// Returns that of the first of these types with the level.
fn first_on(level: u8, cards: &[SpecCard]) -> Option<FirstLength>
    requires { length cards.now ≤ 2000 }
    ensures { result ≡ causes.first_on level cards.now }
{
    let mut rest = cards;
    while let Some((card, following)) = rest.split_first() {
        if card.record_type().is_some() {
            if let Some(length) = level_length(level, following) {
                let card = card.number;
                return Some(FirstLength { card, length });
            }
        }
        rest = following;
    }
    None
}

/// Returns a level of a type, if its joined length differs from the first one.
fn of_level(before: &[SpecCard], after: &[SpecCard], level: u8) -> Option<JoinCause>
    requires few { length before.now ≤ 2000 }
    requires few_after { length after.now ≤ 2000 }
    ensures { result ≡ causes.of_level before.now after.now level }
{
    let first = first_on(level, before)?;
    let length = level_length(level, after)?;
    if first.length == length {
        return None;
    }
    Some(JoinCause::OtherLength {
        level,
        length,
        first: first.length,
        card: first.card,
    })
}

/// Returns the first such level.
#[tactic(auto, using(crate::proofs::Ranges::level_from))]
fn other_length(before: &[SpecCard], after: &[SpecCard]) -> Option<JoinCause>
    requires few { length before.now ≤ 2000 }
    requires few_after { length after.now ≤ 2000 }
    ensures { result ≡ causes.other_length before.now after.now }
{
    for level in 1..=9 {
        let cause = of_level(before, after, level);
        if cause.is_some() {
            return cause;
        }
    }
    None
}

/// Returns the columns of a level up to the next type.
fn joined_length(level: u8, cards: &[SpecCard]) -> u32
    requires { length cards.now ≤ 2000 }
    ensures value { result ≡ rules.joined_length level (followers input_role cards.now) }
    ensures few { result ≤ 131070000 }
{
    let mut sum = 0;
    for card in cards {
        match card.input() {
            Some(InputSpec::Type(_)) => return sum,
            Some(InputSpec::Field(field)) if is_at_level(level, field) => sum += columns_of(field),
            _ => {}
        }
    }
    sum
}

/// Returns the cause if a field makes its level too long.
fn level_cause(own: &[SpecCard], field: &InputFieldSpec) -> Option<JoinCause>
    requires { length own.now ≤ 2000 }
    ensures { result ≡ causes.level_cause own.now field.now }
{
    let level = field.level?.number();
    let joined = joined_length(level, own);
    let columns = joined + columns_of(field);
    if joined <= LIMIT && LIMIT < columns {
        return Some(JoinCause::LongLevel { level, columns });
    }
    None
}

// ---- match fields

fn is_matched_at(level: u8, field: &InputFieldSpec) -> bool
    ensures { result ≡ is_at match_level level field.now }
{
    match field.match_level {
        None => false,
        Some(own) => own.number() == level,
    }
}

/// Returns the first card up to the next type with the match level.
fn matched_on(level: u8, cards: &[SpecCard]) -> Option<u16>
    ensures { result ≡ causes.matched_on level cards.now }
{
    for card in cards {
        match card.input() {
            Some(InputSpec::Type(_)) => return None,
            Some(InputSpec::Field(field)) if is_matched_at(level, field) => {
                return Some(card.number);
            }
            _ => {}
        }
    }
    None
}

/// Returns the columns of all match fields up to the next type.
fn matched_columns(cards: &[SpecCard]) -> u32
    requires { length cards.now ≤ 2000 }
    ensures value { result ≡ sum_by rules.input_columns (causes.matched cards.now) }
    ensures few { result ≤ 131070000 }
{
    let mut sum = 0;
    for card in cards {
        match card.input() {
            Some(InputSpec::Type(_)) => return sum,
            Some(InputSpec::Field(field)) if field.match_level.is_some() => {
                sum += columns_of(field);
            }
            _ => {}
        }
    }
    sum
}

/// Returns the cause if a field repeats a match level, or makes the match fields too long.
fn match_cause(own: &[SpecCard], field: &InputFieldSpec) -> Option<JoinCause>
    requires { length own.now ≤ 2000 }
    ensures { result ≡ causes.match_level_cause own.now field.now }
{
    let level = field.match_level?.number();
    if let Some(card) = matched_on(level, own) {
        return Some(JoinCause::MatchedTwice { level, card });
    }
    let joined = matched_columns(own);
    let columns = joined + columns_of(field);
    if joined <= LIMIT && LIMIT < columns {
        return Some(JoinCause::LongMatches { columns });
    }
    None
}

/// Whether there is a match field up to the next type.
fn has_matches(cards: &[SpecCard]) -> bool
    ensures { result ≡ sums.are_some (causes.matched cards.now) }
{
    for card in cards {
        match card.input() {
            Some(InputSpec::Type(_)) => return false,
            Some(InputSpec::Field(field)) if field.match_level.is_some() => return true,
            _ => {}
        }
    }
    false
}

/// Whether a field is a match field without columns, or the cards after it repeat its level.
#[tactic(auto, using(crate::proofs::JoinRule::matched_on_some))]
fn is_bad_match(field: &InputFieldSpec, following: &[SpecCard]) -> bool
    ensures { result ≡ sums.is_bad_match field.now (causes.matched following.now) }
{
    match field.match_level {
        None => false,
        Some(level) => columns_of(field) == 0 || matched_on(level.number(), following).is_some(),
    }
}

/// Whether there is such a field up to the next type.
fn has_bad_match(cards: &[SpecCard]) -> bool
    ensures { result ≡ sums.any_bad (causes.matched cards.now) }
{
    let mut rest = cards;
    while let Some((card, following)) = rest.split_first() {
        match card.input() {
            Some(InputSpec::Type(_)) => return false,
            Some(InputSpec::Field(field)) if is_bad_match(field, following) => return true,
            _ => {}
        }
        rest = following;
    }
    false
}

/// Returns the columns of a match level up to the next type.
fn match_length(level: u8, cards: &[SpecCard]) -> u32
    requires { length cards.now ≤ 2000 }
    ensures { result ≡ sums.match_length level cards.now }
{
    let mut sum = 0;
    for card in cards {
        match card.input() {
            Some(InputSpec::Type(_)) => return sum,
            Some(InputSpec::Field(field)) if is_matched_at(level, field) => {
                sum += columns_of(field);
            }
            _ => {}
        }
    }
    sum
}

/// Returns the lengths of the match levels up to the next type, if they are valid.
fn valid_matches(cards: &[SpecCard]) -> Option<[u32; 9]>
    requires { length cards.now ≤ 2000 }
    ensures { result ≡ rules.valid_matches (causes.matched cards.now) }
{
    valid_lengths(cards)
}

#[tactic(auto, unfolding(crate::specs::Places::levels))]
fn valid_lengths(cards: &[SpecCard]) -> Option<[u32; 9]>
    requires { length cards.now ≤ 2000 }
    ensures { result ≡ sums.valid_lengths (causes.matched cards.now) }
{
    if !has_matches(cards) || has_bad_match(cards) {
        return None;
    }
    Some([
        match_length(1, cards),
        match_length(2, cards),
        match_length(3, cards),
        match_length(4, cards),
        match_length(5, cards),
        match_length(6, cards),
        match_length(7, cards),
        match_length(8, cards),
        match_length(9, cards),
    ])
}

/// Returns those of the first of these types that has any.
fn first_matched(cards: &[SpecCard]) -> Option<FirstMatched>
    requires { length cards.now ≤ 2000 }
    ensures { result ≡ causes.first_matched cards.now }
{
    let mut rest = cards;
    while let Some((card, following)) = rest.split_first() {
        if card.record_type().is_some() {
            if let Some(lengths) = valid_matches(following) {
                let card = card.number;
                return Some(FirstMatched { card, lengths });
            }
        }
        rest = following;
    }
    None
}

/// Returns the first level at which the lengths differ.
fn apart(first: FirstMatched, own: &[u32; 9]) -> Option<JoinCause>
    ensures { result ≡ causes.first_difference first.card 1 first.lengths own.now }
{
    for (i, length) in own.iter().enumerate() {
        let other = first.lengths[i];
        if *length != other {
            return Some(JoinCause::OtherMatches {
                level: i as u8 + 1,
                length: *length,
                first: other,
                card: first.card,
            });
        }
    }
    None
}

/// Returns a level at which the match fields differ from the first type with any.
fn other_matches(before: &[SpecCard], after: &[SpecCard]) -> Option<JoinCause>
    requires few { length before.now ≤ 2000 }
    requires few_after { length after.now ≤ 2000 }
    ensures { result ≡ causes.other_matches before.now after.now }
{
    let first = first_matched(before)?;
    let own = valid_matches(after)?;
    apart(first, &own)
}
