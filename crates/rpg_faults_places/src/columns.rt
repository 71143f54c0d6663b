//! F16 of control fields and match fields: a quick test.

ghost use Rattle.std.specs.Prelude.{◌≡◌, ◌≤◌, length};
ghost use Rattle.std.specs.List.{list_any};
ghost use Rattle.rpg_cards.specs.Groups.{followers, input_role};
ghost use Rattle.rpg_faults_places.specs.Before.{DetectsInput};
ghost use Rattle.rpg_faults_places.specs.Joined.{has_joined_field};
ghost use Rattle.rpg_faults_places.specs.Places as rules;
ghost use Rattle.rpg_faults_places.specs.State.{IsPlaces};

use crate::state::Places;
use rpg_cards::SpecCard;
use rpg_sheet_specs::InputSpec;

/// Whether the control or match fields of a record type don't agree with each other or with those of earlier types.
#[inline(never)]
pub(crate) fn join_badly(places: &Places, card: &SpecCard, after: &[SpecCard]) -> bool
    requires { length after.now ≤ 2000 }
    ensures { DetectsInput IsPlaces rules.joins_badly card.now after.now places.now result }
{
    (card.record_type().is_none() || has_level(after))
        && (places.lengths.join_badly(card, after) || places.matches.join_badly(card, after))
}

/// Whether a field up to the next record type has a control or match level.
pub(crate) fn has_level(after: &[SpecCard]) -> bool
    ensures { result ≡ list_any has_joined_field (followers input_role after.now) }
{
    for card in after {
        match card.input() {
            Some(InputSpec::Type(_)) => return false,
            Some(InputSpec::Field(field)) if field.level.is_some() || field.match_level.is_some() =>
                {
                    return true;
                }
            _ => {}
        }
    }
    false
}
