//! W3: overlapping fields of a line.

ghost use Rattle.std.specs.Prelude.{◌≡◌, [], ◌∷◌, ◌++◌, OnOk, find};
ghost use Rattle.rpg_warnings_lines.specs.Overlaps as overlaps;

use crate::warning::{Warning, WarningKind};
use rpg_card_index::IndexedCards;
use rpg_cards::SpecCard;
use rpg_faults_operands::width;
use rpg_sheet_specs::{ColumnFault, OutputField};
use std::alloc::AllocError;

/// The columns of an end position.
const END: ColumnFault = ColumnFault {
    column: 40,
    last: 43,
};

/// The places of a line that a card's field occupies, from 1.
#[derive(Clone, Copy)]
pub struct Placed {
    pub card: u16,
    pub first: usize,
    pub last: usize,
}

/// Whether a field is written with each line: one with conditions may overlap another.
pub(crate) fn is_always_out(field: &OutputField) -> bool
    ensures { result ≡ overlaps.is_always_out field.now }
{
    let conditions = field.conditions;
    conditions.first.is_none() && conditions.second.is_none() && conditions.third.is_none()
}

#[tactic(auto, unfolding(crate::specs::Overlaps::field_places_on))]
fn placed_on(source: &IndexedCards, card: &SpecCard) -> Option<Placed>
    ensures { result ≡ overlaps.field_places_on source.now card.now }
{
    let field = card.output_field()?;
    if !is_always_out(field) {
        return None;
    }
    let width = width(source, field)?;
    let last = usize::from(field.end);
    Some(Placed {
        card: card.number,
        first: (last + 1).saturating_sub(width),
        last,
    })
}

#[tactic(auto, unfolding(crate::specs::Overlaps::meet))]
fn meet(a: &Placed, b: &Placed) -> bool
    ensures { result ≡ overlaps.meet a.now b.now }
{
    a.first <= b.last && b.first <= a.last
}

/// Returns the first of these fields that overlaps `field`.
fn first_below(placed: &[Placed], field: &Placed) -> Option<Placed>
    ensures { result ≡ find (overlaps.meet field.now) placed.now }
{
    for below in placed {
        if meet(field, below) {
            return Some(*below);
        }
    }
    None
}

/// Appends a warning if a field overlaps another of its line, and notes the field's places.
fn note(
    warnings: &mut Vec<Warning>,
    placed: &mut Vec<Placed>,
    field: Placed,
) -> Result<(), AllocError>
    ensures warnings { OnOk result (warnings.new.items ≡ warnings.old.items ++ overlaps.warned placed.old.items field) }
    ensures placed { OnOk result (placed.new.items ≡ placed.old.items ++ field ∷ []) }
{
    if let Some(below) = first_below(placed, &field) {
        warnings.push(Warning {
            card: field.card,
            columns: END,
            kind: WarningKind::Overlap {
                first: field.first,
                last: field.last,
                card: below.card,
            },
        })?;
    }
    placed.push(field)?;
    Ok(())
}

/// Appends the warnings of all lines, in the order of their cards. A field is compared with those before it on its line.
pub(crate) fn put_overlaps(
    warnings: &mut Vec<Warning>,
    placed: &mut Vec<Placed>,
    source: &IndexedCards,
) -> Result<(), AllocError>
    ensures { OnOk result (warnings.new.items ≡ warnings.old.items ++ overlaps.overlaps_from source.now placed.old.items source.now) }
{
    for card in source.as_slice() {
        if card.line().is_some() {
            placed.clear();
        }
        if let Some(field) = placed_on(source, card) {
            note(warnings, placed, field)?;
        }
    }
    Ok(())
}
