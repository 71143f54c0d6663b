//! The least value that is noted for each name.

ghost use Rattle.std.specs.Prelude.{◌≡◌, [], ◌∷◌, ◌++◌, ◌<◌, ℕ, length, IfOk, OnOk};
ghost use Rattle.rpg_warnings_lines.specs.Marks as marks;

use std::alloc::{AllocError, Global};

/// What a name without a value has: more than each card and level.
pub(crate) const NONE: u16 = u16::MAX;

/// A value of a name, which is given by its place among the different names of a source.
#[derive(Clone, Copy)]
pub struct Mark {
    pub place: u64,
    pub value: u16,
}

/// Notes a value for a name, if there is one.
pub(crate) fn put_mark(
    noted: &mut Vec<Mark>,
    place: Option<u64>,
    value: u16,
) -> Result<(), AllocError>
    ensures { OnOk result (noted.new.items ≡ noted.old.items ++ marks.mark_of value place) }
{
    if let Some(place) = place {
        noted.push(Mark { place, value })?;
    }
    Ok(())
}

/// Makes room for a place.
fn grow(least: &mut Vec<u16>, place: usize) -> Result<(), AllocError>
    ensures within { OnOk result (place < length least.new.items) }
    ensures same { OnOk result ((i : ℕ) → marks.least_at i least.new.items ≡ marks.least_at i least.old.items) }
{
    while least.len() <= place {
        least.push(NONE)?;
    }
    Ok(())
}

/// Notes a value, if it is the least so far.
pub(crate) fn lower(least: &mut Vec<u16>, mark: Mark) -> Result<(), AllocError>
    ensures { OnOk result (marks.Lowers (mark ∷ []) least.old.items least.new.items) }
{
    let place = mark.place as usize;
    grow(least, place)?;
    if mark.value < least[place] {
        least[place] = mark.value;
    }
    Ok(())
}

/// Notes a value for a name, if there is one, and the value is the least so far.
pub(crate) fn lower_at(
    least: &mut Vec<u16>,
    place: Option<u64>,
    value: u16,
) -> Result<(), AllocError>
    ensures { OnOk result (marks.Lowers (marks.mark_of value place) least.old.items least.new.items) }
{
    match place {
        None => Ok(()),
        Some(place) => lower(least, Mark { place, value }),
    }
}

/// Notes a value for each of these names, if it is the least so far.
#[tactic(auto, using(crate::proofs::Noting::lowers_more))]
pub(crate) fn lower_each(
    least: &mut Vec<u16>,
    places: &[Option<u64>],
    value: u16,
) -> Result<(), AllocError>
    ensures { OnOk result (marks.Lowers (marks.marks_of value places.now) least.old.items least.new.items) }
{
    for place in places {
        lower_at(least, *place, value)?;
    }
    Ok(())
}

/// Returns the least value of each name, by its place.
pub(crate) fn least_of(alloc: Global, noted: &[Mark]) -> Result<Vec<u16>, AllocError>
    ensures { IfOk result (λ least. marks.AreLeast least.items noted.now) }
{
    let mut least = Vec::new(alloc);
    for mark in noted {
        lower(&mut least, *mark)?;
    }
    Ok(least)
}

/// Returns the least value of a name.
pub(crate) fn least_at(least: &[u16], place: u64) -> u16
    ensures { result ≡ marks.least_at place least.now }
{
    match least.get(place as usize) {
        None => NONE,
        Some(value) => *value,
    }
}
