//! Which of the records that wait is next.

ghost use Rattle.std.specs.Prelude.{◌≡◌, ◌+◌, ◌<◌, IfSome, length, map, take};
ghost use Rattle.rpg_record_merging.specs.Order as spec;
ghost use Rattle.rpg_record_merging.specs.Order.{IsNext, value_of, waiting_of};

use crate::head::Head;
use rpg_decimal::compare_text;
use std::cmp::Ordering;

/// Whether a record is before another one, by their match values.
fn is_before(is_descending: bool, one: &Head, other: &Head) -> bool
    ensures { result ≡ spec.is_before is_descending (value_of one.now) (value_of other.now) }
{
    if !one.has_value || !other.has_value {
        return other.has_value;
    }
    let order = if is_descending {
        compare_text(&one.value, &other.value)
    } else {
        compare_text(&other.value, &one.value)
    };
    order == Ordering::Greater
}

/// Returns the file whose record is next, given the one that is next in the files before a place.
fn next_through(
    is_descending: bool,
    heads: &[Head],
    place: usize,
    next: Option<usize>,
) -> Option<usize>
    requires within { place < length heads.now }
    requires earlier { IfSome next (λ k. k < place) }
    ensures within { IfSome result (λ k. k < place + 1) }
    ensures next { IsNext is_descending (map waiting_of (take place heads.now)) next → IsNext is_descending (map waiting_of (take (place + 1) heads.now)) result }
{
    let head = &heads[place];
    if !head.is_there {
        return next;
    }
    let Some(other) = next else {
        return Some(place);
    };
    if is_before(is_descending, head, &heads[other]) {
        return Some(place);
    }
    Some(other)
}

/// Returns the file whose record is next, if any waits: that with the least match value, the earlier one where values are equal. A
/// record without a match value is next as soon as it waits.
pub(crate) fn next_file(is_descending: bool, heads: &[Head]) -> Option<usize>
    ensures { IsNext is_descending (map waiting_of heads.now) result }
{
    let mut next = None;
    for place in 0..heads.len() {
        next = next_through(is_descending, heads, place, next);
    }
    next
}
