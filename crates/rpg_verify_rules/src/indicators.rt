//! Which indicators are allowed where.

ghost use Rattle.std.specs.Prelude.{◌≡◌};
ghost use Rattle.rpg_verify_rules.specs.Indicators as marks;

use rpg_program::condition::{Condition, Conditions};
use rpg_program::operation::Shows;
use rpg_program::rows::Version;

fn is_settable(n: u8) -> bool
    ensures { result ≡ marks.is_settable n }
{
    (1 <= n && n <= 99) || ((101 <= n && n <= 110) || (112 <= n && n <= 128))
}

fn is_settable_if_any(indicator: Option<u8>) -> bool
    ensures { result ≡ marks.if_any marks.is_settable indicator }
{
    match indicator {
        None => true,
        Some(n) => is_settable(n),
    }
}

/// Whether they may be set: all but L0, 1P and MR.
pub(crate) fn are_settable(shows: Shows) -> bool
    ensures { result ≡ marks.are_settable shows }
{
    is_settable_if_any(shows.plus)
        && (is_settable_if_any(shows.minus) && is_settable_if_any(shows.zero))
}

/// Whether a record type may turn it on.
pub(crate) fn is_of_type(indicator: Option<u8>) -> bool
    ensures { result ≡ marks.if_any marks.is_of_type indicator }
{
    match indicator {
        None => true,
        Some(n) => (1 <= n && n <= 99) || ((101 <= n && n <= 110) || (120 <= n && n <= 128)),
    }
}

pub(crate) fn has_shows(shows: Shows) -> bool
    ensures { result ≡ marks.has_shows shows }
{
    shows.plus.is_some() || (shows.minus.is_some() || shows.zero.is_some())
}

/// Conditions may name MR only where there can be a secondary file.
fn highest_testable(version: Version) -> u8
    ensures { result ≡ marks.highest_testable version }
{
    if version.has_secondary() { 129 } else { 128 }
}

pub(crate) fn is_testable(version: Version, condition: &Condition) -> bool
    ensures { result ≡ marks.is_testable version condition.now }
{
    condition.indicator <= highest_testable(version)
}

fn is_testable_if_any(version: Version, condition: Option<Condition>) -> bool
    ensures { result ≡ marks.if_any (marks.is_testable version) condition }
{
    match condition {
        None => true,
        Some(condition) => is_testable(version, &condition),
    }
}

pub(crate) fn all_testable(version: Version, conditions: Conditions) -> bool
    ensures { result ≡ marks.all_testable version conditions }
{
    is_testable_if_any(version, conditions.first)
        && (is_testable_if_any(version, conditions.second)
            && is_testable_if_any(version, conditions.third))
}
