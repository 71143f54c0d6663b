//! Counts of filled places.

ghost use Rattle.std.specs.Prelude.{◌≡◌, if◌then◌else◌};

pub(crate) fn one_if(is_there: bool) -> u64
    ensures { result ≡ (if is_there then 1 else 0) }
{
    u64::from(is_there)
}
