//! Numbers as positions.
ghost use Rattle.std.specs.Prelude.{◌≡◌};
ghost use Rattle.rpg_program.specs.Entries as named;

/// Returns a number as a position, if it is one of the entries.
pub fn in_range(entries: u16, n: i64) -> Option<u16>
    ensures { result ≡ named.in_range entries n }
{
    if n < 0 {
        return None;
    }
    let n = n as u64;
    if 1 <= n && n <= u64::from(entries) {
        Some(n as u16)
    } else {
        None
    }
}
