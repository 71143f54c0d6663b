//! Tables: consecutive rows of one format.

ghost use Rattle.std.specs.Prelude.{◌≡◌, ℕ, List, ◌++◌, map, All, Result, OnOk};
ghost use Rattle.rpg_object_format.specs.declared.fault.Fault.{Fault};
ghost use Rattle.rpg_object_format.specs.Format.{keep, read_times, spelled_along};
ghost use Rattle.rpg_object_format.specs.Reading.{ReadsAs};

use rpg_object_format::fault::ReadFault;
use std::alloc::{AllocError, Global};

/// A row whose encoding doesn't depend on where it is.
pub trait Row: Drop {
    ghost Seen: { Type 0 };

    ghost seen: { Self → Seen };

    ghost Keeps: { Seen → Type 0 };

    ghost read: { List ℕ → Result (Seen × List ℕ) Fault };

    ghost spell: { Seen → List ℕ };

    fn read_row(alloc: Global, bytes: &[u8]) -> Result<(Self, &[u8]), ReadFault>
        ensures { ReadsAs (λ x. (seen x.0, x.1.now)) result (read bytes.now) };

    fn put_row(&self, out: &mut Vec<u8>) -> Result<(), AllocError>
        requires { Keeps (seen self.now) }
        ensures { OnOk result (out.new.items ≡ out.old.items ++ spell (seen self.now)) };
}

/// Reads `count` rows.
pub fn rows_at<T: Row>(
    alloc: Global,
    count: u16,
    bytes: &[u8],
) -> Result<(Vec<T>, &[u8]), ReadFault>
    ensures { ReadsAs (λ x. (map T.seen x.0.items, x.1.now)) result (read_times (λ s b. T.read b) keep count tt bytes.now) }
{
    let mut rows = Vec::with_capacity(alloc, count as usize)?;
    let mut rest = bytes;
    for _ in 0..count {
        let (row, after) = T::read_row(alloc, rest)?;
        rows.push(row)?;
        rest = after;
    }
    Ok((rows, rest))
}

/// Appends the rows.
pub fn put_rows<T: Row>(rows: &[T], out: &mut Vec<u8>) -> Result<(), AllocError>
    requires { All T.Keeps (map T.seen rows.now) }
    ensures { OnOk result (out.new.items ≡ out.old.items ++ spelled_along (λ s x. T.spell x) keep tt (map T.seen rows.now)) }
{
    for row in rows {
        row.put_row(out)?;
    }
    Ok(())
}
