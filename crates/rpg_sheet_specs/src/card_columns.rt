//! Ranges of columns that lie on a card.

ghost use Rattle.std.specs.Prelude.{◌+◌, ◌≤◌};

use crate::column::ColumnFault;

/// The `WIDTH` columns of a card from column `first` on, counted from 1.
#[derive(Clone, Copy)]
pub struct CardColumns<const WIDTH: usize> {
    pub first: u8,
    pub ghost counted: { 1 ≤ first },
    pub ghost some: { 1 ≤ WIDTH },
    pub ghost within: { first + WIDTH ≤ 81 },
}

impl<const WIDTH: usize> CardColumns<WIDTH> {
    ghost use Rattle.std.specs.Prelude.{◌≡◌};
    ghost use Rattle.rpg_sheet_specs.specs.Columns.{column_fault_from};

    /// Returns these columns as a fault points at them.
    pub const fn fault(self) -> ColumnFault
        ensures { result ≡ column_fault_from self.entry.first WIDTH }
    {
        ColumnFault {
            column: self.first,
            last: self.first + (WIDTH - 1) as u8,
        }
    }
}
