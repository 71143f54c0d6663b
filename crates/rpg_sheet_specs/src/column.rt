//! Columns with bad values.

/// A range of columns with a bad value. Columns are counted from 1 to 80.
#[derive(Clone, Copy, Debug, PartialEq, Eq)]
pub struct ColumnFault {
    /// The first one.
    pub column: u8,
    pub last: u8,
}
