//! Zero suppression.

/// What replaces leading zeros, and how many of the last digits are always
/// printed.
#[derive(Clone, Copy)]
pub struct Suppression {
    pub kept: u8,
    pub fill: u8,
}
