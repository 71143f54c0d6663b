//! How a number is edited.

use crate::code::{EditCode, Fill};

/// How a number is edited: as its zoned text, by an edit code, or by an edit word, which a `W` holds.
#[derive(Drop)]
pub enum How<W> {
    Plain,
    Code { code: EditCode, fill: Fill },
    Word(W),
}
