//! The header sheet (H).

/// An H card.
#[derive(Clone, Copy)]
pub struct HeaderSpec;
