//! Faults.

use crate::code::FaultCode;

/// A rule that a card breaks. Card 0 is the source as a whole.
#[derive(Clone, Copy)]
pub struct Fault {
    pub card: u16,
    pub code: FaultCode,
}
