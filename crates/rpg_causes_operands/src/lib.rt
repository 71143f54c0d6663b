//! Explains why a card's names, sizes, operands, indexes and indicators have faults, in terms of the rules.
#![tactic(auto)]

mod fields;
mod indexes;
mod indicators;
mod kinds;
mod names;
mod sizes;

pub use fields::{FieldCause, field_cause};
pub use indexes::{IndexCause, index_cause};
pub use indicators::{IndicatorCause, IndicatorFault, indicator_cause};
pub use kinds::{OperandCause, TextField, operand_cause};
pub use names::{Redefined, first_defining, redefined_name, undefined_name};
pub use sizes::{SizeCause, SizeFault, size_cause};
