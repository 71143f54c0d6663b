//! Explains why calculations and transfers of control have faults, in terms of the rules.
#![tactic(auto)]

mod analyzed;
mod brackets;
mod cycles;
mod flow;
mod index;
mod labels;
mod order;
mod strays;
mod targets;

pub use analyzed::AnalyzedCards;
pub use flow::Flow;
pub use index::Labels;
pub use labels::{Giver, NowhereCause, Target, TwiceCause, TwiceFault, nowhere_cause, twice_cause};
pub use order::{OrderCause, order_cause, order_range};
pub use strays::{StrayCause, stray_cause};
pub use targets::{apart_cause, recursion_cause};
