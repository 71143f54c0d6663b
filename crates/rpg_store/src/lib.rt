//! The values of a program's fields, in different representations.
#![tactic(auto)]

mod flat;
mod listed;
pub mod placing;
mod slot;
pub mod store;
mod written;

pub use flat::FlatStore;
pub use listed::ListedStore;
pub use store::{Store, set_text};
