//! Rules about overflow and pages.
#![tactic(auto)]

mod fetch_moves;
mod fetched;
mod overflow;
mod page_field;
mod page_reset;
mod page_steps;

pub use fetched::fetch;
pub use page_reset::pages;
