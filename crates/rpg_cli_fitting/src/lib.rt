//! The command that rewrites an old deck, with its diagnostics.
#![tactic(auto)]

mod changes;
mod fitting;
mod new_deck;
mod sentence;

pub use changes::refusal_diagnostic;
pub use fitting::fit_file;
