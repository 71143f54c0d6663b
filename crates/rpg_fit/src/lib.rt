//! Rewrites an old deck: the rules one after another, and the faults of the new deck.
#![tactic(auto)]

mod array_entry;
mod array_input;
mod fault;
mod fitting;
mod note;
mod order;
mod order_test;
mod rules;
mod sequenced;

pub use fault::FitFault;
pub use fitting::{FittedDeck, fit, fit_by};
pub use note::Note;
pub use rpg_fit_cards::{Settings, Switches, TableFile};
pub use rpg_fit_deck::{Card, Fitted, Refusal, Remark, Rule, Sentence, What};
pub use rules::{RULES, Rules};
