//! Merges the lines of several files by match values, and puts columns of the next line after each line.
#![tactic(auto)]

mod ahead;
mod deck;
mod fault;
mod head;
mod input;
mod merging;
mod order;

pub use ahead::{AheadColumns, put_ahead};
pub use deck::{
    DeckStop, MatchField, MatchType, Secondaries, SecondaryFile, TypeCode, secondaries_of,
};
pub use fault::MergeStop;
pub use input::LineInput;
pub use merging::merge;
pub use rpg_fit_deck::{Refusal, Rule, Sentence, Word};
