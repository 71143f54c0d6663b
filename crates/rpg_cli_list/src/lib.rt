//! The listing of a source for people: `rpg2 list`.
#![tactic(auto)]

mod cards;
mod files;
mod lines;
mod records;

pub use cards::source_listing;
