//! Texts for people, written piece by piece, and the page of each code: what it means, what breaks the rule and what keeps it, what to do,
//! and what happens then.
#![tactic(auto)]

mod indicators;
mod near;
mod page;
mod pages;
mod text;
mod topic;
mod writer;

pub use indicators::indicator_name;
pub use near::is_near;
pub use text::{all_pages, list_text, pages_text};
pub use topic::{HALTS, Topic, sentence_of, topic_of};
pub use writer::{Piece, TextWriter};
