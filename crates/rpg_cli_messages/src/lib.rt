//! The diagnostics for a rejected source: each fault with its place, a sentence, and the card with a mark under its
//! columns.
#![tactic(auto)]

mod bytes;
mod message;
mod readable;
mod unmarked;

pub use bytes::{is_object, write_byte_cause};
pub use message::{
    card_diagnostic, marked, object_diagnostic, source_diagnostics, topic_of, write_note,
    write_reported,
};
pub use readable::{KnownFaults, Unread, count_unread};
pub use rpg_cli_causes::{CardLines, NearNames, SourceCards};
