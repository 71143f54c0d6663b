//! Messages about the rejected columns of cards.
//!
//! A message says what they hold, what that is in RPG II, what they may hold, and whether the text is in the wrong columns.
#![tactic(auto)]

mod features;
mod ranges;
mod refused;
mod shift;
mod unread;

pub use ranges::{begins_range, character_at, text_in};
pub use refused::{before_comma, capitalised, write_bad_columns, write_form_type};
pub use unread::{has_card_number, pointed_at};
