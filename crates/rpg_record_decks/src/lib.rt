//! The deck that controls a conversion of records: the layout of its file's records, and the deck that reads their
//! lines.
#![tactic(auto)]

mod deck;
mod edits;
mod fault;
mod fields;
mod file;
mod fitted;
mod kinds;
mod layout;
mod types;

pub use deck::{DeckArguments, DeckCard, deck_cards};
pub use edits::{changed_card, columns, file_name, number_columns};
pub use fault::{CardFault, DeckFault, bad_columns};
pub use file::{file_length, find_file, is_read};
pub use fitted::{CardChange, DigitColumns, all_digits, digits_change, fitted_deck, length_change};
pub use layout::{MOST_COLUMNS, layout_by_cards, narrow};
pub use types::{form_of, goes_on, is_of_file, is_on_sheet};
