//! Shorthand for cards, and the cards that it stands for.
#![tactic(auto)]

mod shorthand;

pub use shorthand::{
    LineFault, RULER, ShorthandFault, are_cards, begins_data, deck_of, ends_source, is_shorthand,
    line_diagnostic, ruled_of, shorthand_of,
};
