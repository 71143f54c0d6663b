//! Decimal numbers of RPG II: arithmetic, numbers as texts, moves, and the order of characters.
#![tactic(auto)]

mod arithmetic;
mod division;
mod laws;
mod moves;
mod num;
mod order;
mod pairs;
mod whole;
mod zoned;

pub use arithmetic::{add, keep, mult, sub};
pub use division::{ZeroDivisor, div, remainder};
pub use laws::{
    each_character_has_one_place, moves_go_by_places, stored_numbers_fit, texts_spell_by_places,
};
pub use moves::{Source, move_left, move_left_text, move_right, move_right_text};
pub use num::{Figure, Num, Rest, Scale, Target};
pub use order::{compare, compare_text, rank};
pub use pairs::pair_of;
pub use whole::{align, fit};
pub use zoned::{BadDigit, read_zoned, write_zoned};
