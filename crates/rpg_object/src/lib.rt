//! Object programs as bytes: what they encode, and which number is the first to break its
//! rule.
#![tactic(auto)]

mod decoding;
mod encoding;
mod field;
mod first_value;
mod header;
pub mod laws;
mod subroutine;

pub use decoding::{DecodeFault, decode};
pub use encoding::encode;
pub use rpg_object_format::fault::Code;
