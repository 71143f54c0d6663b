//! Records of other machines: code page 037, packed and binary numbers, the characters of a record's columns, the layout of a file's
//! records, and the type of each.
#![tactic(auto)]

mod binary;
mod column;
mod digits;
mod laws;
mod layout;
mod packed;
mod page;
mod translation;
mod types;

pub use binary::{read_binary, write_binary};
pub use column::Column;
pub use digits::{
    NumberFault, binary_to_zoned, packed_to_zoned, power_of_ten, zoned_to_binary, zoned_to_packed,
};
pub use laws::{binary_numbers_come_back, code_page_is_one_to_one, packed_numbers_come_back};
pub use layout::{Code, Layout, NumberField, NumberForm, RecordType};
pub use packed::{read_packed, write_packed};
pub use page::{byte_of, character_of, last_place_of};
pub use translation::{Page, Translation};
pub use types::{card_of, first_type, is_card};
