//! Rules for old decks about their records: codes by zone and digit, OR, look ahead, and data structures.
#![tactic(auto)]

mod ahead;
mod or_type;
mod put_together;
mod structure;
mod taken_apart;
mod zone;
mod zone_code;

pub use ahead::look_ahead;
pub use or_type::or_types;
pub use structure::structures;
pub use zone_code::zone_codes;
