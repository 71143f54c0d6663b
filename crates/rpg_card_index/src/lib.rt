//! The cards of a source with the first place of each name, constant and file, and how many names and constants there are.
#![tactic(auto)]

mod constant_index;
mod first_cards;
mod first_files;
mod index;
mod name_index;

pub use constant_index::ConstantIndex;
pub use first_cards::FirstCards;
pub use first_files::{FirstFiles, FirstUses};
pub use index::{CardIndex, IndexedCards};
pub use name_index::{FirstDefinition, NameIndex};
