//! The state that changes while a program runs.

use crate::cells::Cells;
use rpg_machine_lines::{Entries, Output};
use rpg_memory::memory::Memory;
use rpg_program::section::Section;
use rpg_store::store::Store;

/// The output so far, and room for the line being assembled.
#[derive(Drop)]
pub(crate) struct Writer {
    pub output: Output,
    pub text: Vec<u8>,
    pub to_blank: Entries,
}

/// Where a program is, and all that it has changed.
#[derive(Drop)]
pub(crate) struct State<'a, S: Store + Drop> {
    pub memory: Memory<'a, S>,
    pub writer: Writer,
    pub section: Section,
    pub place: u16,
    pub cells: Cells,
    /// How many backward branches and calls are left.
    pub allowance: u16,
    pub steps: u64,
}
