//! Prints as PDF: the pages of a print on sheets of paper.
#![tactic(auto)]

ghost use Rattle.rpg_pdf.specs.Objects.{EntriesAreOffsets};

mod geometry;
mod objects;
mod page;
mod press;
mod state;
mod text;

pub use state::{PageFault, PaperFault, PaperForm, Press, Settings};

/// A law about the definitions: each entry of the cross reference table is the offset at which its object begins. Does nothing.
pub fn entries_are_offsets()
    ensures { EntriesAreOffsets }
{}
