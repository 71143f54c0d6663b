//! The command that puts a print on sheets of paper, with its diagnostics.
#![tactic(auto)]

mod printing;
mod refused;

pub use printing::paper_file;
