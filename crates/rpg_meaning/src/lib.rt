//! The meaning of cards, from calls and operations to a whole job, and that a run of their program is a run of that job. A compiled
//! program does what the cards of its text mean, from the text of a source and the bytes of its inputs to the bytes that are printed and
//! stored.
#![tactic(auto)]

pub mod calculation_laws;
pub mod call_laws;
mod compiled;
pub mod job_laws;
mod laws;
pub mod operation_laws;
mod run;
mod source;
pub mod source_laws;

pub use compiled::compile_as_meant;
pub use laws::compiled_programs_do_as_meant;
pub use run::run_source;
pub use source::CompiledSource;
