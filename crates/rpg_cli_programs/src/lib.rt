//! Programs as sources and as objects: the commands that read them and run nothing, `rpg2 check`, `compile`, `list` and `cards` over
//! sources, `rpg2 verify` and `show` over object programs. Object programs as bytes: compiled from a source, verified, shown, and compared
//! with the source that the arguments name.
#![tactic(auto)]

mod compiling;
mod judging;
mod session;
mod sources;

pub use judging::{CompiledObject, compiled, verified};
pub use session::Session;
pub use sources::{OwnSource, own_source, report_faults, report_object};
