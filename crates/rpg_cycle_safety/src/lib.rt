//! Laws of the definitions: what every run of an accepted program preserves, and what every
//! cycle and every run leads to.
#![tactic(auto)]

pub mod run_laws;
pub mod step_laws;
