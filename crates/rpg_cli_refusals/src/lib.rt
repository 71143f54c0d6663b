//! The diagnostics for bytes that aren't an object program, and for a program that breaks a
//! rule.
#![tactic(auto)]

mod bytes;
mod rules;

pub use bytes::bytes_diagnostic;
pub use rules::{rule_diagnostic, write_instruction_at};
