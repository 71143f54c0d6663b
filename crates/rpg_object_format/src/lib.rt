//! Byte formats: each defines how a value is encoded, which values are allowed, and how bytes are read, with the first number that breaks
//! its rule. The instructions of an object program, and the parts that other rows share with them, each with its encoding.
#![tactic(auto)]

pub mod condition;
pub mod fault;
pub mod indicator;
mod instruction;
pub mod instruction_laws;
pub mod number;
mod numbers;
pub mod operand;
mod operation;

pub use instruction::{instruction_at, put_instruction};
