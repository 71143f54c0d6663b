//! Rules that rewrite calculations: figurative constants, MOVEA, whole arrays and the parts of the date.
#![tactic(auto)]

mod date_rule;
mod figure_rule;
mod movea;
mod movea_rule;
mod now;
mod root_rule;
mod whole_rule;

pub use date_rule::dates;
pub use figure_rule::figures;
pub use movea_rule::moves;
pub use root_rule::square_roots;
pub use whole_rule::whole_calculations;
