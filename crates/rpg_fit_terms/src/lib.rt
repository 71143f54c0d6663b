//! Conditions, names, indicators and forms of a deck that is being rewritten, and why a rule
//! stops.
#![tactic(auto)]

mod cards;
mod condition;
mod form;
mod free_indicator;
mod fresh;
mod indicator;
mod name;
mod operand;
mod renaming;
mod stop;

pub use cards::{NewCard, address_after, is_card, put_cards};
pub use condition::{Conjunction, Term};
pub use form::{Array, Form, array_of, form_of, is_table};
pub use free_indicator::{FreeIndicators, free_halt};
pub use fresh::{FreshNames, fresh_name, unused_prefix};
pub use indicator::Indicator;
pub use name::{is, is_date_part, is_name_on, is_name_used};
pub use operand::{Operand, entry};
pub use renaming::{ShortNames, rename};
pub use stop::{Done, Outcome, Reason, RuleStop, settle};
