//! Calculations, lines and record types of a deck that is being rewritten, and what holds when they are done or
//! printed.
#![tactic(auto)]

mod apart;
mod columns;
mod constant;
mod file;
mod flagged;
mod group;
mod indicator_use;
mod line;
mod list;
mod place;
mod printer;
mod record_type;
mod template;

pub use apart::Apart;
pub use columns::Columns;
pub use constant::Constant;
pub use file::{FileTypes, file_card, file_name, files_read, record_length, with_record_length};
pub use flagged::push_conditioned;
pub use group::{Group, Section, groups, groups_now};
pub use indicator_use::{IndicatorUse, UseKind, check_only_type, indicator_uses};
pub use line::{
    Alternative, DeckLines, Line, Time, lines, name_files, operand_on, push_conditions,
    push_copies, remove_cards,
};
pub use list::{Cards, Conditions, List};
pub use place::{Place, before_output, insert_at};
pub use printer::{Printer, printer_card};
pub use record_type::{
    DeckTypes, RecordType, is_or, is_structure, name_types, record_types, types_now,
};
pub use rpg_fit_terms::{
    Array, Conjunction, Done, Form, FreeIndicators, FreshNames, Indicator, NewCard, Operand,
    Outcome, RuleStop, ShortNames, Term, array_of, entry, form_of, fresh_name, is, is_card,
    is_date_part, is_name_used, is_table, put_cards, unused_prefix,
};
pub use template::calculation;
