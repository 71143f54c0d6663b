//! What the cards of a source mean together: names, constants, files, groups. What calculation
//! cards mean, by name.
#![tactic(auto)]

mod alternatives;
mod constants;
mod files;
mod groups;
mod indicators;
mod labels;
mod levels;
mod names;
mod spec_card;
mod statements;
mod times;

pub use alternatives::{condition_of, conditions, depends, in_places, is_or, level, test};
pub use constants::{Constant, ConstantText, constant_in, factor_constant, text_constant};
pub use files::{FileUse, ending_file, file_for, file_named, page_of, use_of};
pub use groups::{continues, group_end, joins, last_card};
pub use indicators::{number_of, shows_of};
pub use labels::{
    Label, Named, Section, begins_subroutine, defined_name, ends_subroutine, is_subroutine,
    plain_name, target_name,
};
pub use levels::has_match_field;
pub use names::{
    Defined, Definition, field_definition, field_form, given_form, is_table, result_definition,
    sized_form, table_definition, table_form,
};
pub use rpg_sheet_specs::{Column, Content, Kinds, OperationColumns, Shown, columns};
pub use spec_card::SpecCard;
pub use statements::has_instruction;
pub use times::{line_conditions_on, time_of};
