//! The fields of a program, with their values before the first cycle.

ghost use Rattle.std.specs.Prelude.{◌≡◌, ◌+◌, ◌≤◌, All, length, IfOk};
ghost use Rattle.rpg_cards.specs.Constants.{IsConstant, constants};
ghost use Rattle.rpg_compile_program.specs.Held.{held_values};
ghost use Rattle.rpg_compile_program.specs.Names.{AreFieldsOf};
ghost use Rattle.rpg_compile_program.specs.Numbered.{AreFormed};
ghost use Rattle.rpg_faults_flow.specs.Kept.{KeepsRule};
ghost use Rattle.rpg_faults_limits.specs.Names.{bad_size};
ghost use Rattle.rpg_compile_program.specs.Data.{loaded, values_of};
ghost use Rattle.rpg_compile_program.specs.Table as fields;

use crate::formed::FormedNames;
use crate::loaded::Loaded;
use crate::names::FieldRows;
use crate::table::FieldTable;
use rpg_card_index::IndexedCards;
use rpg_program::form::FieldForm;
use rpg_program::value::FieldValues;
use std::alloc::{AllocError, Global};

/// The most fields that a program has.
const MOST_FIELDS: u64 = 4_000;

/// The fields of a program in numeric order: names, then constants.
#[derive(Drop)]
pub struct Fields<'a> {
    pub table: FieldTable<'a>,
    pub forms: Vec<FieldForm>,
    /// Their values before the first cycle, entry by entry.
    pub values: Vec<FieldValues>,
}

/// Returns the fields of cards. Fails only if memory runs out.
pub fn fields_of<'a>(alloc: Global, source: &'a IndexedCards<'a>) -> Result<Fields<'a>, AllocError>
    requires few { length (fields.defined_fields source.now) + length (constants source.now) ≤ 4000 }
    requires sizes { KeepsRule (λ before c after. bad_size c) source.now }
    ensures table { IfOk result (λ f. f.table ≡ fields.table_of source.now) }
    ensures forms { IfOk result (λ f. f.forms.items ≡ fields.forms (fields.table_of source.now)) }
    ensures values { IfOk result (λ f. held_values f.values.items ≡ values_of source.now) }
    ensures kept { IfOk result (λ f. All IsConstant (constants source.now)) }
{
    let formed = FormedNames::unless_all(alloc, source)?;
    let mut rows = names_of(alloc, source, &formed)?;
    let names = rows.forms.len() as u16;
    rows.add_constants(alloc, source)?;
    let FieldRows { forms, values } = rows;
    Ok(Fields {
        table: FieldTable::new(names, formed, source),
        forms,
        values,
    })
}

/// Returns the fields of the names that cards define, with room for all fields.
fn names_of(
    alloc: Global,
    source: &IndexedCards,
    formed: &Option<FormedNames>,
) -> Result<FieldRows, AllocError>
    requires formed { AreFormed formed.now source.now }
    requires sizes { KeepsRule (λ before c after. bad_size c) source.now }
    ensures { IfOk result (AreFieldsOf (loaded source.now) (fields.defined_fields source.now)) }
{
    let loaded = Loaded::of_cards(alloc, source.as_slice())?;
    let names = source.all_names().number;
    let constants = source.all_constants().number;
    let room = names.saturating_add(constants).min(MOST_FIELDS);
    let rows = rows_of(alloc, &loaded, source, formed, room as usize)?;
    Ok(rows)
}

/// Returns the fields of the names that cards define: those of the list, or without a list those of the index. Has room for `room` fields.
fn rows_of(
    alloc: Global,
    loaded: &Loaded,
    source: &IndexedCards,
    formed: &Option<FormedNames>,
    room: usize,
) -> Result<FieldRows, AllocError>
    requires formed { AreFormed formed.now source.now }
    ensures { IfOk result (AreFieldsOf loaded.now (fields.defined_fields source.now)) }
{
    match formed {
        None => FieldRows::of_cards(alloc, loaded, source, room),
        Some(names) => FieldRows::of_names(alloc, loaded, names, room),
    }
}
