//! The names that cards define, and their forms.

ghost use Rattle.std.specs.Prelude.{◌≡◌, length, map};
ghost use Rattle.rpg_cards.specs.Names as names;
ghost use Rattle.rpg_symbols.specs.Fields as fields;

use crate::spec_card::SpecCard;
use rpg_program::form::{Class, FieldForm, Kind};
use rpg_sheet_specs::{
    CalculationSpec, ExtensionSpec, Few, InputFieldSpec, InputSpec, Spec, TableSpec,
};
use rpg_symbols::{Name, number_form};

/// A name that a card defines, with its form: None if its length, decimals or entries are over their limit.
#[derive(Drop)]
pub struct Definition {
    pub name: Name,
    pub form: Option<FieldForm>,
}

/// The value of an unused place in a list.
impl Default for Definition {
    fn default() -> Self {
        Definition {
            name: Name::new(b""),
            form: None,
        }
    }
}

/// The form of a name, by its first definition.
#[derive(Clone, Copy)]
pub enum Defined {
    /// There is no definition.
    Missing,
    /// Its length, decimals or entries are over their limit.
    Bad,
    Valid(FieldForm),
}

/// Returns the form of a plain field; without decimals it is a text. None if a limit is passed.
pub fn sized_form(length: u16, decimals: Option<u8>) -> Option<FieldForm>
    ensures { result ≡ names.sized_form length decimals }
{
    sized(Class::Plain, false, 1, length, decimals)
}

/// Returns the form of an input field, or None if its columns are reversed.
pub fn field_form(field: &InputFieldSpec) -> Option<FieldForm>
    ensures { result ≡ names.field_form field.now }
{
    if field.from <= field.to {
        sized_form((field.to - field.from).saturating_add(1), field.decimals)
    } else {
        None
    }
}

/// Whether a name is a table's: it begins with TAB.
pub fn is_table(name: &Name) -> bool
    ensures { result ≡ names.is_table_name name.now }
{
    matches!(name.as_slice(), [b'T', b'A', b'B', ..])
}

/// Returns the form of an array or a table with this many entries.
pub fn table_form(entries: u16, table: &TableSpec) -> Option<FieldForm>
    ensures { result ≡ names.table_form entries table.now }
{
    if entries < 1 || entries > 9999 {
        return None;
    }
    let class = if is_table(&table.name) {
        Class::Table
    } else {
        Class::Array
    };
    sized(
        class,
        table.ascending,
        entries,
        table.length,
        table.decimals,
    )
}

fn sized(
    class: Class,
    is_ascending: bool,
    entries: u16,
    length: u16,
    decimals: Option<u8>,
) -> Option<FieldForm>
    ensures { result ≡ names.sized (names.form_with class is_ascending entries) length decimals }
{
    let (kind, decimals) = match decimals {
        None if 1 <= length && length <= 256 => (Kind::Text, 0),
        Some(decimals)
            if 1 <= length && length <= 15 && decimals <= 9 && decimals as u16 <= length => {
            (Kind::Number, decimals)
        }
        _ => return None,
    };
    Some(FieldForm {
        kind,
        class,
        length,
        decimals,
        is_ascending,
        entries,
    })
}

impl SpecCard {
    /// Returns what the card defines: the tables or arrays of an E card, an input field, or a result field.
    #[inline(always)]
    pub fn definitions(&self) -> Few<Definition>
        ensures { result ≡ names.definitions_on self.now.spec }
    {
        if self.definition_count() == 0 {
            return Few::new();
        }
        match &self.spec {
            Spec::Extension(extension) => of_tables(extension),
            Spec::Input(InputSpec::Field(field)) => Few::of(Some(field_definition(field))),
            Spec::Calculation(calculation) => Few::of(result_definition(calculation)),
            _ => Few::new(),
        }
    }

    /// Returns how many names the card defines.
    pub fn definition_count(&self) -> usize
        ensures { result ≡ length (names.definitions_on self.now.spec) }
    {
        match &self.spec {
            Spec::Extension(extension) => 1 + usize::from(extension.alternating.is_some()),
            Spec::Input(InputSpec::Field(_)) => 1,
            Spec::Calculation(calculation) => {
                usize::from(calculation.length.is_some() && calculation.result_field.is_some())
            }
            _ => 0,
        }
    }
}

fn of_tables(extension: &ExtensionSpec) -> Few<Definition>
    ensures { result ≡ map (names.definition_in extension.now) (names.tables_on extension.now) }
{
    let mut definitions = Few::new();
    definitions.push(table_definition(extension.entries, &extension.table));
    if let Some(table) = &extension.alternating {
        definitions.push(table_definition(extension.entries, table));
    }
    definitions
}

/// Returns what an E card defines by one of its tables or arrays.
pub fn table_definition(entries: u16, table: &TableSpec) -> Definition
    ensures { result ≡ record { name = table.now.name; form = names.table_form entries table.now } }
{
    Definition {
        name: Name::new(table.name.as_slice()),
        form: table_form(entries, table),
    }
}

/// Returns what an input field defines.
pub fn field_definition(field: &InputFieldSpec) -> Definition
    ensures { result ≡ names.definition_of field.now }
{
    Definition {
        name: Name::new(field.name.as_slice()),
        form: field_form(field),
    }
}

/// Returns what a calculation defines: its result field, if it has a length.
pub fn result_definition(calculation: &CalculationSpec) -> Option<Definition>
    ensures { result ≡ names.definition_by calculation.now }
{
    let length = calculation.length?;
    let entry = calculation.result_field.as_ref()?;
    Some(Definition {
        name: Name::new(entry.name.as_slice()),
        form: sized_form(length, calculation.decimals),
    })
}

/// Returns the form of a name that every program has.
pub fn given_form(name: &Name) -> Option<FieldForm>
    ensures { result ≡ fields.defined_form fields.given name.now }
{
    if name.as_slice() == b"UDATE".as_slice() {
        Some(number_form(Class::Date, 6))
    } else if name.as_slice() == b"PAGE".as_slice() {
        Some(number_form(Class::Plain, 4))
    } else {
        None
    }
}
