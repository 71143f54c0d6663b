//! F3: lengths and decimals over their limits.

ghost use Rattle.std.specs.Prelude.{◌≡◌, is_some, is_none};
ghost use Rattle.rpg_cards.specs.Names.{sized_form};
ghost use Rattle.rpg_causes_operands.specs.Sizes as causes;
ghost use Rattle.rpg_faults_limits.specs.Names as rules;

use rpg_cards::{SpecCard, field_form, sized_form};
use rpg_sheet_specs::{ColumnRange, ExtensionSpec, InputFieldSpec, TableSpec};

/// What is wrong with a length and decimals.
#[derive(Clone, Copy)]
pub enum SizeCause {
    /// A length that neither a text nor a number can have.
    Length(u32),
    /// This many digits of a number.
    Digits(u32),
    /// Too many decimals for this many digits.
    Decimals { decimals: u8, length: u32 },
    /// Decimals without a length.
    NoLength,
}

/// A length or decimals over their limits, with their columns.
#[derive(Clone, Copy)]
pub struct SizeFault {
    pub at: ColumnRange,
    pub cause: SizeCause,
}

/// The columns of a length, and of decimals.
#[derive(Clone, Copy)]
pub struct SizeColumns {
    pub length: ColumnRange,
    pub decimals: ColumnRange,
}

const TABLE: SizeColumns = SizeColumns {
    length: ColumnRange::EntryLength,
    decimals: ColumnRange::EntryDecimals,
};

const ALTERNATING: SizeColumns = SizeColumns {
    length: ColumnRange::AlternatingLength,
    decimals: ColumnRange::AlternatingDecimals,
};

/// The size of an input field follows from its columns.
const INPUT: SizeColumns = SizeColumns {
    length: ColumnRange::LastColumn,
    decimals: ColumnRange::LastColumn,
};

const RESULT: SizeColumns = SizeColumns {
    length: ColumnRange::ResultLength,
    decimals: ColumnRange::ResultDecimals,
};

/// F3: which length or decimals are over their limits.
pub fn size_cause(card: &SpecCard) -> Option<SizeFault>
    ensures cause { result ≡ causes.size_cause card.now }
    ensures rule { is_some result ≡ rules.bad_size card.now }
{
    if let Some(extension) = card.extension() {
        return of_tables(extension);
    }
    if let Some(field) = card.input_field() {
        return of_field(field);
    }
    let calculation = card.calculation()?;
    of_result(calculation.length, calculation.decimals)
}

const fn size_past(at: SizeColumns, length: u32, decimals: Option<u8>) -> SizeFault
    ensures { result ≡ causes.size_past at length decimals }
{
    match decimals {
        None => SizeFault {
            at: at.length,
            cause: SizeCause::Length(length),
        },
        Some(decimals) => {
            if 1 <= length && length <= 15 {
                SizeFault {
                    at: at.decimals,
                    cause: SizeCause::Decimals { decimals, length },
                }
            } else {
                SizeFault {
                    at: at.length,
                    cause: SizeCause::Digits(length),
                }
            }
        }
    }
}

fn size_by(at: SizeColumns, length: u16, decimals: Option<u8>) -> Option<SizeFault>
    ensures cause { result ≡ causes.size_by at length decimals }
    ensures rule { is_some result ≡ is_none (sized_form length decimals) }
{
    match sized_form(length, decimals) {
        None => Some(size_past(at, u32::from(length), decimals)),
        Some(_) => None,
    }
}

fn of_table(at: SizeColumns, table: &TableSpec) -> Option<SizeFault>
    ensures cause { result ≡ causes.table_size_cause at table.now }
    ensures rule { is_some result ≡ rules.bad_size_of_table table.now }
{
    size_by(at, table.length, table.decimals)
}

fn of_tables(extension: &ExtensionSpec) -> Option<SizeFault>
    ensures cause { result ≡ causes.tables_size_cause extension.now }
    ensures rule { is_some result ≡ rules.bad_size_of_tables extension.now }
{
    match of_table(TABLE, &extension.table) {
        Some(cause) => Some(cause),
        None => of_table(ALTERNATING, extension.alternating.as_ref()?),
    }
}

fn of_field(field: &InputFieldSpec) -> Option<SizeFault>
    ensures cause { result ≡ causes.input_field_size_cause field.now }
    ensures rule { is_some result ≡ rules.bad_size_of_field field.now }
{
    if field.to < field.from || field_form(field).is_some() {
        return None;
    }
    let length = u32::from(field.to) + 1 - u32::from(field.from);
    Some(size_past(INPUT, length, field.decimals))
}

fn of_result(length: Option<u16>, decimals: Option<u8>) -> Option<SizeFault>
    ensures cause { result ≡ causes.result_size_cause length decimals }
    ensures rule { is_some result ≡ rules.bad_size_by length decimals }
{
    match length {
        None => {
            decimals?;
            Some(SizeFault {
                at: ColumnRange::ResultDecimals,
                cause: SizeCause::NoLength,
            })
        }
        Some(length) => size_by(RESULT, length, decimals),
    }
}
