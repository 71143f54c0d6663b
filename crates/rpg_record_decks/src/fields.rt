//! The fields of a record type, and why they are rejected.

ghost use Rattle.std.specs.Prelude.{◌≡◌, ◌&&◌, ◌≤◌, IfErr, IfOk, None, Some};
ghost use Rattle.std.specs.List.{list_any};
ghost use Rattle.rpg_records.specs.Seen.{number_seen};
ghost use Rattle.rpg_record_decks.specs.Types.{differ, field_columns, is_inside, number_fault, number_on_card, overlaps};

use crate::fault::CardFault;
use rpg_records::{NumberField, NumberForm};
use rpg_sheet::InputFieldSpec;

/// The columns of a field, and their contents.
#[derive(Clone, Copy)]
pub(crate) struct FieldColumns {
    /// Counted from 1.
    pub first: u16,
    pub last: u16,
    /// The format of its bytes if it is a packed or binary number; None for characters.
    pub form: Option<NumberForm>,
    pub has_decimals: bool,
}

/// Returns the columns of a card's field.
pub(crate) fn field_columns(form: Option<NumberForm>, field: &InputFieldSpec) -> FieldColumns
    ensures { result ≡ field_columns form field.now }
{
    FieldColumns {
        first: field.from,
        last: field.to,
        form,
        has_decimals: field.decimals.is_some(),
    }
}

impl FieldColumns {
    /// Whether it is in a record of this length.
    pub fn is_inside(&self, length: u16) -> bool
        ensures { result ≡ is_inside length self.now }
    {
        1 <= self.first && self.first <= self.last && self.last <= length
    }

    /// Whether one is packed or binary and the other one characters.
    fn differs_from(&self, other: &FieldColumns) -> bool
        ensures { result ≡ differ self.now other.now }
    {
        if self.form.is_some() {
            other.form.is_none()
        } else {
            other.form.is_some()
        }
    }

    /// Whether it shares a column with another field, and one is packed or binary and the other one characters.
    fn mixes_with(&self, other: &FieldColumns) -> bool
        ensures { result ≡ (overlaps self.now other.now && differ self.now other.now) }
    {
        self.first <= other.last && other.first <= self.last && self.differs_from(other)
    }

    /// Whether it mixes with any of these fields.
    pub fn mixes_with_any(&self, fields: &[FieldColumns]) -> bool
        ensures { result ≡ list_any (λ g. overlaps self.now g && differ self.now g) fields.now }
    {
        for field in fields {
            if self.mixes_with(field) {
                return true;
            }
        }
        false
    }
}

/// Returns the packed or binary field of a card.
pub(crate) fn number_field(
    card: u16,
    field: FieldColumns,
    form: NumberForm,
) -> Result<NumberField, CardFault>
    requires counted { 1 ≤ field.first }
    requires ordered { field.first ≤ field.last }
    ensures valid { IfOk result (λ number. (number_fault field form ≡ None) × (number_seen number ≡ number_on_card card field form)) }
    ensures bad { IfErr result (λ fault. number_fault field form ≡ Some fault) }
{
    let (first, last) = (field.first, field.last);
    if !field.has_decimals {
        return Err(CardFault::NoDecimals);
    }
    if !form.allows(last - first + 1) {
        return Err(CardFault::Size);
    }
    Ok(NumberField {
        card,
        first,
        last,
        form,
        digits: form.digit_count(usize::from(last - first) + 1),
    })
}
