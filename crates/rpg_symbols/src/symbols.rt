//! Names and forms.

ghost use Rattle.std.specs.Prelude.{◌≡◌, ◌≢◌};
ghost use Rattle.std.specs.Bool.{OnTrue, OnFalse};
ghost use Rattle.rpg_symbols.specs.Fields.{number_form, same_form};

use rpg_program::form::{Class, FieldForm, Kind};
use rpg_sheet_specs::Word;

/// The name of a field, an array or a table.
pub type Name = Word<6>;

/// Returns the form of a number with this many digits and no decimals.
pub const fn number_form(class: Class, length: u16) -> FieldForm
    ensures { result ≡ number_form class length }
{
    FieldForm {
        kind: Kind::Number,
        class,
        length,
        decimals: 0,
        is_ascending: false,
        entries: 1,
    }
}

/// Whether two forms agree in every part.
pub fn is_same_form(a: &FieldForm, b: &FieldForm) -> bool
    ensures value { result ≡ same_form a.now b.now }
    ensures same { OnTrue result (a.now ≡ b.now) }
    ensures differs { OnFalse result (a.now ≢ b.now) }
{
    a.kind == b.kind
        && a.class == b.class
        && a.length == b.length
        && a.decimals == b.decimals
        && a.is_ascending == b.is_ascending
        && a.entries == b.entries
}
