//! The characters of text constants, such as edit words.

ghost use Rattle.std.specs.Prelude.{◌≡◌, true, map, slice_get};
ghost use Rattle.rpg_program.specs.Forms as forms;
ghost use Rattle.rpg_program.specs.Values.{characters_of, held};
ghost use Rattle.rpg_program.specs.Constants as constants;
ghost use Rattle.rpg_program.specs.Object.{seen};

use crate::rows::Rows;
use crate::value::Value;

/// Returns the characters of the first of these values.
fn first_text(values: &[Value]) -> &[u8]
    ensures { result.now ≡ characters_of (slice_get (map held values.now) 0) }
{
    match values.first() {
        Some(Value::Text(text)) => text,
        Some(Value::Number(_)) => &[],
        None => &[],
    }
}

/// Returns the characters of a field that is a text constant. They are read from the program, since constants are
/// never written.
pub fn word_at(rows: &Rows, field: u16) -> &[u8]
    requires { forms.is_text_constant (forms.form_at rows.now.fields.items field) ≡ true }
    ensures { result.now ≡ constants.word_at (seen rows.now) field }
{
    if field == 0 {
        return &[];
    }
    match rows.values.get(usize::from(field) - 1) {
        None => &[],
        Some(values) => first_text(values.as_slice()),
    }
}
