//! Record codes and edit codes.

ghost use Rattle.std.specs.Prelude.{◌≡◌, length, IsTrue};
ghost use Rattle.std.specs.List.{list_all};
ghost use Rattle.rpg_sheet_specs.specs.Values as values;
ghost use Rattle.rpg_text.specs.Texts.{is_character};

use crate::marks::marked;
use crate::numbers::number;
use rpg_sheet_specs::{EditCode, RecordCode, Within};

/// Reads a position in four columns, blank or N, C, and a character.
#[tactic(auto, unfolding(rpg_sheet_specs::specs::Values::record_code))]
pub fn record_code(text: &[u8]) -> Option<RecordCode>
    requires seven { length text.now ≡ 7 }
    requires characters { IsTrue (list_all is_character text.now) }
    ensures { result ≡ values.record_code text.now }
{
    let position = number(&text[..4])?;
    let negated = marked(b"N", &text[4..5])?;
    let character = record_character(&text[5..])?;
    Some(RecordCode {
        position,
        negated,
        character,
    })
}

/// Reads C and a character.
fn record_character(text: &[u8]) -> Option<Within<32, 126>>
    requires { IsTrue (list_all is_character text.now) }
    ensures { result ≡ values.record_character text.now }
{
    match text {
        [b'C', character] => Some(Within::new(*character)),
        _ => None,
    }
}

/// Reads one character.
#[tactic(auto, unfolding(rpg_sheet_specs::specs::Values::edit_code))]
pub fn edit_code(text: &[u8]) -> Option<EditCode>
    ensures { result ≡ values.edit_code text.now }
{
    match text {
        [character] => EditCode::of(*character),
        _ => None,
    }
}
