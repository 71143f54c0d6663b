//! Texts with a single meaning: fixed words, marks, blanks.

ghost use Rattle.std.specs.Prelude.{◌≡◌, None, Some, if◌then◌else◌, option_map, position};
ghost use Rattle.rpg_sheet_specs.specs.Columns.{is_filled};
ghost use Rattle.rpg_sheet_specs.specs.Values as values;
ghost use Rattle.rpg_text.specs.Texts.{all_blank};

use rpg_text::is_blank;

/// Whether a text has only blanks. No character ends the loop early, so that many are tested at a time.
#[inline(always)]
pub fn has_only_blanks(text: &[u8]) -> bool
    ensures { result ≡ all_blank text.now }
{
    let mut are_all = true;
    for character in text {
        are_all = (*character == b' ') & are_all;
    }
    are_all
}

/// Returns the place of the first character that isn't blank.
pub fn first_filled(text: &[u8]) -> Option<usize>
    ensures { result ≡ position is_filled text.now }
{
    text.iter().position(|c| *c != b' ')
}

/// Reads the only text that is allowed.
#[tactic(auto, unfolding(rpg_sheet_specs::specs::Values::only))]
pub fn only(spelling: &[u8], text: &[u8]) -> Option<()>
    ensures { result ≡ values.only spelling.now text.now }
{
    if text == spelling { Some(()) } else { None }
}

/// Reads blanks: these columns aren't used yet.
#[tactic(auto, unfolding(rpg_sheet_specs::specs::Values::unused))]
pub fn unused(text: &[u8]) -> Option<()>
    ensures { result ≡ values.unused text.now }
{
    if is_blank(text) { Some(()) } else { None }
}

/// Reads blanks as None, else the value of the text.
pub fn blank_or<T: Drop>(text: &[u8], value: Option<T>) -> Option<Option<T>>
    ensures { result ≡ (if all_blank text.now then Some None else option_map Some value) }
{
    if is_blank(text) {
        Some(None)
    } else {
        value.map(Some)
    }
}

/// Reads blanks or the mark. Returns whether it is the mark.
#[tactic(auto, unfolding(rpg_sheet_specs::specs::Values::marked))]
pub fn marked(mark: &[u8], text: &[u8]) -> Option<bool>
    ensures { result ≡ values.marked mark.now text.now }
{
    if text == b" ".as_slice() {
        Some(false)
    } else if text == mark {
        Some(true)
    } else {
        None
    }
}
