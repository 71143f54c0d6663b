//! Names and letters.

ghost use Rattle.std.specs.Prelude.{◌≡◌, ◌≤◌, false, length, slice_get};
ghost use Rattle.std.specs.List.{list_all};
ghost use Rattle.std.specs.Option.{option_map_or};
ghost use Rattle.rpg_sheet_specs.specs.Values as values;

use rpg_sheet_specs::Word;
use rpg_text::trimmed;

fn is_letter(c: u8) -> bool
    ensures { result ≡ values.is_letter c }
{
    c.is_ascii_uppercase() || c == b'$' || c == b'#' || c == b'@'
}

/// Whether the first column has a letter.
pub(crate) fn begins_with_letter(text: &[u8]) -> bool
    ensures { result ≡ option_map_or values.is_letter (slice_get text.now 0) false }
{
    match text.split_first() {
        None => false,
        Some((first, _)) => is_letter(*first),
    }
}

fn is_name_character(c: u8) -> bool
    ensures { result ≡ values.is_name_character c }
{
    is_letter(c) || c.is_ascii_digit()
}

fn has_only_name_characters(text: &[u8]) -> bool
    ensures { result ≡ list_all values.is_name_character text.now }
{
    text.iter().all(|c| is_name_character(*c))
}

fn is_name(most: usize, text: &[u8]) -> bool
    ensures { result ≡ values.is_name most text.now }
{
    match text.split_first() {
        None => false,
        Some((first, rest)) => is_letter(*first)
            && has_only_name_characters(rest)
            && rest.len() < most,
    }
}

/// Reads a name of at most `N` characters, and nothing else.
pub(crate) fn name_of<const N: usize>(text: &[u8]) -> Option<Word<N>>
    ensures { result ≡ values.name_of N text.now }
{
    if is_name(N, text) {
        Some(Word::new(text))
    } else {
        None
    }
}

/// Reads a name of at most `N` characters, from the first column.
#[tactic(auto, unfolding(rpg_sheet_specs::specs::Values::name))]
pub fn name<const N: usize>(text: &[u8]) -> Option<Word<N>>
    ensures { result ≡ values.name N text.now }
{
    name_of(trimmed(text))
}

/// Reads letters in both columns.
#[tactic(auto, unfolding(rpg_sheet_specs::specs::Values::letters))]
pub fn letters(text: &[u8]) -> Option<Word<2>>
    requires { length text.now ≤ 2 }
    ensures { result ≡ values.letters text.now }
{
    if text.iter().all(|c| c.is_ascii_uppercase()) {
        Some(Word::new(text))
    } else {
        None
    }
}
