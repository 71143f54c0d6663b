//! Fields and entries of arrays, from the first column of their range.

ghost use Rattle.std.specs.Prelude.{◌≡◌, ◌<◌, length, position, IfSome};
ghost use Rattle.rpg_sheet_specs.specs.Values as values;

use crate::names::{begins_with_letter, name_of};
use crate::numbers::digits;
use rpg_sheet_specs::{Entry, EntryIndex};
use rpg_text::trimmed;

/// Reads a name, or a name, a comma and an index.
#[tactic(auto, unfolding(rpg_sheet_specs::specs::Values::entry))]
pub fn entry(text: &[u8]) -> Option<Entry>
    ensures { result ≡ values.entry text.now }
{
    if !begins_with_letter(text) {
        return None;
    }
    let text = trimmed(text);
    if let Some(name) = name_of(text) {
        return Some(Entry { name, index: None });
    }
    let place = comma(text)?;
    let name = name_of(&text[..place])?;
    let index = index(&text[place + 1..])?;
    Some(Entry {
        name,
        index: Some(index),
    })
}

/// Returns the place of the first comma.
fn comma(text: &[u8]) -> Option<usize>
    ensures place { result ≡ position values.is_comma text.now }
    ensures within { IfSome result (λ place. place < length text.now) }
{
    text.iter().position(|c| *c == b',')
}

/// Reads at most four digits, or a name.
fn index(text: &[u8]) -> Option<EntryIndex>
    ensures { result ≡ values.index_spelled text.now }
{
    match literal_index(text) {
        Some(number) => Some(EntryIndex::Literal(number)),
        None => name_of(text).map(EntryIndex::Name),
    }
}

fn literal_index(text: &[u8]) -> Option<u16>
    ensures { result ≡ values.literal_index text.now }
{
    if text.len() <= 4 { digits(text) } else { None }
}
