//! Operands: names with an index.

ghost use Rattle.std.specs.Prelude.{◌≡◌, ◌<◌, length, position, IfSome};
ghost use Rattle.rpg_fit_terms.specs.Names.{index_in, ends_name, name_in};

use rpg_fit_deck::Word;

/// A name, and the index after its comma; both may be empty.
#[derive(Clone, Copy)]
pub struct Operand<'a> {
    pub name: &'a [u8],
    pub index: &'a [u8],
}

impl<'a> Operand<'a> {
    /// Splits an operand into its parts.
    pub fn of(text: &'a [u8]) -> Operand<'a>
        ensures name { result.name.now ≡ name_in text.now }
        ensures index { result.index.now ≡ index_in text.now }
    {
        match comma(text) {
            Some(end) => Operand {
                name: &text[..end],
                index: &text[end + 1..],
            },
            None => Operand {
                name: text,
                index: &[],
            },
        }
    }

    /// Whether its index is a field's name.
    pub fn has_index_field(&self) -> bool {
        !self
            .index
            .iter()
            .all(|character| character.is_ascii_digit())
    }
}

/// Returns an entry of an array: a name with an index.
pub fn entry(name: Word, index: Word) -> Word {
    name.and(b",").and(index.text())
}

/// Returns the place of the first comma.
fn comma(text: &[u8]) -> Option<usize>
    ensures place { result ≡ position ends_name text.now }
    ensures within { IfSome result (λ comma. comma < length text.now) }
{
    text.iter().position(|character| *character == b',')
}
