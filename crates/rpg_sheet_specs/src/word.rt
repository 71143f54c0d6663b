//! Short texts.

ghost use Rattle.std.specs.Prelude.{◌≡◌, ◌≤◌, ◌<◌, [], ◌∷◌, ◌++◌, length, nat_eq};
ghost use Rattle.std.proofs.Common.{ap};
ghost use Rattle.std.specs.Cmp.{partial_equiv_from_equiv};
ghost use Rattle.std.specs.Cmp.Lexicographic.{pointwise, bytes_decides, nat_list_eq_equiv};

use std::hash::{Hash, Hasher};
use std::marker::Model;

/// A text of at most `N` characters, such as a name.
#[derive(Drop)]
pub struct Word<const N: usize> {
    /// Characters after the first `length` are meaningless.
    characters: [u8; N],
    length: usize,
}

impl<const N: usize> Model for Word<N> {
    ghost use Rattle.std.specs.Prelude.{ℕ, List, take, ◌≤◌};

    ghost Value = { List ℕ };

    ghost view = { λ w. take w.length w.characters };

    ghost invariant = { λ w. w.length ≤ N };
}

impl<const N: usize> Word<N> {
    pub fn new(text: &[u8]) -> Self
        requires { length text.now ≤ N }
        ensures { result ≡ text.now }
    {
        let mut characters = [0; N];
        let length = text.len();
        characters[..length].copy_from_slice(text);
        Word { characters, length }
    }

    pub fn push(&mut self, character: u8)
        requires { length self.old < N }
        ensures { self.new ≡ self.old ++ character ∷ [] }
    {
        self.characters[self.length] = character;
        self.length += 1;
    }

    pub fn as_slice(&self) -> &[u8]
        ensures value { result.now ≡ self.now }
        ensures fits { length result.now ≤ N }
    {
        &self.characters[..self.length]
    }
}

impl<const N: usize> PartialEq for Word<N> {
    ghost eq = { pointwise nat_eq };

    ghost laws = { partial_equiv_from_equiv nat_list_eq_equiv };

    fn eq(&self, other: &Self) -> bool {
        self.as_slice() == other.as_slice()
    }
}

impl<const N: usize> Eq for Word<N> {
    ghost laws = { nat_list_eq_equiv };
}

/// Hashes all characters in one write.
impl<const N: usize> Hash for Word<N> {
    ghost hash_input = { λ w. w ∷ [] };

    ghost respects_eq = { λ v w same. ap (λ text. text ∷ []) ((bytes_decides v w).0 same) };

    fn hash<H: Hasher>(&self, state: &mut H) {
        state.write(self.as_slice());
    }
}
