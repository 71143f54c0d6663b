//! Short texts: names, operands, conditions and numbers.

ghost use Rattle.std.specs.Prelude.{◌≡◌, ◌≤◌, ◌-◌, [], ◌∷◌, length};
ghost use Rattle.rpg_fit_deck.specs.Words.{cut, word_with_text, room_of, word_text};

/// The longest word: an operand of a calculation.
const LONGEST: usize = 10;

/// A text of at most 10 characters.
#[derive(Clone, Copy)]
pub struct Word {
    characters: [u8; 10],
    length: usize,
}

impl Word {
    /// Returns the first 10 characters of a text.
    pub fn of(text: &[u8]) -> Word
        ensures text { word_text result ≡ cut text.now }
        ensures room { room_of result ≡ 10 - length text.now }
    {
        let mut word = Word::empty();
        word.push_all(text);
        word
    }

    /// Returns an empty word.
    #[tactic(auto, unfolding(crate::specs::Words::word_text))]
    pub fn empty() -> Word
        ensures text { word_text result ≡ [] }
        ensures room { room_of result ≡ 10 }
    {
        Word {
            characters: [b' '; LONGEST],
            length: 0,
        }
    }

    /// Returns the digits of a number.
    pub fn of_number(number: usize) -> Word {
        let mut word = Word::empty();
        let mut divisor: usize = 1_000_000_000;
        for _ in 0..LONGEST {
            if number >= divisor || divisor == 1 {
                word.push(b'0' + digit(number, divisor));
            }
            divisor = (divisor / 10).max(1);
        }
        word
    }

    /// Appends a character if there is room.
    #[tactic(auto, unfolding(crate::specs::Words::word_text))]
    pub fn push(&mut self, character: u8)
        ensures text { word_text self.new ≡ word_with_text self.old (character ∷ []) }
        ensures room { room_of self.new ≡ room_of self.old - 1 }
    {
        if self.length < LONGEST {
            self.characters[self.length] = character;
            self.length += 1;
        }
    }

    /// Appends as much of a text as fits.
    pub fn push_all(&mut self, text: &[u8])
        ensures text { word_text self.new ≡ word_with_text self.old text.now }
        ensures room { room_of self.new ≡ room_of self.old - length text.now }
    {
        for character in text {
            self.push(*character);
        }
    }

    /// Returns this word, followed by a text.
    pub fn and(mut self, text: &[u8]) -> Word
        ensures { word_text result ≡ word_with_text self text.now }
    {
        self.push_all(text);
        self
    }

    /// Returns its characters.
    #[tactic(auto, unfolding(crate::specs::Words::word_text))]
    pub fn text(&self) -> &[u8]
        ensures { result.now ≡ word_text self.now }
    {
        &self.characters[..self.length.min(LONGEST)]
    }

    /// Returns how many characters it has.
    pub fn len(&self) -> usize {
        self.length
    }
}

/// Returns a digit of a number, by its power of ten.
fn digit(number: usize, divisor: usize) -> u8
    ensures { result ≤ 9 }
{
    let rest = if divisor == 0 {
        0
    } else {
        number / divisor % 10
    };
    rest as u8
}
