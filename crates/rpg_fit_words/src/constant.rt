//! Constants, literals and edit words: texts in quotes.

/// The most characters between the quotes of columns 45 to 70 of an output field.
const MOST: usize = 24;

/// A constant, a literal or an edit word, without its quotes.
#[derive(Clone, Copy)]
pub struct Constant {
    characters: [u8; 24],
    length: usize,
}

impl Constant {
    /// Returns an empty constant.
    pub fn empty() -> Constant {
        Constant {
            characters: [b' '; MOST],
            length: 0,
        }
    }

    /// Parses a text in quotes. Two quotes in it stand for one.
    pub fn of(quoted: &[u8]) -> Constant {
        let mut constant = Constant::empty();
        let mut is_second = false;
        let last = quoted.len().saturating_sub(1);
        for character in quoted.get(1..last).unwrap_or(&[]) {
            if *character == b'\'' && is_second {
                is_second = false;
            } else {
                is_second = *character == b'\'';
                constant.push(*character);
            }
        }
        constant
    }

    /// Appends a character, if there is room.
    pub fn push(&mut self, character: u8) {
        if let Some(there) = self.characters.get_mut(self.length) {
            *there = character;
            self.length = self.length.saturating_add(1);
        }
    }

    /// Returns this constant, followed by as much of a text as fits.
    pub fn and(mut self, text: &[u8]) -> Constant {
        for character in text {
            self.push(*character);
        }
        self
    }

    /// Returns its characters.
    pub fn text(&self) -> &[u8] {
        self.characters.get(..self.length).unwrap_or(&[])
    }
}
