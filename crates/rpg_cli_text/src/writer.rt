//! Text that is written piece by piece, with one check for memory at the end, and what fills the places of a sentence.

use rpg_text::shown;
use std::alloc::{AllocError, Global};
use std::fmt::Display;

/// What a place of a sentence is filled with.
#[derive(Clone, Copy)]
pub enum Piece<'a> {
    Number(u64),
    Character(char),
    Word(&'a str),
    /// A text from outside, with a question mark for each byte that isn't a
    /// character.
    Outside(&'a [u8]),
}

impl From<u8> for Piece<'_> {
    fn from(number: u8) -> Self {
        Piece::Number(u64::from(number))
    }
}

impl From<u16> for Piece<'_> {
    fn from(number: u16) -> Self {
        Piece::Number(u64::from(number))
    }
}

impl From<u64> for Piece<'_> {
    fn from(number: u64) -> Self {
        Piece::Number(number)
    }
}

impl From<usize> for Piece<'_> {
    fn from(number: usize) -> Self {
        Piece::Number(number as u64)
    }
}

impl From<char> for Piece<'_> {
    fn from(character: char) -> Self {
        Piece::Character(character)
    }
}

impl<'a> From<&'a str> for Piece<'a> {
    fn from(word: &'a str) -> Self {
        Piece::Word(word)
    }
}

impl<'a> From<&'a [u8]> for Piece<'a> {
    fn from(text: &'a [u8]) -> Self {
        Piece::Outside(text)
    }
}

/// Text under construction. Once an allocation fails it ignores further pieces, and [`TextWriter::finish`] returns the error, so nothing in
/// between has to.
#[derive(Drop)]
pub struct TextWriter {
    text: String,
    ran_out: bool,
}

impl TextWriter {
    /// Returns an empty text, which allocates from `alloc` as it grows.
    pub fn new(alloc: Global) -> TextWriter {
        TextWriter {
            text: String::new(alloc),
            ran_out: false,
        }
    }

    pub fn write_str(&mut self, piece: &str) {
        if !self.ran_out {
            self.ran_out = self.text.push_str(piece).is_err();
        }
    }

    pub fn write_char(&mut self, character: char) {
        if !self.ran_out {
            self.ran_out = self.text.push(character).is_err();
        }
    }

    /// Appends a text from outside. A byte that isn't a character from blank to `~` becomes a question mark, so that no control code
    /// reaches a terminal.
    pub fn write_shown(&mut self, text: &[u8]) {
        for byte in text {
            self.write_char(shown(*byte) as char);
        }
    }

    /// Appends what `write!(writer, ..)` formats.
    pub fn write_fmt(&mut self, piece: impl Display + Drop) {
        if !self.ran_out {
            self.ran_out = write!(self.text, "{piece}").is_err();
        }
    }

    /// Appends a sentence, with a piece at each of its places: `{}` takes it unchanged, `{:<8}` pads it with blanks on the right to eight
    /// columns, and `{:>8}` on the left.
    pub fn fill(&mut self, sentence: &str, pieces: &[Piece<'_>]) {
        let mut rest = sentence;
        for piece in pieces {
            let Some((before, place)) = rest.split_once('{') else {
                break;
            };
            let Some((layout, after)) = place.split_once('}') else {
                break;
            };
            self.write_str(before);
            self.write_laid_out(layout, *piece);
            rest = after;
        }
        self.write_str(rest);
    }

    pub fn fill_one<'a>(&mut self, sentence: &str, piece: impl Into<Piece<'a>>) {
        self.fill(sentence, &[piece.into()]);
    }

    pub fn fill_two<'a>(
        &mut self,
        sentence: &str,
        first: impl Into<Piece<'a>>,
        second: impl Into<Piece<'a>>,
    ) {
        self.fill(sentence, &[first.into(), second.into()]);
    }

    pub fn fill_three<'a>(
        &mut self,
        sentence: &str,
        first: impl Into<Piece<'a>>,
        second: impl Into<Piece<'a>>,
        third: impl Into<Piece<'a>>,
    ) {
        self.fill(sentence, &[first.into(), second.into(), third.into()]);
    }

    /// Appends a piece in the column that `layout` describes.
    fn write_laid_out(&mut self, layout: &str, piece: Piece<'_>) {
        if let Some(width) = layout.strip_prefix(":<") {
            let end = self.len().saturating_add(width.parse().unwrap_or(0));
            self.write_piece(piece);
            self.pad_to(end);
        } else if let Some(width) = layout.strip_prefix(":>") {
            self.write_right(piece, width.parse().unwrap_or(0));
        } else {
            self.write_piece(piece);
        }
    }

    /// Appends a piece, padded with blanks on the left to `width` characters.
    fn write_right(&mut self, piece: Piece<'_>, width: usize) {
        match piece {
            Piece::Number(number) => write!(self, "{number:>width$}"),
            Piece::Character(character) => write!(self, "{character:>width$}"),
            Piece::Word(word) => write!(self, "{word:>width$}"),
            Piece::Outside(text) => {
                let blanks = width.saturating_sub(text.len());
                self.pad_to(self.len().saturating_add(blanks));
                self.write_shown(text);
            }
        }
    }

    fn write_piece(&mut self, piece: Piece<'_>) {
        match piece {
            Piece::Number(number) => self.write_fmt(number),
            Piece::Character(character) => self.write_char(character),
            Piece::Word(word) => self.write_str(word),
            Piece::Outside(text) => self.write_shown(text),
        }
    }

    /// Appends blanks up to a length in bytes.
    pub fn pad_to(&mut self, length: usize) {
        for _ in self.text.len()..length {
            self.write_char(' ');
        }
    }

    /// Ends a line, without its trailing blanks.
    pub fn end_line(&mut self) {
        for _ in 0..self.text.len() {
            if !self.text.ends_with(' ') {
                break;
            }
            let _ = self.text.pop();
        }
        self.write_char('\n');
    }

    pub fn len(&self) -> usize {
        self.text.len()
    }

    /// Returns the text so far. The error is that memory ran out for one of its pieces.
    pub fn so_far(&self) -> Result<&str, AllocError> {
        if self.ran_out {
            return Err(AllocError);
        }
        Ok(self.text.as_str())
    }

    /// Begins an empty text, in the memory of this one.
    pub fn clear(&mut self) {
        self.text.clear();
        self.ran_out = false;
    }

    /// Returns the text. The error is as for `so_far`.
    pub fn finish(self) -> Result<String, AllocError> {
        if self.ran_out {
            return Err(AllocError);
        }
        Ok(self.text)
    }
}
