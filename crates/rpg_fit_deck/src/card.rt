//! Cards: 80 columns, counted from 1.

ghost use Rattle.std.specs.Prelude.{◌≡◌};
ghost use Rattle.rpg_text.specs.Texts.{all_blank, trimmed};
ghost use Rattle.rpg_fit_deck.specs.Columns.{column_of, characters_in_columns, form_letter, is_comment, value_in_columns, without_blanks};

use rpg_text::{is_blank, trimmed};

/// The columns of a card.
const COLUMNS: usize = 80;

/// A card's 80 columns.
#[derive(Clone, Copy)]
pub struct Card {
    columns: [u8; 80],
}

impl Card {
    /// Returns the card of a line's first 80 characters, padded with blanks.
    pub fn of(line: &[u8]) -> Card {
        let mut columns = [b' '; COLUMNS];
        let length = line.len().min(COLUMNS);
        columns[..length].copy_from_slice(&line[..length]);
        Card { columns }
    }

    /// Returns a card that is blank except for its form in column 6.
    pub fn of_form(form: u8) -> Card {
        Card::of(&[]).with(6, 6, &[form])
    }

    /// Returns the character in a column, or a blank if there is no such column.
    #[tactic(auto, unfolding(crate::specs::Columns::column_of))]
    pub fn column(&self, column: usize) -> u8
        ensures { result ≡ column_of self.now column }
    {
        match self.columns.get(column.saturating_sub(1)) {
            Some(character) => *character,
            None => b' ',
        }
    }

    /// Returns the text in a range of columns.
    #[tactic(auto, unfolding(crate::specs::Columns::characters_in_columns))]
    pub fn columns(&self, first: usize, last: usize) -> &[u8]
        ensures { result.now ≡ characters_in_columns self.now first last }
    {
        let before = first.saturating_sub(1);
        if before <= last && last <= COLUMNS {
            &self.columns[before..last]
        } else {
            &[]
        }
    }

    /// Returns the text in a range of columns, trimmed of blanks.
    #[tactic(auto, unfolding(crate::specs::Columns::value_in_columns))]
    pub fn value(&self, first: usize, last: usize) -> &[u8]
        ensures { result.now ≡ value_in_columns self.now first last }
    {
        without_blanks(trimmed(self.columns(first, last)))
    }

    /// Whether columns are blank.
    pub fn is_blank(&self, first: usize, last: usize) -> bool
        ensures { result ≡ all_blank (characters_in_columns self.now first last) }
    {
        is_blank(self.columns(first, last))
    }

    /// Returns the number in columns, or None if they aren't digits after blanks.
    pub fn number(&self, first: usize, last: usize) -> Option<usize> {
        number(self.value(first, last))
    }

    /// Returns its form: column 6.
    #[tactic(auto, unfolding(crate::specs::Columns::form_letter))]
    pub fn form(&self) -> u8
        ensures { result ≡ form_letter self.now }
    {
        self.column(6)
    }

    /// Whether it is a comment, or entirely blank.
    #[tactic(auto, unfolding(crate::specs::Columns::is_comment))]
    pub fn is_comment(&self) -> bool
        ensures { result ≡ is_comment self.now }
    {
        self.column(7) == b'*' || is_blank(&self.columns)
    }

    /// Sets the character in a column.
    pub fn put_column(&mut self, column: usize, character: u8) {
        if let Some(there) = self.columns.get_mut(column.saturating_sub(1)) {
            *there = character;
        }
    }

    /// Writes a text into columns, padded with blanks.
    pub fn put(&mut self, first: usize, last: usize, text: &[u8]) {
        for place in 0..last.saturating_add(1).saturating_sub(first) {
            let character = text.get(place).copied().unwrap_or(b' ');
            self.put_column(first.saturating_add(place), character);
        }
    }

    /// Returns this card with a text in columns, padded with blanks.
    pub fn with(mut self, first: usize, last: usize, text: &[u8]) -> Card {
        self.put(first, last, text);
        self
    }

    /// Returns this card with a text at the end of columns, after blanks.
    pub fn with_right(mut self, first: usize, last: usize, text: &[u8]) -> Card {
        self.put(first, last, &[]);
        let start = last.saturating_add(1).saturating_sub(text.len());
        self.put(start.max(first), last, text);
        self
    }

    /// Returns this card as rules create it: without a page and line number in columns 1 to 5.
    pub fn made(self) -> Card {
        self.with(1, 5, &[])
    }

    /// Returns its text, without trailing blanks.
    pub fn text(&self) -> &[u8]
        ensures { result.now ≡ trimmed self.now.columns }
    {
        trimmed(&self.columns)
    }
}

/// Returns a text without leading blanks.
fn without_blanks(text: &[u8]) -> &[u8]
    ensures { result.now ≡ without_blanks text.now }
{
    let mut rest = text;
    while let [b' ', more @ ..] = rest {
        rest = more;
    }
    rest
}

/// Returns the value of a text of digits.
fn number(text: &[u8]) -> Option<usize> {
    let mut total: usize = 0;
    for character in text {
        if !character.is_ascii_digit() {
            return None;
        }
        total = total
            .saturating_mul(10)
            .saturating_add(usize::from(character.saturating_sub(b'0')));
    }
    if text.is_empty() { None } else { Some(total) }
}
