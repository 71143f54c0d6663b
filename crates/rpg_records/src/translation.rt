//! Translates a record's bytes to characters, by the contents of their columns, and characters to bytes.

ghost use Rattle.std.specs.Prelude.{◌≡◌, ◌<◌, ◌≤◌, IsTrue, length, not, ◌==◌};
ghost use Rattle.std.specs.List.{list_any};
ghost use Rattle.rpg_records.specs.Columns.{HoldsCharacters, column_at, column_character, image, kind_character, last_place_character, page_byte, page_character};
ghost use Rattle.rpg_text.specs.Texts.{is_character};

use crate::column::Column;
use crate::page::{byte_of, character_of, last_place_of};
use rpg_text::is_character;

/// The encoding of the records' characters.
#[derive(Clone, Copy)]
pub enum Page {
    /// Code page 037.
    Ebcdic,
    Ascii,
}

/// The character of each byte in each kind of column, as a table: 0 is none.
#[derive(Clone, Copy)]
pub struct Translation {
    page: Page,
    low_blank: bool,
    table: [u8; 1024],
    ghost holds: { HoldsCharacters page low_blank table },
}

/// Returns the character of a byte, 0 for none.
fn page_character(page: Page, byte: u8) -> u8
    ensures { result ≡ page_character page byte }
{
    match page {
        Page::Ebcdic => character_of(byte),
        Page::Ascii if is_character(byte) => byte,
        Page::Ascii => 0,
    }
}

/// Returns the last digit of a zoned number as a character, 0 for none.
fn last_place_character(page: Page, byte: u8) -> u8
    ensures { result ≡ last_place_character page byte }
{
    match page {
        Page::Ebcdic => last_place_of(byte),
        Page::Ascii => page_character(page, byte),
    }
}

/// Returns the character of a byte by the contents of its column, 0 for none.
fn kind_character(page: Page, column: Column, byte: u8) -> u8
    ensures { result ≡ kind_character page column byte }
{
    match column {
        Column::Text => page_character(page, byte),
        Column::LastPlace => last_place_character(page, byte),
        Column::Number => b' ',
        Column::Unnamed => match page_character(page, byte) {
            0 => b' ',
            character => character,
        },
    }
}

/// Like `kind_character`, but byte 0 may be a blank.
fn column_character(page: Page, low_blank: bool, column: Column, byte: u8) -> u8
    ensures { result ≡ column_character page low_blank column byte }
{
    if low_blank && byte == 0 {
        b' '
    } else {
        kind_character(page, column, byte)
    }
}

/// Returns the contents of a column that a row of the table is for.
fn column_at(row: u16) -> Column
    ensures { result ≡ column_at row }
{
    match row {
        0 => Column::Text,
        1 => Column::LastPlace,
        2 => Column::Number,
        _ => Column::Unnamed,
    }
}

/// Returns the characters of all bytes, row by row.
fn table_of(page: Page, low_blank: bool) -> [u8; 1024]
    ensures { HoldsCharacters page low_blank result }
{
    let mut table = [0; 1024];
    for place in 0..1024u16 {
        let (column, byte) = (column_at(place / 256), (place % 256) as u8);
        table[usize::from(place)] = column_character(page, low_blank, column, byte);
    }
    table
}

impl Translation {
    ghost use Rattle.rpg_records.specs.Translations.{is_low_blank, page_of};

    /// With `low_blank`, byte 0 is a blank in each column.
    pub fn new(page: Page, low_blank: bool) -> Self
        ensures page { page_of result ≡ page }
        ensures low_blank { is_low_blank result ≡ low_blank }
    {
        Translation {
            page,
            low_blank,
            table: table_of(page, low_blank),
        }
    }

    /// Returns the character of a byte in a column, 0 for none.
    #[inline(always)]
    pub fn character_in(&self, column: Column, byte: u8) -> u8
        ensures { result ≡ column_character (page_of self.now) (is_low_blank self.now) column byte }
    {
        self.table[column.row() * 256 + usize::from(byte)]
    }

    /// Writes the characters of a record's columns, and returns whether all are some: 0 is none.
    #[inline(always)]
    pub fn write_image(&self, columns: &[Column], bytes: &[u8], text: &mut [u8]) -> bool
        requires columns { length columns.now ≡ length text.old }
        requires bytes { length bytes.now ≡ length text.old }
        ensures image { text.new ≡ image (page_of self.now) (is_low_blank self.now) columns.now bytes.now }
        ensures all { result ≡ not (list_any (λ c. c == 0) text.new) }
    {
        let mut are_all = true;
        for (i, column) in columns.iter().enumerate() {
            let character = self.character_in(*column, bytes[i]);
            text[i] = character;
            are_all = are_all & (character != 0);
        }
        are_all
    }

    /// The byte of a character.
    #[inline(always)]
    pub fn byte_of(&self, character: u8) -> u8
        requires { IsTrue (is_character character) }
        ensures { result ≡ page_byte (page_of self.now) character }
    {
        match self.page {
            Page::Ebcdic => byte_of(character),
            Page::Ascii => character,
        }
    }
}
