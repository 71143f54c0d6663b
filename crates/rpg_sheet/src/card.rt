//! A card and its columns.

ghost use Rattle.std.specs.Prelude.{◌≡◌, ◌-◌, ◌≤◌, ◌++◌, length, take, replicate, position, IsTrue};
ghost use Rattle.std.specs.List.{list_all};
ghost use Rattle.rpg_sheet.specs.Ranges.{cols_from};
ghost use Rattle.rpg_sheet_specs.specs.Cards.{card_of};
ghost use Rattle.rpg_sheet_specs.specs.Columns.{is_filled, fault_if_some};
ghost use Rattle.rpg_text.specs.Texts.{is_character};

use crate::columns::Read;
use rpg_sheet_specs::{CardColumns, ColumnFault};
use std::marker::Model;

/// A card: 80 columns of one character each.
#[derive(Drop)]
pub struct Card {
    characters: [u8; 80],
}

impl Model for Card {
    ghost use Rattle.std.specs.Prelude.{ℕ, List, length, ◌≡◌, IsTrue};
    ghost use Rattle.std.specs.List.{list_all};
    ghost use Rattle.rpg_text.specs.Texts.{is_character};

    ghost Value = { List ℕ };

    ghost view = { λ c. c.characters };

    ghost invariant = { λ c. (length c.characters ≡ 80) × IsTrue (list_all is_character c.characters) };
}

impl Card {
    /// Makes a card of a line, padded with blanks.
    pub fn new(line: &[u8]) -> Self
        requires fits { length line.now ≤ 80 }
        requires characters { IsTrue (list_all is_character line.now) }
        ensures { result ≡ take 80 line.now ++ replicate (80 - length line.now) 32 }
    {
        let characters = columns_of(line);
        Card { characters }
    }

    /// Makes a card of these columns.
    pub(crate) fn of(characters: &[u8; 80]) -> Self
        requires { IsTrue (list_all is_character characters.now) }
        ensures { result ≡ characters.now }
    {
        let characters = *characters;
        Card { characters }
    }

    pub fn as_slice(&self) -> &[u8]
        ensures value { result.now ≡ self.now }
        ensures columns { length self.now ≡ 80 }
        ensures characters { IsTrue (list_all is_character self.now) }
    {
        &self.characters
    }

    pub(crate) fn as_array(&self) -> &[u8; 80]
        ensures { result.now ≡ self.now }
    {
        &self.characters
    }

    /// Returns the text in columns.
    pub(crate) fn columns<const WIDTH: usize>(&self, columns: CardColumns<WIDTH>) -> &[u8]
        ensures value { result.now ≡ cols_from columns.entry.first WIDTH self.now }
        ensures len { length result.now ≡ WIDTH }
        ensures characters { IsTrue (list_all is_character result.now) }
    {
        let start = columns.first as usize - 1;
        &self.characters[start..start + WIDTH]
    }

    /// Checks that columns are blank. The error is the first column that isn't.
    #[inline(always)]
    pub(crate) fn blank<const WIDTH: usize>(&self, columns: CardColumns<WIDTH>) -> Read<()>
        ensures { result ≡ fault_if_some columns.entry.first (position is_filled (cols_from columns.entry.first WIDTH self.now)) }
    {
        let text = self.columns(columns);
        if rpg_sheet_values::has_only_blanks(text) {
            return Ok(());
        }
        let Some(i) = rpg_sheet_values::first_filled(text) else {
            return Ok(());
        };
        let column = columns.first + i as u8;
        let last = column;
        Err(ColumnFault { column, last })
    }
}

/// Returns the columns of a line's card, without what a longer line has after them.
#[tactic(auto, using(crate::proofs::Padding::laid))]
pub(crate) fn columns_of(line: &[u8]) -> [u8; 80]
    ensures { result ≡ card_of line.now }
{
    let mut columns = [b' '; 80];
    let len = line.len().min(80);
    columns[..len].copy_from_slice(&line[..len]);
    columns
}
