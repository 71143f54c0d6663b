//! The arguments of the command that concern a deck.

use rpg_fit_deck::Word;
use rpg_fit_words::is;

/// The external indicators U1 to U8, as they were set when the job ran.
#[derive(Clone, Copy)]
pub struct Switches {
    /// For each a 1 if it is on, a 0 if it is off.
    digits: [u8; 8],
}

impl Switches {
    /// All of them off.
    pub const OFF: Switches = Switches { digits: [b'0'; 8] };

    /// Returns the switches of eight digits 0 and 1.
    pub fn of(text: &[u8]) -> Option<Switches> {
        let mut switches = Switches::OFF;
        for (place, digit) in text.iter().enumerate() {
            match switches.digits.get_mut(place) {
                Some(there) if matches!(*digit, b'0' | b'1') => *there = *digit,
                _ => return None,
            }
        }
        (text.len() == switches.digits.len()).then_some(switches)
    }

    /// Whether a switch, counted from 1, is on.
    pub fn is_on(&self, number: usize) -> bool {
        self.digits.get(number.saturating_sub(1)) == Some(&b'1')
    }

    /// Returns the eight digits.
    pub fn word(&self) -> Word {
        Word::of(&self.digits)
    }
}

/// The records of a table file.
#[derive(Clone, Copy)]
pub struct TableFile<'a> {
    /// Its name on F and E cards.
    pub name: &'a [u8],
    pub records: &'a [u8],
}

/// The arguments of the command that concern a deck.
#[derive(Clone, Copy)]
pub struct Settings<'a> {
    pub switches: Switches,
    /// The printer whose deck is wanted, if a deck has several.
    pub printer: Option<&'a [u8]>,
    pub tables: &'a [TableFile<'a>],
}

impl<'a> Settings<'a> {
    /// Returns the records of a table file, if the arguments have them.
    pub(crate) fn records_of(&self, name: &[u8]) -> Option<&'a [u8]> {
        let table = self.tables.iter().find(|table| is(table.name, name))?;
        Some(table.records)
    }
}
