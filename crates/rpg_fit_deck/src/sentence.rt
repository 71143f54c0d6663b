//! Sentences about cards.

ghost use Rattle.std.specs.Prelude.{◌≡◌};
ghost use Rattle.rpg_fit_deck.specs.Rules.{rule_number};

use crate::word::Word;

/// The rules by their codes: A1, the first, has 0. `rpg_fit::RULES` has the order in which they are applied.
#[derive(Clone, Copy)]
pub enum Rule {
    Comments,
    Columns,
    Switches,
    Forms,
    Tables,
    OrTypes,
    Sequence,
    NumberedPages,
    OrSpaces,
    Figures,
    Moves,
    InputArrays,
    WholeCalculations,
    WholeOutputs,
    Places,
    Pages,
    Words,
    Dollars,
    Fetch,
    Dates,
    Disks,
    JobControl,
    Printers,
    EndOfFiles,
    MergedFiles,
    LookAhead,
    UpdatedFiles,
    ZoneCodes,
    Structures,
    SquareRoots,
}

impl Rule {
    /// Returns the number in its code, from 1.
    pub fn number(self) -> u8
        ensures { result ≡ rule_number self }
    {
        self as u8 + 1
    }
}

/// A sentence, with a word for each `%` in it.
#[derive(Clone, Copy)]
pub struct Sentence {
    pub text: &'static str,
    pub words: [Word; 4],
}

impl Sentence {
    /// Returns a sentence without words to fill in.
    pub fn of(text: &'static str) -> Sentence {
        Sentence {
            text,
            words: [Word::empty(); 4],
        }
    }

    /// Returns a sentence with one word to fill in.
    pub fn about(text: &'static str, word: Word) -> Sentence {
        Sentence::with(text, &[word])
    }

    /// Returns a sentence with at most four words to fill in.
    pub fn with(text: &'static str, words: &[Word]) -> Sentence {
        let mut sentence = Sentence::of(text);
        for (place, word) in words.iter().enumerate() {
            if let Some(there) = sentence.words.get_mut(place) {
                *there = *word;
            }
        }
        sentence
    }

    /// Returns a sentence about a number: the one about a single thing, or the one about several.
    pub fn counted(one: &'static str, several: &'static str, count: usize) -> Sentence {
        let text = if count == 1 { one } else { several };
        Sentence::about(text, Word::of_number(count))
    }
}

/// A sentence about a card: its change, or that it is part of another's.
#[derive(Clone, Copy)]
pub struct Remark {
    pub rule: Rule,
    pub what: What,
}

/// A change, or part of another card's change.
#[derive(Clone, Copy)]
pub enum What {
    Change(Sentence),
    /// Part of the change of the card with this number.
    With(usize),
}

/// Why a deck can't be rewritten.
#[derive(Clone, Copy)]
pub struct Refusal {
    /// The card, from 1.
    pub card: usize,
    pub rule: Rule,
    pub why: Sentence,
}
