//! Unused names.

ghost use Rattle.std.specs.Prelude.{◌≡◌, ◌<◌, false, [], ◌∷◌, ◌++◌, true, All, IfNone, IfOk, IfSome, OnErr, is_some, nat_lt, length, take};
ghost use Rattle.rpg_fit_deck.specs.Words.{cut, word_text};
ghost use Rattle.rpg_fit_terms.specs.Fresh.{AllTaken, AreNew, AreTaken, IsTaken, candidate, digit, suffix_of, is_taken};
ghost use Rattle.rpg_fit_terms.specs.Names.{is_prefix_used};

use crate::name::{is, is_name_used, is_prefix_used, is_reserved};
use crate::stop::{Outcome, RuleStop};
use rpg_fit_deck::{Sentence, View, Word};

/// The most names that are tried: the stem, and the stem with 1 to 9,999.
const MOST_NAMES: usize = 10_000;

/// The most characters of a field's name.
const ROOM: usize = 6;

/// Hands out names that no card has: a stem, then the stem with 1, 2 and so on.
#[derive(Clone, Copy)]
pub struct FreshNames {
    stem: Word,
    /// The most characters of a name.
    room: usize,
    /// The number of the next one, 0 for the stem alone.
    next: usize,
}

/// Returns the last digit of a number.
fn digit(number: usize) -> u8
    ensures { result ≡ digit number }
{
    b'0' + (number % 10) as u8
}

/// Returns the digits of a number below 10,000, without leading zeros; empty for 0.
fn suffix_of(number: usize) -> Word
    ensures { word_text result ≡ suffix_of number }
{
    let last = digit(number);
    let tens = digit(number / 10);
    let hundreds = digit(number / 100);
    if number == 0 {
        Word::empty()
    } else if number < 10 {
        Word::of(&[last])
    } else if number < 100 {
        Word::of(&[tens, last])
    } else if number < 1000 {
        Word::of(&[hundreds, tens, last])
    } else {
        Word::of(&[digit(number / 1000), hundreds, tens, last])
    }
}

/// Returns the first characters of a text.
fn front(text: &[u8], count: usize) -> &[u8]
    ensures { result.now ≡ take count text.now }
{
    if count < text.len() {
        &text[..count]
    } else {
        text
    }
}

/// Whether a card has a name, or it is predefined.
fn is_taken(view: &View, name: &[u8]) -> bool
    ensures { result ≡ is_taken view.now name.now }
{
    is_reserved(name) || is_name_used(view, name)
}

impl FreshNames {
    /// Whether these are names of a stem, of at most `room` characters.
    pub(crate) fn is_of(&self, stem: &[u8], room: usize) -> bool {
        self.room == room && is(self.stem.text(), stem)
    }

    /// Starts with a stem, for names of at most `room` characters.
    pub fn of(stem: &[u8], room: usize) -> FreshNames
        ensures { AreNew stem.now room result }
    {
        FreshNames {
            stem: Word::of(stem),
            room,
            next: 0,
        }
    }

    /// Returns the name with a number, or None if no character of the stem fits before its digits.
    #[tactic(auto, using(rpg_fit_deck::proofs::Texts::cut_two))]
    fn name(&self, number: usize) -> Option<Word>
        ensures room { is_some result ≡ nat_lt (length (suffix_of number)) self.now.room }
        ensures name { IfSome result (λ name. word_text name ≡ candidate (word_text self.now.stem) self.now.room number) }
    {
        let digits = suffix_of(number);
        let length = digits.text().len();
        if length >= self.room {
            return None;
        }
        let front = front(self.stem.text(), self.room - length);
        Some(Word::of(front).and(digits.text()))
    }

    /// Returns the name with a number, if it fits and isn't taken.
    fn free_name(&self, view: &View, number: usize) -> Option<Word>
        ensures free { IfSome result (λ name. is_taken view.now (word_text name) ≡ false) }
        ensures taken { IfNone result (IsTaken view.now self.now number) }
    {
        let name = self.name(number)?;
        if is_taken(view, name.text()) {
            return None;
        }
        Some(name)
    }

    /// Returns the next name that no card of the deck has, and doesn't return it again; None if all are in use.
    pub fn find(&mut self, view: &View) -> Option<Word>
        ensures free { IfSome result (λ name. is_taken view.now (word_text name) ≡ false) }
        ensures none_free { IfNone result (AreTaken view.now self.old) }
    {
        let names = *self;
        for number in names.next..MOST_NAMES {
            match names.free_name(view, number) {
                Some(name) => {
                    self.next = number + 1;
                    return Some(name);
                }
                None => {}
            }
        }
        self.next = MOST_NAMES;
        None
    }

    /// Returns the next name that no card of the deck has, and doesn't return it again. Rejects the deck, for a card, if all are in use.
    pub fn take(&mut self, view: &View, card: usize) -> Outcome<Word>
        ensures free { IfOk result (λ name. is_taken view.now (word_text name) ≡ false) }
        ensures none_free { OnErr result (AreTaken view.now self.old) }
    {
        match self.find(view) {
            Some(name) => Ok(name),
            None => Err(RuleStop::refused(card, Sentence::of("no name is free"))),
        }
    }
}

/// Returns a name of at most 6 characters that no card of the deck has. Rejects the deck, for a card, if all are in use.
pub fn fresh_name(view: &View, stem: &[u8], card: usize) -> Outcome<Word>
    ensures free { IfOk result (λ name. is_taken view.now (word_text name) ≡ false) }
    ensures none_free { OnErr result (AllTaken view.now (cut stem.now) 6 0) }
{
    FreshNames::of(stem, ROOM).take(view, card)
}

/// Returns a stem with a character after it, if no name on a card begins with that.
#[tactic(auto, using(rpg_fit_deck::proofs::Texts::cut_two))]
fn prefix_if_unused(view: &View, stem: &[u8], character: u8) -> Option<Word>
    ensures unused { IfSome result (λ prefix. is_prefix_used view.now (word_text prefix) ≡ false) }
    ensures used { IfNone result (is_prefix_used view.now (cut (stem.now ++ character ∷ [])) ≡ true) }
{
    let prefix = Word::of(stem).and(&[character]);
    if is_prefix_used(view, prefix.text()) {
        return None;
    }
    Some(prefix)
}

/// Returns the first prefix, a stem and one of these characters, with which no name on a card begins.
pub fn unused_prefix(view: &View, stem: &[u8], characters: &[u8]) -> Option<Word>
    ensures unused { IfSome result (λ prefix. is_prefix_used view.now (word_text prefix) ≡ false) }
    ensures all_used { IfNone result (All (λ c. is_prefix_used view.now (cut (stem.now ++ c ∷ [])) ≡ true) characters.now) }
{
    for character in characters {
        match prefix_if_unused(view, stem, *character) {
            Some(prefix) => return Some(prefix),
            None => {}
        }
    }
    None
}
