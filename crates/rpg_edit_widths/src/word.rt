//! Edit words, and the marks of a number that is edited by one.

ghost use Rattle.std.specs.Prelude.{◌≡◌, ◌==◌, ◌&&◌, not, ℕ, ◌+◌, ◌-◌, ◌<◌, ◌≤◌, List, [], ◌++◌, map, count_by, length, OnOk, OnErr, IfOk};
ghost use Rattle.arrayvec.specs.ArrayVec.{array_vec_len};
ghost use Rattle.rpg_edit_marks.specs.Edited.{places};
ghost use Rattle.rpg_edit_marks.specs.Word.{is_stop, shown_character, mark_of, marks_of, places_end, always_mark, begins_credit, sign_part, first_dollar, word_marks, stop_of, digits_after_stop, word_fill, has_dollar_at_stop, IsWordFor};

use crate::mark::{MOST_MARKS, Marks};
use crate::suppression::Suppression;
use arrayvec::ArrayVec;
use rpg_edit_marks::Mark;
use std::error::Error;
use std::fmt;
use std::marker::Model;

/// The word's places don't match the digits, or a dollar sign comes right before its stop.
#[derive(Clone, Copy, Debug)]
pub struct EditFault;

impl fmt::Display for EditFault {
    fn fmt<W: fmt::Write>(&self, f: &mut fmt::Formatter<W>) -> fmt::Result {
        f.write_str("the edit word doesn't fit")
    }
}

impl Error for EditFault {}

/// An edit word of 1 to 24 characters: the blanks and the stop, its first `0` or `*`, are places for digits.
#[derive(Drop)]
pub struct EditWord {
    characters: ArrayVec<u8, MOST_MARKS>,
    marks: Marks,
    suppression: Suppression,
}

impl Model for EditWord {
    ghost Value = { List ℕ };

    ghost view = { λ w. w.characters.items };

    ghost invariant = { λ w. (w.marks.items ≡ word_marks w.characters.items)
        × (w.suppression.kept ≡ digits_after_stop w.characters.items)
        × (w.suppression.fill ≡ word_fill w.characters.items) };
}

impl EditWord {
    /// Parses a word, if it fits a number of `digits` digits.
    pub fn parse(word: &[u8], digits: u8) -> Result<EditWord, EditFault>
        requires low { 1 ≤ length word.now }
        requires high { length word.now ≤ 24 }
        ensures word { IfOk result (λ w. w ≡ word.now) }
        ensures ok { OnOk result (IsWordFor digits word.now) }
        ensures fault { OnErr result (¬ IsWordFor digits word.now) }
    {
        if !EditWord::fits(word, digits) {
            return Err(EditFault);
        }
        match ArrayVec::try_from(word) {
            Ok(characters) => Ok(EditWord {
                characters,
                marks: word_marks(word),
                suppression: suppression(word, stop_of(word)),
            }),
            Err(_) => unreachable!(),
        }
    }

    /// Whether a word fits a number of `digits` digits, so that `parse` accepts it. Creates no marks.
    pub fn fits(word: &[u8], digits: u8) -> bool
        requires { length word.now ≤ 24 }
        ensures { result ≡ ((places (word_marks word.now) == digits) && not (has_dollar_at_stop word.now)) }
    {
        let stop = stop_of(word);
        count_places(word, stop) == digits && !is_dollar_before(word, stop)
    }

    /// Returns the mark of each of its places.
    pub fn marks(&self) -> &[Mark]
        ensures { result.now ≡ word_marks self.now }
    {
        &self.marks
    }

    /// Returns what is suppressed before its stop.
    pub fn suppression(&self) -> Suppression
        ensures kept { result.kept ≡ digits_after_stop self.now }
        ensures fill { result.fill ≡ word_fill self.now }
    {
        self.suppression
    }
}

fn is_stop(character: u8) -> bool
    ensures { result ≡ is_stop character }
{
    character == b'0' || character == b'*'
}

/// Counts the places for digits: the blanks, and the stop if there is one.
fn count_places(word: &[u8], stop: usize) -> u8
    requires high { length word.now ≤ 24 }
    requires stop { stop ≡ stop_of word.now }
    ensures { result ≡ places (word_marks word.now) }
{
    count_blanks(word) + u8::from(stop < word.len())
}

fn count_blanks(word: &[u8]) -> u8
    requires { length word.now ≤ 24 }
    ensures { result ≡ count_by (λ c. c == 32) word.now }
{
    word.iter().filter(|character| **character == b' ').count() as u8
}

fn stop_of(word: &[u8]) -> usize
    ensures stop { result ≡ stop_of word.now }
    ensures within { result ≤ length word.now }
{
    word.iter()
        .take_while(|character| !is_stop(**character))
        .count()
}

fn is_dollar_before(word: &[u8], stop: usize) -> bool
    requires { stop ≡ stop_of word.now }
    ensures { result ≡ has_dollar_at_stop word.now }
{
    stop < word.len() && word[stop.saturating_sub(1)] == b'$'
}

/// Returns what is suppressed before the stop.
fn suppression(word: &[u8], stop: usize) -> Suppression
    requires high { length word.now ≤ 24 }
    requires within { stop ≤ length word.now }
    requires stop { stop ≡ stop_of word.now }
    ensures kept { result.kept ≡ digits_after_stop word.now }
    ensures fill { result.fill ≡ word_fill word.now }
{
    Suppression {
        kept: digits_following(word, stop),
        fill: fill_at(word, stop),
    }
}

fn digits_following(word: &[u8], stop: usize) -> u8
    requires high { length word.now ≤ 24 }
    requires within { stop ≤ length word.now }
    requires stop { stop ≡ stop_of word.now }
    ensures { result ≡ digits_after_stop word.now }
{
    word.iter()
        .skip(stop + 1)
        .filter(|character| **character == b' ')
        .count() as u8
}

fn fill_at(word: &[u8], stop: usize) -> u8
    requires { stop ≡ stop_of word.now }
    ensures { result ≡ word_fill word.now }
{
    match word.get(stop) {
        Some(b'*') => b'*',
        _ => b' ',
    }
}

/// Returns what a character of the word prints as.
fn shown(character: u8) -> u8
    ensures { result ≡ shown_character character }
{
    match character {
        b'&' => b' ',
        _ => character,
    }
}

fn mark_of(character: u8) -> Mark
    ensures { result ≡ mark_of character }
{
    match character {
        b' ' => Mark::Digit,
        _ => Mark::Insert(shown(character)),
    }
}

fn always(character: u8) -> Mark
    ensures { result ≡ always_mark character }
{
    Mark::Always(shown(character))
}

fn word_marks(word: &[u8]) -> Marks
    requires { length word.now ≤ 24 }
    ensures { result.items ≡ word_marks word.now }
{
    let mut marks = marks_of(word);
    show_first_dollar(word, &mut marks);
    let end = places_end(&marks);
    marks.truncate(end);
    push_sign_part(&mut marks, &word[end..]);
    marks
}

fn show_first_dollar(word: &[u8], marks: &mut Marks)
    requires { length word.now ≡ array_vec_len marks.old }
    ensures { marks.new.items ≡ first_dollar word.now marks.old.items }
{
    if matches!(word, [b'$', ..]) {
        marks[0] = Mark::Always(b'$');
    }
}

fn marks_of(word: &[u8]) -> Marks
    requires { length word.now ≤ 24 }
    ensures marks { result.items ≡ marks_of word.now }
    ensures len { array_vec_len result ≡ length word.now }
{
    let mut marks = Marks::new();
    for i in 0..word.len() {
        if is_stop(word[i]) {
            marks.push(Mark::Digit);
            push_marks(&mut marks, &word[i + 1..]);
            return marks;
        }
        marks.push(mark_of(word[i]));
    }
    marks
}

fn push_marks(marks: &mut Marks, part: &[u8])
    requires { array_vec_len marks.old + length part.now ≤ 24 }
    ensures { marks.new.items ≡ marks.old.items ++ map mark_of part.now }
{
    for character in part {
        marks.push(mark_of(*character));
    }
}

/// Returns how many marks there are up to the last place.
fn places_end(marks: &[Mark]) -> usize
    ensures end { result ≡ places_end marks.now }
    ensures within { result ≤ length marks.now }
{
    let mut end = marks.len();
    while end > 0 && !marks[end - 1].is_place() {
        end -= 1;
    }
    end
}

fn begins_credit(part: &[u8]) -> bool
    ensures { result ≡ begins_credit part.now }
{
    matches!(part, [b'C', b'R', ..])
}

/// Appends the marks after the last place.
fn push_sign_part(marks: &mut Marks, part: &[u8])
    requires { array_vec_len marks.old + length part.now ≤ 24 }
    ensures { marks.new.items ≡ marks.old.items ++ sign_part part.now }
{
    for i in 0..part.len() {
        if part[i] == b'-' {
            marks.push(Mark::Sign(b'-'));
            return push_always(marks, &part[i + 1..]);
        }
        if begins_credit(&part[i..]) {
            marks.push(Mark::Sign(b'C'));
            marks.push(Mark::Sign(b'R'));
            return push_always(marks, &part[i + 2..]);
        }
        marks.push(always(part[i]));
    }
}

fn push_always(marks: &mut Marks, part: &[u8])
    requires { array_vec_len marks.old + length part.now ≤ 24 }
    ensures { marks.new.items ≡ marks.old.items ++ map always_mark part.now }
{
    for character in part {
        marks.push(always(*character));
    }
}
