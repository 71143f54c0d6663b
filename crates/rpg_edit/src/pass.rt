//! Numbers written at their marks, with leading zeros suppressed.
//!
//! A number is written from its last mark to the first: what a mark prints depends on the digits before those that follow it, and these are
//! what is left of the number after it is divided by ten for each digit written.

ghost use Rattle.std.specs.Prelude.{◌≡◌, ◌+◌, ◌-◌, ◌/◌, ◌%◌, ◌^◌, ◌<◌, ◌≤◌, List, ◌==◌, [], ◌∷◌, length, nat_le, not, replicate, true, unsigned_abs};
ghost use Rattle.rpg_edit_marks.specs.Edited.{character, digit_character};
ghost use Rattle.rpg_edit.specs.Written.{are_clear, group_marks, is_at_whole, is_clear, AreFewLeft, AreSuppressed, Begins, HasRoom, IsGroupOf, IsUsedUp, PassesDigit, Writes, WritesShown, WritesTo};

use crate::groups::{Group, group_of};
use crate::suppression::{Number, Pass};
use rpg_decimal::pair_of;
use rpg_edit_marks::Mark;
use rpg_edit_widths::Suppression;

impl Pass {
    /// Begins a pass over a text that ends at this place.
    pub(crate) fn new(n: i64, suppression: Suppression, end: usize) -> Pass
        ensures begins { Begins n end result }
        ensures suppression { result.suppression ≡ suppression }
    {
        Pass {
            number: Number {
                negative: n < 0,
                size: n.unsigned_abs(),
            },
            suppression,
            start: end,
            after: 0,
            rest: n.unsigned_abs(),
        }
    }

    /// Returns the character at a mark before the digits written so far.
    fn character(&self, mark: Mark) -> u8
        ensures { result ≡ character self.now.number.negative self.now.number.size
            self.now.suppression.kept self.now.suppression.fill mark self.now.after }
    {
        let kept = usize::from(self.suppression.kept);
        match mark {
            Mark::Digit if self.rest != 0 || self.after < kept => b'0' + (self.rest % 10) as u8,
            Mark::Insert(character) if self.rest != 0 || self.after <= kept => character,
            Mark::Digit | Mark::Insert(_) => self.suppression.fill,
            Mark::Always(character) => character,
            Mark::Sign(character) if self.number.negative => character,
            Mark::Sign(_) => b' ',
        }
    }

    /// Whether the next digit is printed.
    fn is_clear(&self) -> bool
        ensures { result ≡ is_clear self.now }
    {
        self.rest != 0 || self.after < usize::from(self.suppression.kept)
    }

    /// Writes the fill at marks, `digits` of which are digits and the others characters between digits, after the number is used up.
    #[inline(always)]
    pub(crate) fn put_fill(&mut self, marks: usize, digits: usize, out: &mut [u8])
        requires used_up { IsUsedUp self.old }
        requires some { 0 < digits }
        requires digits { digits ≤ marks }
        requires room { HasRoom marks self.old out.old }
        ensures { (ms : List Mark) → AreSuppressed marks digits self.old ms → Writes ms self.old out.old self.new out.new }
    {
        let start = self.start - marks;
        fill(self.suppression.fill, &mut out[start..self.start]);
        self.start = start;
        self.after += digits;
    }

    /// Returns the character for a digit, of a number that is `rest` without it.
    fn digit(&self, rest: u64) -> u8
        requires { rest ≡ self.now.rest / 10 }
        ensures { result ≡ character self.now.number.negative self.now.number.size
            self.now.suppression.kept self.now.suppression.fill Mark.Digit self.now.after }
    {
        if self.rest != 0 || self.after < usize::from(self.suppression.kept) {
            self.shown_digit(rest)
        } else {
            self.suppression.fill
        }
    }

    /// Returns the digit itself, of a number that is `rest` without it.
    fn shown_digit(&self, rest: u64) -> u8
        requires { rest ≡ self.now.rest / 10 }
        ensures { result ≡ digit_character self.now.number.size self.now.after }
    {
        b'0' + (self.rest - rest * 10) as u8
    }

    /// Moves past a digit, to a number that is `rest` without it.
    fn pass_digit(&mut self, rest: u64)
        requires few { self.old.after + 1 + self.old.start < 2 ^ 64 }
        requires rest { rest ≡ self.old.rest / 10 }
        ensures { PassesDigit self.old self.new rest }
    {
        self.rest = rest;
        self.after += 1;
    }

    /// Writes the next digit: one division gives it and the rest of the number.
    pub(crate) fn put_digit(&mut self, out: &mut [u8])
        requires room { HasRoom 1 self.old out.old }
        ensures { Writes (Mark.Digit ∷ []) self.old out.old self.new out.new }
    {
        let rest = self.rest / 10;
        self.start -= 1;
        out[self.start] = self.digit(rest);
        self.pass_digit(rest);
    }

    /// Writes the character at the next mark.
    pub(crate) fn put(&mut self, mark: Mark, out: &mut [u8])
        requires room { HasRoom 1 self.old out.old }
        ensures { Writes (mark ∷ []) self.old out.old self.new out.new }
    {
        self.start -= 1;
        out[self.start] = self.character(mark);
        if mark.is_place() {
            self.pass_digit(self.rest / 10);
        }
    }

    /// Whether the next `count` digits are always printed.
    pub(crate) fn keeps(&self, count: u8) -> bool
        requires room { count ≤ self.now.start }
        ensures { result ≡ nat_le (self.now.after + count) self.now.suppression.kept }
    {
        self.after + usize::from(count) <= usize::from(self.suppression.kept)
    }

    /// Writes digits that are always printed, usually two.
    #[inline(always)]
    pub(crate) fn put_kept_digits(&mut self, count: u8, out: &mut [u8])
        requires kept { self.old.after + count ≤ self.old.suppression.kept }
        requires room { HasRoom count self.old out.old }
        ensures { Writes (replicate count Mark.Digit) self.old out.old self.new out.new }
    {
        if count == 2 {
            return self.put_two(out);
        }
        for _ in 0..count {
            self.put_clear_digit(out);
        }
    }

    /// Writes a character between digits that is always printed.
    pub(crate) fn put_kept_character(&mut self, character: u8, out: &mut [u8])
        requires kept { self.old.after ≤ self.old.suppression.kept }
        requires room { HasRoom 1 self.old out.old }
        ensures { Writes (Mark.Insert character ∷ []) self.old out.old self.new out.new }
    {
        self.start -= 1;
        out[self.start] = character;
    }

    /// Writes two printed digits, by one division of the number.
    #[inline(always)]
    fn put_two(&mut self, out: &mut [u8])
        requires shows { are_clear self.old ≡ true }
        requires room { HasRoom 2 self.old out.old }
        ensures { WritesTo (replicate 2 Mark.Digit) (self.old.rest / 100) self.old out.old self.new out.new }
    {
        let rest = self.rest / 100;
        self.put_pair((self.rest - rest * 100) as u8, rest, out);
    }

    /// Writes two printed digits, of a number that is `rest` without them.
    #[inline(always)]
    fn put_pair(&mut self, two: u8, rest: u64, out: &mut [u8])
        requires shows { are_clear self.old ≡ true }
        requires two { two ≡ self.old.rest % 100 }
        requires rest { rest ≡ self.old.rest / 100 }
        requires room { HasRoom 2 self.old out.old }
        ensures { WritesTo (replicate 2 Mark.Digit) rest self.old out.old self.new out.new }
    {
        let (tens, ones) = pair_of(two);
        self.put_known(ones, self.rest / 10, out);
        self.put_known(tens, rest, out);
    }

    /// Writes a printed digit.
    #[inline(always)]
    pub(crate) fn put_clear_digit(&mut self, out: &mut [u8])
        requires shows { is_clear self.old ≡ true }
        requires room { HasRoom 1 self.old out.old }
        ensures { WritesTo (Mark.Digit ∷ []) (self.old.rest / 10) self.old out.old self.new out.new }
    {
        let rest = self.rest / 10;
        self.put_known(b'0' + (self.rest - rest * 10) as u8, rest, out);
    }

    /// Writes a printed digit, of a number that is `rest` without it.
    #[inline(always)]
    fn put_known(&mut self, character: u8, rest: u64, out: &mut [u8])
        requires shows { is_clear self.old ≡ true }
        requires digit { character ≡ 48 + self.old.rest % 10 }
        requires rest { rest ≡ self.old.rest / 10 }
        requires room { HasRoom 1 self.old out.old }
        ensures { WritesTo (Mark.Digit ∷ []) rest self.old out.old self.new out.new }
    {
        self.start -= 1;
        out[self.start] = character;
        self.pass_digit(rest);
    }

    /// Whether at least four digits of the number are left.
    pub(crate) fn has_four(&self) -> bool
        ensures { result ≡ nat_le 1000 self.now.rest }
    {
        self.rest >= 1000
    }

    /// Writes three printed digits, of a number that is `rest` without them.
    #[inline(always)]
    fn put_three(&mut self, group: Group, rest: u64, out: &mut [u8])
        requires left { 100 ≤ self.old.rest }
        requires group { IsGroupOf self.old.rest group }
        requires rest { rest ≡ self.old.rest / 1000 }
        requires room { HasRoom 3 self.old out.old }
        ensures { WritesTo (replicate 3 Mark.Digit) rest self.old out.old self.new out.new }
    {
        self.put_known(group.ones, self.rest / 10, out);
        self.put_known(group.tens, self.rest / 10, out);
        self.put_known(group.hundreds, rest, out);
    }

    /// Writes the comma of a group, before which some of the number is left.
    #[inline(always)]
    fn put_comma(&mut self, comma: u8, out: &mut [u8])
        requires left { 0 < self.old.rest }
        requires room { HasRoom 1 self.old out.old }
        ensures { WritesTo (Mark.Insert comma ∷ []) self.old.rest self.old out.old self.new out.new }
    {
        self.start -= 1;
        out[self.start] = comma;
    }

    /// Writes the next three digits of a number that has more, and a comma before them if there are commas.
    #[inline(always)]
    pub(crate) fn put_group(&mut self, commas: bool, out: &mut [u8])
        requires left { 1000 ≤ self.old.rest }
        requires room { HasRoom (length (group_marks commas)) self.old out.old }
        ensures { WritesTo (group_marks commas) (self.old.rest / 1000) self.old out.old self.new out.new }
    {
        let rest = self.rest / 1000;
        let group = group_of((self.rest - rest * 1000) as u16);
        self.put_three(group, rest, out);
        if commas {
            self.put_comma(group.comma, out);
        }
    }

    /// Writes three printed digits: without a division if there are no more.
    #[inline(always)]
    fn put_next_three(&mut self, out: &mut [u8])
        requires left { 100 ≤ self.old.rest }
        requires room { HasRoom 3 self.old out.old }
        ensures { WritesTo (replicate 3 Mark.Digit) (self.old.rest / 1000) self.old out.old self.new out.new }
    {
        if self.rest < 1000 {
            self.put_three(group_of(self.rest as u16), 0, out);
        } else {
            self.put_group(false, out);
        }
    }

    /// Writes two printed digits: without a division if there are no more.
    #[inline(always)]
    fn put_next_two(&mut self, out: &mut [u8])
        requires left { 10 ≤ self.old.rest }
        requires room { HasRoom 2 self.old out.old }
        ensures { WritesTo (replicate 2 Mark.Digit) (self.old.rest / 100) self.old out.old self.new out.new }
    {
        if self.rest < 100 {
            self.put_pair(self.rest as u8, 0, out);
        } else {
            self.put_two(out);
        }
    }

    /// Whether the next digit is printed, of a number that isn't zero if anything is left of it.
    #[inline(always)]
    fn is_next_clear(&self) -> bool
        requires { is_at_whole self.now ≡ true }
        ensures { result ≡ is_clear self.now }
    {
        self.rest != 0 || (self.number.size == 0 && self.is_clear())
    }

    /// Writes the printed digits, three at most, of a number that has no more, or if `most` allows no more. Returns how many: `most`,
    /// unless no more are printed.
    #[inline(always)]
    pub(crate) fn put_first_digits(&mut self, most: usize, out: &mut [u8]) -> usize
        requires kept { is_at_whole self.old ≡ true }
        requires few { AreFewLeft most self.old }
        requires room { HasRoom most self.old out.old }
        ensures three { result ≤ 3 }
        ensures some { 0 < most → 0 < self.old.rest → 0 < result }
        ensures shown { WritesShown most result self.old out.old self.new out.new }
    {
        if most >= 3 && self.rest >= 100 {
            self.put_next_three(out);
            return 3;
        }
        if most >= 2 && self.rest >= 10 {
            self.put_next_two(out);
            return 2;
        }
        if most == 0 || !self.is_next_clear() {
            return 0;
        }
        self.put_clear_digit(out);
        1
    }

    pub(crate) fn put_digits(&mut self, count: u8, out: &mut [u8])
        requires room { HasRoom count self.old out.old }
        ensures { Writes (replicate count Mark.Digit) self.old out.old self.new out.new }
    {
        for _ in 0..count {
            self.put_digit(out);
        }
    }

    /// Writes the characters at all marks.
    pub(crate) fn put_all(&mut self, marks: &[Mark], out: &mut [u8])
        requires room { HasRoom (length marks.now) self.old out.old }
        ensures { Writes marks.now self.old out.old self.new out.new }
    {
        let mut left = marks.len();
        while left > 0 {
            left -= 1;
            self.put(marks[left], out);
        }
    }
}

/// Fills a text. It is usually short, which costs less without a call.
#[inline(always)]
fn fill(character: u8, text: &mut [u8])
    requires { 0 < length text.old }
    ensures { text.new ≡ replicate (length text.old) character }
{
    match text.len() {
        0..=2 => fill_ends(character, 1, text),
        3..=4 => fill_ends(character, 2, text),
        5..=8 => fill_ends(character, 4, text),
        9..=16 => fill_ends(character, 8, text),
        _ => fill_all(character, text),
    }
}

/// Fills a text by `count` characters at each end, which meet or overlap.
#[inline(always)]
fn fill_ends(character: u8, count: usize, text: &mut [u8])
    requires within { count ≤ length text.old }
    requires enough { length text.old ≤ count + count }
    ensures { text.new ≡ replicate (length text.old) character }
{
    let last = text.len() - count;
    fill_all(character, &mut text[..count]);
    fill_all(character, &mut text[last..]);
}

#[inline(always)]
fn fill_all(character: u8, text: &mut [u8])
    ensures { text.new ≡ replicate (length text.old) character }
{
    text.fill(character);
}
