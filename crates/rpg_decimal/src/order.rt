//! The order of numbers and of texts, for COMP and searches.
ghost use Rattle.std.specs.Prelude.{◌≡◌, ◌+◌, ◌^◌, ◌<◌, ◌≤◌, ◌*ℤ◌, pos, unsigned_abs, slice_index_or};
ghost use Rattle.rpg_decimal_words.specs.Fraction.{fraction_cmp};
ghost use Rattle.rpg_decimal.specs.Num.{value_of};
ghost use Rattle.rpg_decimal_words.specs.Order.{rank, text_cmp};

use crate::arithmetic::widened;
use crate::num::Num;
use crate::whole::power_of_ten;
use std::cmp::Ordering;

/// The rank of each byte below 128: the characters' places in the collating sequence of this profile, 0 to 94, and then control characters.
static RANKS: [u8; 128] = [
    95, 96, 97, 98, 99, 100, 101, 102, 103, 104, 105, 106, 107, 108, 109, 110, 111, 112, 113, 114,
    115, 116, 117, 118, 119, 120, 121, 122, 123, 124, 125, 126, 0, 7, 25, 21, 8, 15, 6, 23, 3, 10,
    9, 4, 14, 12, 1, 13, 85, 86, 87, 88, 89, 90, 91, 92, 93, 94, 20, 11, 2, 24, 17, 18, 22, 57, 58,
    59, 60, 61, 62, 63, 64, 65, 67, 68, 69, 70, 71, 72, 73, 74, 75, 77, 78, 79, 80, 81, 82, 83, 84,
    54, 76, 55, 53, 16, 19, 26, 27, 28, 29, 30, 31, 32, 33, 34, 35, 36, 37, 38, 39, 40, 41, 42, 43,
    45, 46, 47, 48, 49, 50, 51, 52, 56, 5, 66, 44, 222,
];

/// The most zeros that any value can get after it in 64 bits.
const FEW_ZEROS: u8 = 3;

/// Returns a value with a few zeros after it.
fn lengthened(value: i64, zeros: u8) -> i64
    requires value_in { unsigned_abs value < 10 ^ 15 }
    requires zeros_in { zeros ≤ 3 }
    ensures { result ≡ value *ℤ pos (10 ^ zeros) }
{
    value * power_of_ten(zeros) as i64
}

/// Compares the values of two numbers. With few decimals it needs only 64 bits.
pub fn compare(a: Num, b: Num) -> Ordering
    ensures { result ≡ fraction_cmp (value_of a) (value_of b) }
{
    if a.dec == b.dec {
        return a.value.cmp(&b.value);
    }
    if a.dec <= FEW_ZEROS && b.dec <= FEW_ZEROS {
        return lengthened(a.value, b.dec).cmp(&lengthened(b.value, a.dec));
    }
    widened(a.value, b.dec).cmp(&widened(b.value, a.dec))
}

/// Returns the rank of a character; any other byte comes after all of them, by its value.
pub fn rank(c: u8) -> usize
    ensures { result ≡ rank c }
{
    if c < 128 {
        usize::from(RANKS[usize::from(c)])
    } else {
        95 + usize::from(c)
    }
}

/// Returns the character at a place, a blank after the end.
#[inline(always)]
fn character_at(text: &[u8], place: usize) -> u8
    ensures { result ≡ slice_index_or text.now place 32 }
{
    if place < text.len() {
        text[place]
    } else {
        b' '
    }
}

/// Compares two texts at the first place where they differ, the shorter one padded with blanks. Equal texts are compared in one piece.
#[tactic(auto, using(crate::proofs::OrderLemmas::equal_texts))]
pub fn compare_text(a: &[u8], b: &[u8]) -> Ordering
    ensures { result ≡ text_cmp a.now b.now }
{
    if a == b {
        return Ordering::Equal;
    }
    for place in 0..a.len().max(b.len()) {
        let (x, y) = (character_at(a, place), character_at(b, place));
        if x != y {
            let order = rank(x).cmp(&rank(y));
            if order != Ordering::Equal {
                return order;
            }
        }
    }
    Ordering::Equal
}
