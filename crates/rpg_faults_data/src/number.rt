//! The number that the text of an entry spells.

ghost use Rattle.std.specs.Prelude.{◌≡◌, ◌≤◌, ◌<◌, ◌^◌, Some, pos, unsigned_abs, length, IfSome};
ghost use Rattle.rpg_decimal_words.specs.Zoned.{number_in};

use rpg_decimal::read_zoned;

/// Returns the number that a text spells. Tries plain digits first, as most texts are; others have a sign in the last character.
pub fn number_in(text: &[u8]) -> Option<i64>
    requires low { 1 ≤ length text.now }
    requires high { length text.now ≤ 15 }
    ensures value { result ≡ number_in text.now }
    ensures fits { IfSome result (λ n. unsigned_abs n < 10 ^ 15) }
{
    match plain_number(text) {
        Some(number) => Some(number as i64),
        None => read_zoned(text).ok(),
    }
}

/// Returns the number of a text of digits.
fn plain_number(text: &[u8]) -> Option<u64>
    requires low { 1 ≤ length text.now }
    requires high { length text.now ≤ 15 }
    ensures value { IfSome result (λ n. number_in text.now ≡ Some (pos n)) }
    ensures fits { IfSome result (λ n. n < 10 ^ 15) }
{
    let mut number = 0u64;
    for c in text {
        if !c.is_ascii_digit() {
            return None;
        }
        number = number * 10 + u64::from(*c - b'0');
    }
    Some(number)
}
