//! Reads numbers from zoned texts that were written for them, without checking their characters.
ghost use Rattle.std.specs.Prelude.{◌≡◌, ◌<◌, ◌≤◌, ◌^◌, All, length, map};
ghost use Rattle.rpg_decimal_words.specs.Place.{place_value};
ghost use Rattle.rpg_decimal_words.specs.Zoned.{digit_of, spelled_number};
ghost use Rattle.rpg_store.specs.Written.{IsDigit, IsLastWritten, IsWritten};

/// Returns the number with these digits.
fn value_of(digits: &[u8]) -> u64
    requires few { length digits.now ≤ 14 }
    requires digits { All IsDigit digits.now }
    ensures value { result ≡ place_value (map digit_of digits.now) }
    ensures fits { result < 10 ^ length digits.now }
{
    let mut size = 0u64;
    for c in digits {
        size = size * 10 + u64::from(*c - b'0');
    }
    size
}

/// Returns the digit in the last place.
fn last_digit(c: u8) -> u8
    requires { IsLastWritten c }
    ensures digit { result ≡ digit_of c }
    ensures below { result < 10 }
{
    if c <= b'9' {
        c - b'0'
    } else if c == b'}' {
        0
    } else {
        c - b'I'
    }
}

/// Returns the number for which a text was written.
#[tactic(auto, using(crate::proofs::Reading::front_digits, crate::proofs::Reading::last_written))]
pub fn read_written(text: &[u8]) -> i64
    requires low { 1 ≤ length text.now }
    requires high { length text.now ≤ 15 }
    requires written { IsWritten text.now }
    ensures { result ≡ spelled_number text.now }
{
    let last = text.len() - 1;
    let size = value_of(&text[..last]) * 10 + u64::from(last_digit(text[last]));
    if text[last] <= b'9' {
        size as i64
    } else {
        -(size as i64)
    }
}
