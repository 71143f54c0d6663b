//! The characters of two-digit numbers.

ghost use Rattle.std.specs.Prelude.{◌≡◌, ◌+◌, ◌/◌, ◌%◌, ◌<◌};

/// The characters of 0 to 99, two of each.
static PAIRS: [u8; 200] =
    *b"00010203040506070809101112131415161718192021222324252627282930313233343536373839404142434445464748495051525354555657585960616263646566676869707172737475767778798081828384858687888990919293949596979899";

/// Returns the characters of the tens and of the units.
#[inline(always)]
pub fn pair_of(two: u8) -> (u8, u8)
    requires { two < 100 }
    ensures tens { result.0 ≡ 48 + two / 10 }
    ensures ones { result.1 ≡ 48 + two % 10 }
{
    let place = usize::from(two) * 2;
    (PAIRS[place], PAIRS[place + 1])
}
