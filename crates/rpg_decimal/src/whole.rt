//! Whole numbers: shifts by powers of ten, half adjust, and the lowest digits.
ghost use Rattle.std.specs.Prelude.{◌≡◌, ◌+◌, ◌*◌, ◌/◌, ◌^◌, ◌<◌, ◌≤◌, unsigned_abs};
ghost use Rattle.rpg_decimal_words.specs.Whole.{fit, rounded_quotient, with_sign_of};
ghost use Rattle.rpg_decimal_words.specs.Fraction.{aligned_number, with_decimals};

use crate::num::Scale;

/// The powers of ten, lowest first.
const POWERS_OF_TEN: [u64; 19] = [
    1,
    10,
    100,
    1_000,
    10_000,
    100_000,
    1_000_000,
    10_000_000,
    100_000_000,
    1_000_000_000,
    10_000_000_000,
    100_000_000_000,
    1_000_000_000_000,
    10_000_000_000_000,
    100_000_000_000_000,
    1_000_000_000_000_000,
    10_000_000_000_000_000,
    100_000_000_000_000_000,
    1_000_000_000_000_000_000,
];

/// Returns 10^k.
pub(crate) fn power_of_ten(k: u8) -> u64
    requires { k ≤ 18 }
    ensures value { result ≡ 10 ^ k }
    ensures positive { 0 < result }
    ensures bound { result ≤ 10 ^ 18 }
{
    POWERS_OF_TEN[usize::from(k)]
}

/// Returns the magnitude `size` with the sign of `n`.
pub(crate) fn with_sign_of(n: i128, size: u128) -> i128
    requires { size < 2 ^ 127 }
    ensures value { result ≡ with_sign_of n size }
    ensures bound { unsigned_abs result ≡ size }
{
    if n < 0 { -(size as i128) } else { size as i128 }
}

/// Returns `size` / `divisor`, computed in 64 bits if both fit.
pub(crate) fn quotient(size: u128, divisor: u128) -> u128
    requires { 0 < divisor }
    ensures { result ≡ size / divisor }
{
    match (u64::try_from(size), u64::try_from(divisor)) {
        (Ok(size), Ok(divisor)) => u128::from(size / divisor),
        _ => size / divisor,
    }
}

/// Returns `n` / `divisor` as a whole number, half adjusted or truncated toward zero.
pub(crate) fn rounded_quotient(n: i128, divisor: u128, half: bool) -> i128
    requires divisor_low { 0 < divisor }
    requires divisor_high { divisor ≤ 10 ^ 37 }
    requires n_in { unsigned_abs n < 10 ^ 37 }
    ensures value { result ≡ rounded_quotient half n divisor }
    ensures bound { unsigned_abs result ≤ unsigned_abs n }
{
    let size = n.unsigned_abs();
    if half {
        with_sign_of(n, quotient(size + divisor / 2, divisor))
    } else {
        with_sign_of(n, quotient(size, divisor))
    }
}

/// Like `fit`, for a number of 64 bits.
pub(crate) fn fit_small(n: i64, len: u8) -> i64
    requires low { 1 ≤ len }
    requires high { len ≤ 15 }
    ensures value { result ≡ fit n len }
    ensures fits { unsigned_abs result < 10 ^ len }
{
    let limit = power_of_ten(len);
    if n.unsigned_abs() < limit {
        n
    } else {
        n % limit as i64
    }
}

/// Returns the lowest `len` digits of `n` with its sign; minus zero is zero.
pub fn fit(n: i128, len: u8) -> i64
    requires low { 1 ≤ len }
    requires high { len ≤ 15 }
    ensures value { result ≡ fit n len }
    ensures fits { unsigned_abs result < 10 ^ len }
{
    match i64::try_from(n) {
        Ok(n) => fit_small(n, len),
        Err(_) => (n % i128::from(power_of_ten(len))) as i64,
    }
}

/// Returns the number `n` of `from` decimals with `to` decimals: extra digits on the right are cut off or
/// half adjusted.
pub fn align(n: i128, from: Scale, to: Scale, half: bool) -> i128
    requires n_in { unsigned_abs n < 10 ^ 37 }
    requires result_in { unsigned_abs (aligned_number half to.value (with_decimals n from.value)) < 10 ^ 37 }
    ensures { result ≡ aligned_number half to.value (with_decimals n from.value) }
{
    if from.value == to.value {
        return n;
    }
    if from.value < to.value {
        return n * i128::from(power_of_ten(to.value - from.value));
    }
    rounded_quotient(n, u128::from(power_of_ten(from.value - to.value)), half)
}
