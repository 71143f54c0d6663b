//! Quotients, and the remainders for MVR.
ghost use Rattle.std.specs.Prelude.{◌≡◌, ◌↔◌, ◌*◌, ◌^◌, ◌<◌, ◌≤◌, pos, ◌*ℤ◌, unsigned_abs, false, IfOk, Err};
ghost use Rattle.std.specs.Int.{int_signum};
ghost use Rattle.rpg_decimal_words.specs.Fraction.{stored_number, aligned_number, with_decimals, over, rest_of, rest_decimals, IsSameValue};
ghost use Rattle.rpg_decimal.specs.Num.{value_of};

use crate::arithmetic::widened;
use crate::num::{Num, Rest, Scale, Target};
use crate::whole::{fit, power_of_ten, rounded_quotient, with_sign_of};
use thiserror::Error;

/// A division by zero.
#[derive(Clone, Copy, Debug, Error)]
#[error("division by zero")]
pub struct ZeroDivisor;

/// Returns the magnitude of `value` with `scale` more decimals.
fn widened_size(value: i64, scale: u8) -> u128
    requires value_in { unsigned_abs value < 10 ^ 15 }
    requires scale_in { scale ≤ 18 }
    ensures value { result ≡ unsigned_abs value * 10 ^ scale }
    ensures bound { result < 10 ^ 33 }
{
    u128::from(value.unsigned_abs()) * u128::from(power_of_ten(scale))
}

/// Returns the dividend for a positive divisor: `value` with `scale` more decimals, with the sign of the quotient.
fn dividend(value: i64, scale: u8, divisor: i64) -> i128
    requires value_in { unsigned_abs value < 10 ^ 15 }
    requires scale_in { scale ≤ 18 }
    ensures value { result ≡ value *ℤ pos (10 ^ scale) *ℤ int_signum divisor }
    ensures bound { unsigned_abs result < 10 ^ 33 }
{
    widened(value, scale) * i128::from(divisor.signum())
}

/// Divides `a` by `b`.
pub fn div(a: Num, b: Num, target: Target) -> Result<i64, ZeroDivisor>
    ensures zero { (result ≡ Err record {}) ↔ (b.value ≡ pos 0) }
    ensures value { IfOk result (λ n. n ≡ stored_number target.half target.dec target.len (over (value_of a) (value_of b))) }
    ensures fits { IfOk result (λ n. unsigned_abs n < 10 ^ target.len) }
{
    if b.value == 0 {
        return Err(ZeroDivisor);
    }
    let dividend = dividend(a.value, b.dec + target.dec, b.value);
    let quotient = rounded_quotient(dividend, widened_size(b.value, a.dec), target.half);
    Ok(fit(quotient, target.len))
}

/// Returns `a` minus `b` times the quotient, which is truncated to `dec` decimals.
pub fn remainder(a: Num, b: Num, dec: u8) -> Result<Rest, ZeroDivisor>
    requires { dec ≤ 9 }
    ensures zero { (result ≡ Err record {}) ↔ (b.value ≡ pos 0) }
    ensures scale { IfOk result (λ r. r.dec.value ≡ rest_decimals a.dec b.dec dec) }
    ensures value { IfOk result (λ r. r.value ≡ aligned_number false (rest_decimals a.dec b.dec dec) (rest_of (value_of a) (value_of b) dec)) }
    // no digit of the remainder is lost
    ensures exact { IfOk result (λ r. IsSameValue (with_decimals r.value r.dec.value) (rest_of (value_of a) (value_of b) dec)) }
{
    if b.value == 0 {
        return Err(ZeroDivisor);
    }
    let scale = a.dec.max(b.dec + dec);
    let dividend = widened_size(a.value, scale - a.dec);
    let divisor = widened_size(b.value, scale - (b.dec + dec));
    Ok(Rest {
        value: with_sign_of(i128::from(a.value), dividend % divisor),
        dec: Scale { value: scale },
    })
}
