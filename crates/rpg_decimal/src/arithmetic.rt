//! Sums, differences and products, as a result field keeps them. That excess digits on the left are lost
//! without a halt is a rule of this profile.
ghost use Rattle.std.specs.Prelude.{◌≡◌, ◌+◌, ◌*◌, ◌^◌, ◌<◌, ◌≤◌, max, pos, ◌*ℤ◌, unsigned_abs};
ghost use Rattle.rpg_decimal_words.specs.Fraction.{stored_number, plus, minus, times, with_decimals};
ghost use Rattle.rpg_decimal.specs.Num.{value_of};

use crate::num::{Num, Scale, Target};
use crate::whole::{align, fit, fit_small, power_of_ten};

/// Returns the number `n` of `from` decimals as the target keeps it, by a shift.
fn kept_by_shift(n: i128, from: Scale, target: Target) -> i64
    requires { unsigned_abs n < 10 ^ 36 }
    ensures value { result ≡ stored_number target.half target.dec target.len (with_decimals n from.value) }
    ensures fits { unsigned_abs result < 10 ^ target.len }
{
    let to = Scale { value: target.dec };
    if from.value < target.dec {
        // A shift up may exceed 128 bits, so digits that no field keeps are dropped first.
        let lowest = i128::from(fit(n, 15));
        return fit(align(lowest, from, to, target.half), target.len);
    }
    fit(align(n, from, to, target.half), target.len)
}

/// Returns the number `n` of `from` decimals as the target keeps it: aligned, and without excess digits on the
/// left.
pub fn keep(n: i128, from: Scale, target: Target) -> i64
    requires { unsigned_abs n < 10 ^ 36 }
    ensures value { result ≡ stored_number target.half target.dec target.len (with_decimals n from.value) }
    ensures fits { unsigned_abs result < 10 ^ target.len }
{
    if from.value == target.dec {
        return fit(n, target.len);
    }
    kept_by_shift(n, from, target)
}

/// Returns the value with `scale` more decimals.
pub(crate) fn widened(value: i64, scale: u8) -> i128
    requires value_in { unsigned_abs value < 10 ^ 15 }
    requires scale_in { scale ≤ 18 }
    ensures value { result ≡ value *ℤ pos (10 ^ scale) }
    ensures bound { unsigned_abs result < 10 ^ 33 }
{
    i128::from(value) * i128::from(power_of_ten(scale))
}

/// Returns the greater number of decimals.
fn more_decimals(a: Num, b: Num) -> Scale
    ensures { result.value ≡ max a.dec b.dec }
{
    Scale {
        value: a.dec.max(b.dec),
    }
}

/// Returns the sum of the decimals.
fn both_decimals(a: Num, b: Num) -> Scale
    ensures { result.value ≡ a.dec + b.dec }
{
    Scale {
        value: a.dec + b.dec,
    }
}

/// Adds `a` and `b`, widened to the decimals of the one that has more.
fn added_by_scale(a: Num, b: Num, target: Target) -> i64
    ensures value { result ≡ stored_number target.half target.dec target.len (plus (value_of a) (value_of b)) }
    ensures fits { unsigned_abs result < 10 ^ target.len }
{
    let scale = more_decimals(a, b);
    let sum = widened(a.value, scale.value - a.dec) + widened(b.value, scale.value - b.dec);
    keep(sum, scale, target)
}

/// Adds `a` and `b`.
pub fn add(a: Num, b: Num, target: Target) -> i64
    ensures value { result ≡ stored_number target.half target.dec target.len (plus (value_of a) (value_of b)) }
    ensures fits { unsigned_abs result < 10 ^ target.len }
{
    if a.dec == b.dec && b.dec == target.dec {
        return fit_small(a.value + b.value, target.len);
    }
    added_by_scale(a, b, target)
}

/// Subtracts `b` from `a`, widened to the decimals of the one that has more.
fn subtracted_by_scale(a: Num, b: Num, target: Target) -> i64
    ensures value { result ≡ stored_number target.half target.dec target.len (minus (value_of a) (value_of b)) }
    ensures fits { unsigned_abs result < 10 ^ target.len }
{
    let scale = more_decimals(a, b);
    let difference = widened(a.value, scale.value - a.dec) - widened(b.value, scale.value - b.dec);
    keep(difference, scale, target)
}

/// Subtracts `b` from `a`.
pub fn sub(a: Num, b: Num, target: Target) -> i64
    ensures value { result ≡ stored_number target.half target.dec target.len (minus (value_of a) (value_of b)) }
    ensures fits { unsigned_abs result < 10 ^ target.len }
{
    if a.dec == b.dec && b.dec == target.dec {
        return fit_small(a.value - b.value, target.len);
    }
    subtracted_by_scale(a, b, target)
}

/// Multiplies `a` by `b`.
pub fn mult(a: Num, b: Num, target: Target) -> i64
    ensures value { result ≡ stored_number target.half target.dec target.len (times (value_of a) (value_of b)) }
    ensures fits { unsigned_abs result < 10 ^ target.len }
{
    let product = i128::from(a.value) * i128::from(b.value);
    keep(product, both_decimals(a, b), target)
}
