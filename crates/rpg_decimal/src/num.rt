//! Numbers, and the forms that results are kept in. The limits are this profile's.
ghost use Rattle.std.specs.Prelude.{◌≡◌, ◌^◌, ◌<◌, ◌≤◌, unsigned_abs};

/// How many digits follow the decimal point.
#[derive(Clone, Copy)]
pub struct Scale {
    pub value: u8,
    pub ghost in_range: { value ≤ 18 },
}

/// The number `value` with its decimal point before the last `dec` digits.
#[derive(Clone, Copy)]
pub struct Num {
    pub value: i64,
    pub dec: u8,
    pub ghost value_in: { unsigned_abs value < 10 ^ 15 },
    pub ghost dec_in: { dec ≤ 9 },
}

/// How a result is kept: in `len` digits, `dec` of them decimals, half adjusted or not.
#[derive(Clone, Copy)]
pub struct Target {
    pub len: u8,
    pub dec: u8,
    pub half: bool,
    pub ghost len_low: { 1 ≤ len },
    pub ghost len_high: { len ≤ 15 },
    pub ghost dec_in: { dec ≤ 9 },
}

/// A whole number of `len` digits.
#[derive(Clone, Copy)]
pub struct Figure {
    pub value: i64,
    pub len: u8,
    pub ghost len_low: { 1 ≤ len },
    pub ghost len_high: { len ≤ 15 },
    pub ghost fits: { unsigned_abs value < 10 ^ len },
}

/// The remainder of a division: `value` with its decimal point before the last `dec` digits.
#[derive(Clone, Copy)]
pub struct Rest {
    pub value: i128,
    pub dec: Scale,
    pub ghost bound: { unsigned_abs value < 10 ^ 15 },
}
