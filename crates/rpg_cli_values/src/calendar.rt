//! Values that are written as digits: six that may be a date, a byte, and switches.

ghost use Rattle.std.specs.Prelude.{◌≡◌, ◌≤◌};
ghost use Rattle.rpg_cli_values.specs.Dates as words;

/// Whether a month has 30 days.
fn is_short(month: u8) -> bool
    ensures { result ≡ words.is_short month }
{
    month == 4 || month == 6 || month == 9 || month == 11
}

/// Returns the most days that a month has.
fn days_of(month: u8) -> u8
    ensures { result ≡ words.days_of month }
{
    if month == 2 {
        29
    } else if is_short(month) {
        30
    } else {
        31
    }
}

fn is_day(month: u8, day: u8) -> bool
    ensures { result ≡ words.is_day month day }
{
    1 <= month && month <= 12 && (1 <= day && day <= days_of(month))
}

/// Whether three numbers are a date: in the order of month and day, of day and month, or of year, month and day.
fn may_be_date(first: u8, second: u8, third: u8) -> bool
    ensures { result ≡ words.may_be_date first second third }
{
    is_day(first, second) || is_day(second, first) || is_day(second, third)
}

/// Returns the value of a digit.
fn digit(byte: u8) -> Option<u8> {
    byte.is_ascii_digit().then_some(byte.saturating_sub(b'0'))
}

/// Returns the two-digit number at a place.
fn two_digits(text: &[u8], place: usize) -> Option<u8> {
    let tens = digit(*text.get(place)?)?;
    let ones = digit(*text.get(place.saturating_add(1))?)?;
    Some(tens.saturating_mul(10).saturating_add(ones))
}

/// Whether a text is six digits that aren't a date in any order.
pub fn are_no_date(text: &str) -> bool {
    let text = text.as_bytes();
    if text.len() != 6 {
        return false;
    }
    match (
        two_digits(text, 0),
        two_digits(text, 2),
        two_digits(text, 4),
    ) {
        (Some(first), Some(second), Some(third)) => !may_be_date(first, second, third),
        _ => false,
    }
}

/// Returns the byte that two hexadecimal digits stand for.
pub fn byte_of(text: &str) -> Option<u8> {
    match text.as_bytes() {
        [b'+', _] => None,
        [_, _] => u8::from_str_radix(text, 16).ok(),
        _ => None,
    }
}

/// Whether a text has a digit 0 or 1 for each switch.
pub fn are_switches(text: &str) -> bool {
    let mut digits = text.as_bytes().iter();
    text.len() == 8 && digits.all(|digit| matches!(*digit, b'0' | b'1'))
}
