//! A day, as six digits.

ghost use Rattle.std.specs.Prelude.{◌≡◌, ◌<◌, ◌+◌, ◌∷◌, []};
ghost use Rattle.rpg_cli_values.specs.Dates as words;

/// The order of the parts of a date.
#[derive(Clone, Copy, PartialEq, Eq)]
pub enum DateOrder {
    /// Month, day, year.
    MonthFirst,
    /// Day, month, year.
    DayFirst,
    /// Year, month, day.
    YearFirst,
}

/// A day: the last two digits of its year, its month and its day of the month.
#[derive(Clone, Copy)]
pub struct Day {
    pub year: u8,
    pub month: u8,
    pub day: u8,
}

/// Returns the tens digit and the units digit.
fn digits(number: u8) -> (u8, u8)
    requires { number < 100 }
    ensures tens { result.0 ≡ words.tens number }
    ensures ones { result.1 ≡ words.ones number }
{
    (b'0' + number / 10, b'0' + number % 10)
}

fn six(first: u8, second: u8, third: u8) -> [u8; 6]
    requires first { first < 100 }
    requires second { second < 100 }
    requires third { third < 100 }
    ensures { result ≡ words.six first second third }
{
    let (a, b) = digits(first);
    let (c, d) = digits(second);
    let (e, f) = digits(third);
    [a, b, c, d, e, f]
}

impl Day {
    /// Returns the day as six digits.
    pub fn six_digits(self, order: DateOrder) -> [u8; 6]
        requires year { self.year < 100 }
        requires month { self.month < 100 }
        requires day { self.day < 100 }
        ensures { result ≡ words.six_digits self order }
    {
        match order {
            DateOrder::MonthFirst => six(self.month, self.day, self.year),
            DateOrder::DayFirst => six(self.day, self.month, self.year),
            DateOrder::YearFirst => six(self.year, self.month, self.day),
        }
    }
}
