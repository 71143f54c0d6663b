//! The argument for the date of a job.

use crate::day::DateOrder;
use std::str;

/// The date of a job.
#[derive(Clone, Copy)]
pub enum DateArgument<'a> {
    /// As written: six digits, unless it is wrong.
    Written(&'a str),
    /// The day on which the job runs.
    Today(DateOrder),
    /// That day, once it is read from the clock.
    Clock([u8; 6]),
}

impl<'a> DateArgument<'a> {
    /// Reads `today`, with the order of its parts, and takes anything else as it is written.
    pub fn of(text: &'a str) -> DateArgument<'a> {
        match text {
            "today" => DateArgument::Today(DateOrder::MonthFirst),
            "today-dmy" => DateArgument::Today(DateOrder::DayFirst),
            "today-ymd" => DateArgument::Today(DateOrder::YearFirst),
            _ => DateArgument::Written(text),
        }
    }

    /// Returns the date as written, or the digits of the clock.
    pub fn text(&self) -> &str {
        match self {
            DateArgument::Written(text) => text,
            DateArgument::Today(_) => "today",
            DateArgument::Clock(digits) => str::from_utf8(digits).unwrap_or(""),
        }
    }
}
