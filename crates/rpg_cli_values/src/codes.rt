//! Sets of codes.

ghost use Rattle.std.specs.Prelude.{◌≡◌};
ghost use Rattle.rpg_cli_values.specs.Codes.{has, with};

use crate::code::WarningCode;

/// A set of codes.
#[derive(Clone, Copy)]
pub struct WarningCodes {
    /// Whether each code is in it, by the code's number.
    marks: [bool; 15],
}

impl WarningCodes {
    pub const NONE: WarningCodes = WarningCodes { marks: [false; 15] };

    pub const ALL: WarningCodes = WarningCodes { marks: [true; 15] };

    /// Whether a code is in the set.
    pub const fn has(self, code: WarningCode) -> bool
        ensures { result ≡ has self code }
    {
        self.marks[code.number()]
    }

    /// Returns the set with one more code.
    pub fn with(self, code: WarningCode) -> WarningCodes
        ensures { result ≡ with self code }
    {
        let mut marks = self.marks;
        marks[code.number()] = true;
        WarningCodes { marks }
    }

    /// Whether no code is in the set.
    pub fn is_empty(self) -> bool {
        self.marks.iter().all(|is_marked| !*is_marked)
    }

    /// Returns the set of the codes that these texts name; `all` names each.
    pub fn named(texts: &[&str]) -> WarningCodes {
        let mut codes = WarningCodes::NONE;
        for text in texts {
            codes = match WarningCode::named(text) {
                Some(code) => codes.with(code),
                None if *text == "all" => WarningCodes::ALL,
                None => codes,
            };
        }
        codes
    }
}
