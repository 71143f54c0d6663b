//! Halts.

ghost use Rattle.std.specs.Prelude.{◌≡◌};
ghost use Rattle.rpg_program.specs.Halts.{halt_number};

/// Why a job halts.
#[derive(Clone, Copy, PartialEq, Eq)]
pub enum Halt {
    /// A division by zero.
    ZeroDivisor,
    /// An index without an entry in its table or array.
    BadIndex,
    /// A record that belongs to no type.
    NoRecordType,
    /// A numeric field with a character that isn't a digit.
    BadDigit,
    /// A backward branch or a call beyond the cycle's allowance.
    AllowanceSpent,
    /// A halt indicator that is on.
    IndicatorOn,
    /// A record that is too long, or has a byte that isn't a character.
    BadRecord,
    /// A record whose match value is lower than the last one of its file.
    OutOfSequence,
}

impl Halt {
    /// Returns the number of a halt.
    pub fn number(self) -> u8
        ensures { result ≡ halt_number self }
    {
        match self {
            Halt::ZeroDivisor => 1,
            Halt::BadIndex => 2,
            Halt::NoRecordType => 3,
            Halt::BadDigit => 4,
            Halt::AllowanceSpent => 5,
            Halt::IndicatorOn => 6,
            Halt::BadRecord => 7,
            Halt::OutOfSequence => 8,
        }
    }
}
