//! What is wrong with bytes that can't be read.

ghost use Rattle.std.specs.Prelude.{◌≡◌, ◌≤◌, Some, length};
ghost use Rattle.rpg_object_format.specs.CodeTexts.{code_text};
ghost use Rattle.rpg_object_format.specs.declared.fault.ReadFault.TheVariants.{NoMemory};

use std::alloc::{AllocError, AllocFailed};
use std::fmt;

/// How a number breaks its rule.
#[derive(Clone, Copy, Debug, PartialEq, Eq)]
pub enum Code {
    /// B1: the bytes don't begin with the name of an object program.
    NoObject,
    /// B2: the version isn't supported.
    Version,
    /// B3: the bytes end inside a number.
    CutShort,
    /// B4: bytes are left over.
    LeftOver,
    /// B5: the value isn't among those allowed.
    NotAllowed,
    /// B6: an unused number isn't 0.
    Unused,
    /// B7: a count, or a total of counts, is over its limit.
    PastLimit,
}

impl Code {
    /// Returns the letter B and the number.
    pub fn text(self) -> &'static str
        ensures value { result.now ≡ code_text self }
        ensures len { length result.now ≤ 2 }
    {
        match self {
            Code::NoObject => "B1",
            Code::Version => "B2",
            Code::CutShort => "B3",
            Code::LeftOver => "B4",
            Code::NotAllowed => "B5",
            Code::Unused => "B6",
            Code::PastLimit => "B7",
        }
    }
}

impl fmt::Display for Code {
    ghost output = { λ c. Some (code_text c) };

    fn fmt<W: fmt::Write>(&self, f: &mut fmt::Formatter<W>) -> fmt::Result {
        f.write_str(self.text())
    }
}

/// The number that breaks its rule, as the count of bytes from its first one to the end; 0 if it is cut short.
#[derive(Clone, Copy, Debug, PartialEq, Eq)]
pub struct Fault {
    pub left: usize,
    pub code: Code,
}

/// Why bytes can't be read.
#[derive(Clone, Copy, Debug, PartialEq, Eq)]
pub enum ReadFault {
    NoMemory,
    At(Fault),
}

impl<T: Drop> From<AllocFailed<T>> for ReadFault {
    ghost from_gives = { λ _ e. e ≡ NoMemory };

    fn from(_e: AllocFailed<T>) -> ReadFault {
        ReadFault::NoMemory
    }
}

impl From<AllocError> for ReadFault {
    ghost from_gives = { λ _ e. e ≡ NoMemory };

    fn from(_e: AllocError) -> ReadFault {
        ReadFault::NoMemory
    }
}
