//! What is wrong with a source.

ghost use Rattle.std.specs.Prelude.{◌≡◌, ◌≤◌, length};
ghost use Rattle.rpg_faults.specs.SourceCodes as codes;
ghost use Rattle.rpg_faults.specs.declared.source_fault.SourceFault.TheVariants.{NoMemory};

use crate::FaultCode;
use crate::cause::Cause;
use rpg_sheet::{ColumnFault, SheetCode, SheetFault};
use std::alloc::AllocError;
use std::fmt;

/// The fault of a card: in its own columns, or with respect to the others.
#[derive(Clone, Copy)]
pub enum SourceCode {
    Sheet(SheetCode),
    Fault(FaultCode),
}

impl SourceCode {
    /// Returns the letter and the number.
    pub const fn text(self) -> &'static str
        ensures value { result.now ≡ codes.source_code_text self }
        ensures len { length result.now ≤ 4 }
    {
        match self {
            SourceCode::Sheet(code) => code.text(),
            SourceCode::Fault(code) => code.text(),
        }
    }
}

/// A fault of a source at a card.
#[derive(Drop)]
pub struct CardFault {
    /// Cards are numbered from 1. Card 0 is the source as a whole.
    pub card: u16,
    pub code: SourceCode,
    /// The columns that the fault points at; None for the card as a whole, and for all S codes but S5.
    pub columns: Option<ColumnFault>,
    /// Why the card breaks the rule; None for S codes and for the source as a whole.
    pub cause: Option<Cause>,
}

/// What is wrong with a source.
#[derive(Clone, Copy)]
pub enum SourceFault {
    /// Cards are numbered from 1; card 0 is the source as a whole. The columns are those of the leftmost bad value, with S5
    /// only.
    At {
        card: u16,
        code: SourceCode,
        columns: Option<ColumnFault>,
    },
    NoMemory,
}

impl fmt::Display for SourceFault {
    fn fmt<W: fmt::Write>(&self, f: &mut fmt::Formatter<W>) -> fmt::Result {
        match self {
            SourceFault::At { card, code, .. } => {
                let code = code.text();
                write!(f, "card {card}: {code}")
            }
            SourceFault::NoMemory => f.write_str("no memory"),
        }
    }
}

impl From<SheetFault> for SourceFault {
    ghost use Rattle.rpg_faults.specs.Source.{of_sheet};

    ghost from_gives = { λ fault result. result ≡ of_sheet fault };

    fn from(fault: SheetFault) -> Self {
        match fault {
            SheetFault::At {
                card,
                code,
                columns,
            } => SourceFault::At {
                card,
                code: SourceCode::Sheet(code),
                columns,
            },
            SheetFault::NoMemory => SourceFault::NoMemory,
        }
    }
}

impl From<AllocError> for SourceFault {
    ghost from_gives = { λ _ fault. fault ≡ NoMemory };

    fn from(_: AllocError) -> Self {
        SourceFault::NoMemory
    }
}
