//! Why a conversion ends early.

ghost use Rattle.std.specs.Prelude.{◌≡◌, ◌^◌, ◌-◌, ◌<◌, IfErr, OnOk};
ghost use Rattle.rpg_files.specs.Counting.{faults_of};
ghost use Rattle.rpg_csv_lines.specs.Stops.{IsCounted};

use rpg_csv_columns::{Fault, Part, Refusal, Sample};
use rpg_files::{Counted, send};
use std::alloc::AllocError;
use std::io;

/// Why a conversion ends early.
#[derive(Clone, Copy)]
pub enum Stop {
    /// A part of the input is rejected.
    Refused(Refusal),
    /// The reader failed.
    Read,
    /// The writer failed.
    Write,
    NoMemory,
}

impl Stop {
    /// The fault of a part, unless memory ran out. `text` is what the fault is about.
    pub(crate) fn at(part: Part, fault: Fault, text: Sample) -> Self
        ensures { IsCounted 0 0 0 0 result }
    {
        match fault {
            Fault::NoMemory => Stop::NoMemory,
            fault => Stop::Refused(Refusal { part, fault, text }),
        }
    }
}

impl From<AllocError> for Stop {
    ghost use Rattle.std.specs.Prelude.{◌≡◌};
    ghost use Rattle.rpg_csv_lines.specs.declared.stop.Stop.TheVariants.{NoMemory};

    ghost from_gives = { λ _ e. e ≡ NoMemory };

    fn from(_: AllocError) -> Self {
        Stop::NoMemory
    }
}

/// Writes all bytes.
pub(crate) fn send_all<W: io::Write>(writer: &mut Counted<W>, bytes: &[u8]) -> Result<(), Stop>
    requires { faults_of writer.old < 2 ^ 64 - 1 }
    ensures ok { OnOk result (faults_of writer.new ≡ faults_of writer.old) }
    ensures stop { IfErr result (IsCounted 0 0 (faults_of writer.old) (faults_of writer.new)) }
{
    match send(writer, bytes) {
        Ok(()) => Ok(()),
        Err(_) => Err(Stop::Write),
    }
}
