//! Why a run produced no report.

ghost use Rattle.std.specs.Prelude.{◌≡◌};
ghost use Rattle.rpg_engine.specs.declared.fault.RunFault.TheVariants as faults;

use crate::files::OutputFile;
use crate::object::ObjectFault;
use rpg_cycle::StartFault;
use rpg_files::ReadFault;
use rpg_program::input::InputFile;
use std::alloc::AllocError;

/// Why a run produced no report.
#[derive(Clone, Copy)]
pub enum RunFault {
    /// The bytes aren't those of an accepted program.
    Object(ObjectFault),
    /// The date isn't six digits.
    BadDate,
    /// The reader of a file failed, or the file has more than 10,000,000 records.
    Read { file: InputFile, fault: ReadFault },
    /// The writer of a file failed after this many bytes were written to it.
    Write { file: OutputFile, sent: u128 },
    /// Memory ran out after this many complete cycles. All their output was sent.
    NoMemory { cycles: u64 },
}

impl From<ObjectFault> for RunFault {
    ghost from_gives = { λ fault e. e ≡ faults.Object fault };

    fn from(fault: ObjectFault) -> RunFault {
        RunFault::Object(fault)
    }
}

impl From<StartFault> for RunFault {
    ghost use Rattle.rpg_engine.specs.Refusing.{start_fault};

    ghost from_gives = { λ fault e. e ≡ start_fault fault };

    fn from(fault: StartFault) -> RunFault {
        match fault {
            StartFault::BadDate => RunFault::BadDate,
            StartFault::NoMemory => RunFault::NoMemory { cycles: 0 },
        }
    }
}

/// Why a cycle failed, for `?`. It is small: a cycle that succeeds carries no count of bytes sent.
#[derive(Clone, Copy)]
pub(crate) enum CycleFault {
    Read { file: InputFile, fault: ReadFault },
    NoMemory,
}

impl From<AllocError> for CycleFault {
    ghost use Rattle.rpg_engine.specs.declared.fault.CycleFault.TheVariants.{NoMemory};

    ghost from_gives = { λ _ e. e ≡ NoMemory };

    fn from(_error: AllocError) -> CycleFault {
        CycleFault::NoMemory
    }
}

impl From<AllocError> for RunFault {
    ghost from_gives = { λ _ e. e ≡ faults.NoMemory 0 };

    fn from(_error: AllocError) -> RunFault {
        RunFault::NoMemory { cycles: 0 }
    }
}
