//! How a cycle and a job end.

use rpg_program::halt::Halt;
use std::alloc::AllocError;
use thiserror::Error;

/// How a job ended.
#[derive(Clone, Copy)]
pub enum JobEnd {
    EndOfJob,
    Halt(Halt),
}

/// What a cycle led to, for its caller. `JobEnd` covers only jobs that have ended, and a caller first tests whether the job continues.
#[derive(Clone, Copy)]
pub enum CycleEnd {
    Continues,
    EndOfJob,
    Halt(Halt),
    /// Memory ran out in an earlier cycle.
    Failed,
}

/// A job's progress between cycles. It holds the job's end as one value, which a run returns unchanged.
#[derive(Clone, Copy)]
pub enum Progress {
    Going,
    Ended(JobEnd),
    Failed,
}

/// Why a phase stopped the cycle: the error that `?` passes on, so it has no value for going on.
#[derive(Clone, Copy)]
pub enum PhaseStop {
    Ends(JobEnd),
    NoMemory,
}

impl From<AllocError> for PhaseStop {
    ghost use Rattle.std.specs.Prelude.{◌≡◌};
    ghost use Rattle.rpg_cycle.specs.declared.ends.PhaseStop.TheVariants.{NoMemory};

    ghost from_gives = { λ _ e. e ≡ NoMemory };

    fn from(_error: AllocError) -> PhaseStop {
        PhaseStop::NoMemory
    }
}

/// Why a job doesn't start. Only its date can be bad, and no cycle reports that.
#[derive(Clone, Copy, Debug, Error)]
pub enum StartFault {
    #[error("the date is not six digits")]
    BadDate,
    #[error("no memory")]
    NoMemory,
}

impl From<AllocError> for StartFault {
    ghost use Rattle.std.specs.Prelude.{◌≡◌};
    ghost use Rattle.rpg_cycle.specs.declared.ends.StartFault.TheVariants.{NoMemory};

    ghost from_gives = { λ _ e. e ≡ NoMemory };

    fn from(_error: AllocError) -> StartFault {
        StartFault::NoMemory
    }
}
