//! Why a deck can't be rewritten.

ghost use Rattle.std.specs.Prelude.{◌≡◌};
ghost use Rattle.rpg_fit.specs.declared.fault.FitFault.TheVariants.{NoMemory};
ghost use Rattle.rpg_fit.specs.Faults.{fit_fault};

use rpg_faults::SourceFault;
use rpg_fit_deck::{Refusal, Stopped};
use std::alloc::AllocError;

/// Why a deck can't be rewritten.
#[derive(Clone, Copy)]
pub enum FitFault {
    /// A rule rejects one of its cards.
    Refused(Refusal),
    /// It has more than 2,000 cards, or would have.
    TooMany,
    NoMemory,
}

impl From<AllocError> for FitFault {
    ghost from_gives = { λ _ fault. fault ≡ NoMemory };

    fn from(_: AllocError) -> Self {
        FitFault::NoMemory
    }
}

impl From<Stopped> for FitFault {
    ghost from_gives = { λ stopped fault. fault ≡ fit_fault stopped };

    fn from(stopped: Stopped) -> Self {
        match stopped {
            Stopped::Refused(refusal) => FitFault::Refused(refusal),
            Stopped::TooMany => FitFault::TooMany,
            Stopped::NoMemory => FitFault::NoMemory,
        }
    }
}

impl From<SourceFault> for FitFault {
    ghost from_gives = { λ _ fault. fault ≡ NoMemory };

    fn from(_: SourceFault) -> Self {
        FitFault::NoMemory
    }
}
