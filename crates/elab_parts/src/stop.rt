//! The faults of elaboration, as the walk finds them.

ghost use Rattle.std.specs.Prelude.{◌≡◌};
ghost use Rattle.elab_parts.specs.declared.stop.Stop.TheVariants as stops;
ghost use Rattle.elab_parts.specs.Stops.{of_walk};

use std::alloc::AllocError;
use sv_expr::WalkFault;
use sv_tree::{NameId, NoMemory};
use thiserror::Error;
use vs_base::Origin;

/// What the walk counts against a limit.
#[derive(Clone, Copy, Debug, PartialEq, Eq)]
pub enum Counted {
    Instances,
    Processes,
    Terms,
    Calls,
}

/// What ends the walk before its end.
#[derive(Clone, Copy, Debug, PartialEq, Eq, Error)]
pub enum Stop {
    #[error("too wide")]
    TooWide(Origin),
    #[error("bad range")]
    BadRange(Origin),
    #[error("bad event")]
    BadEvent(Origin, NameId),
    #[error("too many loop turns")]
    LoopTurns(Origin),
    #[error("too many")]
    TooMany(Counted),
    #[error("out of memory")]
    NoMemory,
}

impl From<WalkFault> for Stop {
    ghost from_gives = { λ fault stop. stop ≡ of_walk fault };

    fn from(fault: WalkFault) -> Stop {
        match fault {
            WalkFault::TooWide(at) => Stop::TooWide(at),
            WalkFault::BadRange(at) => Stop::BadRange(at),
        }
    }
}

impl From<NoMemory> for Stop {
    ghost from_gives = { λ _ stop. stop ≡ stops.NoMemory };

    fn from(_: NoMemory) -> Stop {
        Stop::NoMemory
    }
}

impl From<AllocError> for Stop {
    ghost from_gives = { λ _ stop. stop ≡ stops.NoMemory };

    fn from(_: AllocError) -> Stop {
        Stop::NoMemory
    }
}
