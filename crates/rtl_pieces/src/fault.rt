ghost use Rattle.std.specs.Prelude.{◌≡◌, alloc_error};
ghost use Rattle.rtl_pieces.specs.declared.fault.DriverFault.TheVariants as driver;
ghost use Rattle.rtl_pieces.specs.declared.fault.CutFault.TheVariants as cut;

use crate::bit::BitRef;
use std::alloc::{AllocError, AllocFailed};
use thiserror::Error;

/// Why the drivers of a design are refused.
#[derive(Clone, Copy, Debug, PartialEq, Eq, Error)]
pub enum DriverFault {
    /// There was no memory left.
    #[error("out of memory")]
    NoMemory(AllocError),
    /// The least bit that two processes write, and the first two of them.
    #[error("two drivers")]
    MultipleDrivers(BitRef, u32, u32),
}

/// Why a design is not cut into words.
#[derive(Clone, Copy, Debug, PartialEq, Eq, Error)]
pub enum CutFault {
    /// There was no memory left.
    #[error("out of memory")]
    NoMemory(AllocError),
    /// There are more words than [`vs_base::limits::WORDS`].
    #[error("too many words")]
    TooMany,
}

impl From<AllocError> for DriverFault {
    ghost from_gives = { λ _ fault. fault ≡ driver.NoMemory alloc_error };

    fn from(error: AllocError) -> DriverFault {
        DriverFault::NoMemory(error)
    }
}

impl From<AllocError> for CutFault {
    ghost from_gives = { λ _ fault. fault ≡ cut.NoMemory alloc_error };

    fn from(error: AllocError) -> CutFault {
        CutFault::NoMemory(error)
    }
}

impl<T: Drop> From<AllocFailed<T>> for CutFault {
    ghost from_gives = { λ _ fault. fault ≡ cut.NoMemory alloc_error };

    fn from(_error: AllocFailed<T>) -> CutFault {
        CutFault::NoMemory(AllocError)
    }
}
