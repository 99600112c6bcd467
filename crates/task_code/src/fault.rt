use std::alloc::AllocError;
use thiserror::Error;

/// Why a code is not made.
#[derive(Clone, Copy, Debug, PartialEq, Eq, Error)]
pub(crate) enum CodeFault {
    /// There was no memory left.
    #[error("out of memory")]
    NoMemory(#[from(alloc)] AllocError),
    /// The layout is not that of the design, or the design is none that elaboration gives.
    #[error("does not fit")]
    DoesNotFit,
}
