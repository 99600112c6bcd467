use std::alloc::AllocError;
use sv_expr::WalkFault;
use sv_tree::NoMemory;
use thiserror::Error;

/// What ends the walk before its end.
#[derive(Clone, Copy, Debug, PartialEq, Eq, Error)]
pub enum FlatFault {
    /// There was no memory left.
    #[error("out of memory")]
    NoMemory,
    /// The scopes are not those that elaboration gives for the tree.
    #[error("not elaborated")]
    NotElaborated,
}

impl From<AllocError> for FlatFault {
    fn from(_: AllocError) -> FlatFault {
        FlatFault::NoMemory
    }
}

impl From<NoMemory> for FlatFault {
    fn from(_: NoMemory) -> FlatFault {
        FlatFault::NoMemory
    }
}

impl From<WalkFault> for FlatFault {
    fn from(_: WalkFault) -> FlatFault {
        FlatFault::NotElaborated
    }
}
