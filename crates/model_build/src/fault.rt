ghost use Rattle.std.specs.Prelude.{◌≡◌, alloc_error};
ghost use Rattle.model_build.specs.declared.fault.BuildFault.TheVariants as variant;

use sqlite_items::Items;
use std::alloc::AllocError;
use thiserror::Error;
use vs_base::limits::Kind;
use vs_base::{Origin, Text};

/// Why there is no model.
#[derive(Debug, Drop, Error)]
pub enum BuildFault {
    /// There was no memory left.
    #[error("out of memory")]
    NoMemory(AllocError),
    /// The name of the least bit that two processes write, and the places of the first two of them.
    #[error("two drivers")]
    MultipleDrivers(Text, Origin, Origin),
    /// The first import that a process calls and the host does not have.
    #[error("an import is unknown")]
    UnknownImport(Text),
    /// The first import that a process calls, that is deemed safe, and whose answers are not by its arguments alone.
    #[error("an import does not answer by arguments alone")]
    NotByArguments(Text),
    /// There are more of something than a model may have.
    #[error("too many")]
    TooMany(Kind),
    /// The places of combinational processes that hold each other up: each waits for the next, and the last for the
    /// first.
    #[error("processes wait for each other")]
    Loop(Items<Origin>),
}

impl From<AllocError> for BuildFault {
    ghost from_gives = { λ _ fault. fault ≡ variant.NoMemory alloc_error };

    fn from(error: AllocError) -> BuildFault {
        BuildFault::NoMemory(error)
    }
}
