use thiserror::Error;

/// Why there is no graph.
#[derive(Clone, Copy, Debug, PartialEq, Eq, Error)]
pub enum GraphFault {
    /// There was no memory left.
    #[error("out of memory")]
    NoMemory,
    /// There are more edges than a part may have.
    #[error("too many edges")]
    TooMany,
}
