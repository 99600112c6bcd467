use thiserror::Error;

/// Why there is no settle order.
#[derive(Debug, Drop, Error)]
pub enum LoopFault {
    /// There was no memory left.
    #[error("out of memory")]
    NoMemory,
    /// Nodes that hold each other up: each waits for the next, and the last for the first.
    #[error("nodes wait for each other")]
    Loop(Vec<u32>),
}

/// Why there is no list of nodes.
#[derive(Debug, Drop, Error)]
pub enum NodesFault {
    /// There was no memory left.
    #[error("out of memory")]
    NoMemory,
    /// There are more nodes than a part may have.
    #[error("too many nodes")]
    TooMany,
}
