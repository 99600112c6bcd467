use thiserror::Error;

/// Why a stimulus was not read. A fault of a line tells the line's number, from 1.
#[derive(Clone, Copy, Debug, PartialEq, Eq, Error)]
pub enum StimFault {
    /// The line is no act, and neither blank nor a comment.
    #[error("bad line")]
    BadLine(u32),
    /// The line is an act on a name that no input has.
    #[error("unknown input")]
    UnknownInput(u32),
    /// The line sets an input to a value that is not below 2 to its width.
    #[error("value too wide")]
    ValueTooWide(u32),
    /// With this line the stimulus has more evals than a run may have.
    #[error("too many evals")]
    TooManyEvals(u32),
    /// There was no memory left.
    #[error("out of memory")]
    NoMemory,
}
