use thiserror::Error;

/// Why words have no settings.
#[derive(Clone, Copy, Debug, PartialEq, Eq, Error)]
pub enum WordsFault {
    /// The words are no command that the program understands.
    #[error("usage")]
    Usage,
    /// There was no memory left.
    #[error("out of memory")]
    NoMemory,
}
