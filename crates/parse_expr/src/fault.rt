use thiserror::Error;

/// Why tokens have no tree. The number is that of a token, from 0, or the count of the tokens.
#[derive(Clone, Copy, Debug, PartialEq, Eq, Error)]
pub enum ParseFault {
    /// The first token that is outside the subset.
    #[error("not in this subset")]
    Construct(u32),
    /// The token with which no tree goes on, or the end, where no tree ends.
    #[error("syntax error")]
    Syntax(u32),
    /// The token that stands in more than 128 things in each tree that goes on with it.
    #[error("nested too deep")]
    TooDeep(u32),
    /// There was no memory left.
    #[error("out of memory")]
    NoMemory,
}
