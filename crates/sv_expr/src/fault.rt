use thiserror::Error;
use vs_base::Origin;

/// What is wrong with an expression, and the token at which it is.
#[derive(Clone, Copy, Debug, PartialEq, Eq, Error)]
pub enum WalkFault {
    /// A width or size of 0 or over the limit, or an unsized number of 2^32 or more: at the literal's first token,
    /// the brace or the bracket.
    #[error("too wide")]
    TooWide(Origin),
    /// A reversed `[m:l]`, or a width or a count below 1: at the bracket or the brace.
    #[error("bad range")]
    BadRange(Origin),
}
