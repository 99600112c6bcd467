use sv_tree::NameId;
use thiserror::Error;
use vs_base::Origin;

/// Why a list of files has no active tokens. A place inside a macro's text is that of the use in the file.
#[derive(Clone, Copy, Debug, PartialEq, Eq, Error)]
pub enum PpFault {
    /// The use of a macro that is not defined there; its spelling, with the backquote.
    #[error("unknown macro")]
    UnknownMacro(Origin, NameId),
    /// The use of a macro inside 64 others.
    #[error("macros too deep")]
    MacroDepth(Origin),
    /// A branch that is open at its file's end, by the outermost `` `ifdef `` or `` `ifndef ``.
    #[error("open ifdef")]
    OpenIf(Origin),
    /// An `` `else `` or `` `endif `` outside of a branch, or a second `` `else ``.
    #[error("stray else")]
    StrayElse(Origin),
    /// A directive that is faulty, that the subset has not, or that stands in a macro's text; its spelling, with the backquote.
    #[error("directive")]
    Directive(Origin, NameId),
    /// More than 1,000,000 tokens are read.
    #[error("too many tokens")]
    TooMany,
    /// There was no memory left.
    #[error("out of memory")]
    NoMemory,
}
