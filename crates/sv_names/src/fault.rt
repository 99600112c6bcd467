use sv_tree::NameId;
use thiserror::Error;
use vs_base::{Kind, Origin};

/// Why a tree has no design. The first twelve kinds look at every module's text, also that of modules that nobody
/// instantiates: the lowest kind is told, and of a kind the first in token order. The others come while the design is
/// laid out from its top module, and are told where none of the twelve holds.
#[derive(Clone, Copy, Debug, PartialEq, Eq, Error)]
pub enum DesignFault {
    /// No module has the name that was asked for; or none was asked for, and each module is instantiated by some item,
    /// or there is no module.
    #[error("no top module")]
    NoTop,
    /// No name was asked for, and two modules or more are not instantiated.
    #[error("many top modules")]
    ManyTops,
    /// A name that is declared twice in one scope, a module of the name of an earlier one, a port or a parameter that is
    /// connected or overridden twice by name, or a second `default` of a `case`: at the second.
    #[error("duplicate name")]
    Duplicate(Origin, NameId),
    /// An instance of a module that is not there: at the module's name.
    #[error("unknown module")]
    UnknownModule(Origin, NameId),
    /// An instance from whose module its own module is reached: at the module's name.
    #[error("instance of itself")]
    SelfInstance(Origin),
    /// A connection by name to no port of the module, at the name; or more connections than the module has ports, at the
    /// first token of the first one too many.
    #[error("unknown port")]
    UnknownPort(Origin),
    /// An override by name of no parameter that may be overridden, at the name; or more overrides than such parameters,
    /// at the first token of the first one too many.
    #[error("unknown parameter")]
    UnknownParam(Origin),
    /// A name that no declaration before it in its scope, or in one round that, declares, and no import of the file level.
    #[error("unknown name")]
    UnknownName(Origin, NameId),
    /// A name of another class than its place needs: at the name.
    #[error("wrong use")]
    WrongUse(Origin, NameId),
    /// A write to what is not written there: at the written name, or at the first token of the lvalue where the mark is
    /// wrong, or of the connection's expression where that is no lvalue.
    #[error("wrong assignment")]
    WrongAssign(Origin),
    /// A variable or the call of an import where a constant is needed: at the name.
    #[error("not constant")]
    NotConstant(Origin),
    /// An import whose text is not `"DPI-C"`, at the text; a pure one without result, at `pure`; or one with more than
    /// eight arguments, at the first token of the ninth.
    #[error("bad import")]
    BadImport(Origin),
    /// A width or size of 0 or over the limit, or an unsized number of 2^32 or more: at the literal's first token, the
    /// brace or the bracket.
    #[error("too wide")]
    TooWide(Origin),
    /// A range whose ends are reversed or out of bounds, a count below 1, or a memory of no or too many elements: at the
    /// bracket or the brace.
    #[error("bad range")]
    BadRange(Origin),
    /// An event of a variable that has not 1 bit: at the variable's name.
    #[error("bad event")]
    BadEvent(Origin, NameId),
    /// The turn of a loop past the limit on all turns: at the loop's `for`.
    #[error("too many loop turns")]
    LoopTurns(Origin),
    /// More instances, processes, terms or calls than their limit.
    #[error("too many of a kind")]
    TooMany(Kind),
    /// There was no memory left.
    #[error("out of memory")]
    NoMemory,
}
