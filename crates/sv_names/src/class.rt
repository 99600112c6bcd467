use crate::spelled::is_spelled;
use sv_tree::{CommaList, Import, Names};

/// What a name is declared as, where it stands.
#[derive(Clone, Copy, Debug, PartialEq, Eq)]
pub enum Class {
    /// Not declared.
    Nothing,
    /// A variable, or an output port, which its module writes.
    Variable,
    /// An input port, which its module does not write.
    Input,
    /// A memory.
    Memory,
    /// A parameter or a localparam.
    Parameter,
    /// A genvar outside of the loops over it.
    Genvar,
    /// A genvar in a loop over it.
    Turn,
    /// The variable of a loop among statements.
    LoopVariable,
    /// An import with so many arguments.
    Import { args: usize, result: bool },
    /// An instance.
    Instance,
    /// A named block. `construct`: the number of the conditional construct of which it is a branch.
    Block { construct: Option<usize> },
}

/// What an import declares its name as.
pub fn import_class(names: &Names, import: &Import) -> Class {
    Class::Import {
        args: argument_count(import),
        result: !is_spelled(names, import.result.word, b"void"),
    }
}

/// How many arguments an import has.
fn argument_count(import: &Import) -> usize {
    match &import.args {
        Some(args) => list_len(args),
        None => 0,
    }
}

/// How long a list with commas is.
pub fn list_len<T>(list: &CommaList<T>) -> usize {
    list.more.len().saturating_add(1)
}
