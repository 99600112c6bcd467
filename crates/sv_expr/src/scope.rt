//! What names denote where an expression stands.

ghost use Rattle.std.specs.Prelude.{◌≡◌, ◌≤◌};
ghost use Rattle.vs_base.specs.declared.limits.TheConstants.{WIDTH};

use scope_table::ScopeTable;
use sv_tree::{NameId, Names};
use vs_base::{Bits, ValueType};

/// A constant of a scope: a parameter or a genvar, with its type and its value, which is as wide.
#[derive(Clone, Copy, Debug, PartialEq, Eq)]
pub struct Constant {
    pub name: NameId,
    pub kind: ValueType,
    pub value: Bits,
    ghost some: { 1 ≤ kind.width },
    ghost most: { kind.width ≤ WIDTH },
    ghost same_width: { value.width ≡ kind.width },
}

/// A fixed value with its type, which is as wide.
#[derive(Clone, Copy, Debug, PartialEq, Eq)]
pub struct Fixed {
    pub kind: ValueType,
    pub value: Bits,
    ghost some: { 1 ≤ kind.width },
    ghost most: { kind.width ≤ WIDTH },
    ghost same_width: { value.width ≡ kind.width },
}

/// A thing with a type that is read when the design runs.
#[derive(Clone, Copy, Debug, PartialEq, Eq)]
pub struct Declared {
    pub kind: ValueType,
    /// A number of the user's own, which no call here looks at.
    pub item: u32,
    ghost some: { 1 ≤ kind.width },
    ghost most: { kind.width ≤ WIDTH },
}

/// What a name denotes.
#[derive(Clone, Copy, Debug, PartialEq, Eq)]
pub enum Denoted {
    /// It is not declared, or has no value: a genvar outside its loop, an instance, a block, an import without a
    /// result.
    Nothing,
    /// A parameter, or a genvar in its loop.
    Constant(Fixed),
    /// The variable of a statement's loop, in one turn of it. To types and values it is a constant.
    Turn(Fixed),
    /// A variable.
    Variable(Declared),
    /// A memory, with the type of an element.
    Memory(Declared),
    /// An import, with the type of its result.
    Import(Declared),
}

/// What names denote where an expression stands.
#[derive(Clone, Copy)]
pub struct ScopeView<'a> {
    /// The texts of all tokens.
    pub names: &'a Names,
    /// What each name denotes.
    pub table: &'a ScopeTable<Denoted>,
}

/// The whole that a name denotes: its type, or that of an element where it is a memory.
#[derive(Clone, Copy)]
pub struct Whole {
    pub kind: ValueType,
    pub is_memory: bool,
}
