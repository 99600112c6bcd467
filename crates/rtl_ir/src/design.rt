ghost use Rattle.std.specs.Prelude.{◌≡◌, ◌≤◌, ◌≤ℤ◌, ◌+ℤ◌, ◌^◌, pos, length, true};
ghost use Rattle.std.specs.List.{list_all};
ghost use Rattle.vs_base.specs.declared.limits.TheConstants.{WIDTH, CALL_ARGUMENTS};
ghost use Rattle.rtl_ir.specs.Types.{is_type, result_is_type};

use crate::stmt::Stmt;
use sqlite_items::Items;
use vs_base::{Bits, Origin, Text, ValueType};

/// A variable. The variables stand scope by scope in walk order, and in a scope by declaration, ports first.
#[derive(Drop)]
pub struct Var {
    /// The path of its scope.
    pub path: Text,
    pub name: Text,
    /// How many bits it has.
    pub width: u32,
    /// The declared index of its lowest bit.
    pub lsb: u32,
    pub signed: bool,
    /// Its value before the first eval, as wide as it is.
    pub init: Bits,
    /// The number of its scope.
    pub scope: u32,
    ghost some: { 1 ≤ width },
    ghost most: { width ≤ WIDTH },
    ghost init_width: { init.width ≡ width },
}

/// A memory. The memories stand scope by scope in walk order, and in a scope by declaration.
#[derive(Drop)]
pub struct Mem {
    /// Its own path, the name at its end.
    pub path: Text,
    /// How many bits an element has.
    pub width: u32,
    /// The declared index of an element's lowest bit.
    pub lsb: u32,
    pub signed: bool,
    /// The lowest address.
    pub low: i64,
    /// How many elements it has, at the addresses from the lowest on.
    pub count: u32,
    /// The number of its scope.
    pub scope: u32,
    ghost some: { 1 ≤ width },
    ghost most: { width ≤ WIDTH },
    ghost elements: { 1 ≤ count },
    ghost addresses: { (low +ℤ pos count) ≤ℤ pos (2 ^ 63) },
}

/// An edge of a variable of one bit.
#[derive(Clone, Copy, Debug, PartialEq, Eq)]
pub struct Event {
    pub var: u32,
    /// `posedge`, and otherwise `negedge`.
    pub rising: bool,
}

/// When a process runs.
#[derive(Drop)]
pub enum ProcKind {
    /// Once in each settling.
    Comb,
    /// Where one of its events has its edge.
    Clocked(Items<Event>),
}

/// A process.
#[derive(Drop)]
pub struct Proc {
    pub kind: ProcKind,
    pub body: Items<Stmt>,
    /// Its place: the first token of the left side, the `always` word, or the first token of the connection.
    pub at: Origin,
}

/// A function of the outside (IEEE 1800-2017 35.5).
#[derive(Drop)]
pub struct Import {
    /// The linkage name.
    pub name: Text,
    pub declared_pure: bool,
    /// The types of its arguments.
    pub args: Items<ValueType>,
    /// The type of its result; none where it is void.
    pub result: Option<ValueType>,
    /// The place of its name.
    pub at: Origin,
    ghost few: { length args ≤ CALL_ARGUMENTS },
    ghost arg_types: { list_all is_type args ≡ true },
    ghost result_type: { result_is_type result ≡ true },
}

/// A port of the top module.
#[derive(Clone, Copy, Debug, PartialEq, Eq)]
pub struct Port {
    pub var: u32,
    /// An input, and otherwise an output.
    pub input: bool,
}

/// A scope: an instance of a module or a generate block.
#[derive(Drop)]
pub struct FlatScope {
    pub path: Text,
    /// The number of the scope round it, which is lower; none for the top.
    pub parent: Option<u32>,
    /// A generate block, and otherwise an instance.
    pub block: bool,
}
