//! What declarations give.

ghost use Rattle.std.specs.Prelude.{◌≤◌, ◌<◌, ◌^◌};
ghost use Rattle.vs_base.specs.declared.limits.TheConstants.{WIDTH};

use vs_base::ValueType;

/// The type of a declaration, and the declared index of its lowest bit: `[7:4]` has 4 bits, and the lowest is bit 4.
#[derive(Clone, Copy, Debug, PartialEq, Eq)]
pub struct Packed {
    pub kind: ValueType,
    pub lsb: u32,
    ghost some: { 1 ≤ kind.width },
    ghost most: { kind.width ≤ WIDTH },
}

/// The addresses of a memory: `count` of them, from `low` up.
#[derive(Clone, Copy, Debug, PartialEq, Eq)]
pub struct Bounds {
    pub low: i64,
    pub count: u32,
    ghost some: { 1 ≤ count },
    ghost most: { count ≤ 65536 },
}

/// Which way a port goes.
#[derive(Clone, Copy, Debug, PartialEq, Eq)]
pub enum Direction {
    Input,
    Output,
}

/// The direction and the type of a port.
#[derive(Clone, Copy, Debug, PartialEq, Eq)]
pub struct PortType {
    pub direction: Direction,
    pub packed: Packed,
}

/// The type that a parameter is declared with (IEEE 1800-2017 6.20.2).
#[derive(Clone, Copy, Debug, PartialEq, Eq)]
pub enum ParameterType {
    /// None: it has the type of its value.
    OfValue,
    /// A sign alone: it has the width of its value, and this sign.
    Sign(bool),
    /// A type, to which its value is converted.
    Full(Packed),
}
