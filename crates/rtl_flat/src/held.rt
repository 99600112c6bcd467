//! What a scope declares, before it is laid down behind what other scopes declare.

ghost use Rattle.std.specs.Prelude.{◌≡◌, ◌≤ℤ◌, ◌+ℤ◌, ◌^◌, pos};

use elab_types::{Bounds, Packed};
use vs_base::{Bits, Text};

/// A variable of a scope.
#[derive(Drop)]
pub struct HeldVar {
    pub name: Text,
    pub packed: Packed,
    pub init: Bits,
    ghost init_width: { init.width ≡ packed.kind.width },
}

/// A memory of a scope.
#[derive(Drop)]
pub struct HeldMem {
    pub name: Text,
    pub packed: Packed,
    pub addresses: Bounds,
    ghost end: { (addresses.low +ℤ pos addresses.count) ≤ℤ pos (2 ^ 63) },
}

/// What a scope declares, the ports first.
#[derive(Drop)]
pub struct Held {
    pub vars: Vec<HeldVar>,
    pub mems: Vec<HeldMem>,
}
