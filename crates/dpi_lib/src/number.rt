//! The numbers of the imports.

pub const POPCOUNT: u32 = 0;

pub const PARITY: u32 = 1;

pub const REVERSE: u32 = 2;

pub const MIX: u32 = 3;

pub const MAX: u32 = 4;

pub const MIN: u32 = 5;

pub const ROTL: u32 = 6;

pub const NEXT: u32 = 7;

pub const PUT: u32 = 8;

pub const SUM: u32 = 9;

pub const PEEK: u32 = 10;

pub const POKE: u32 = 11;
