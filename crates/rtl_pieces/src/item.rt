/// A variable or a memory in the line of all bits. A variable is one element, at address 0.
#[derive(Clone, Copy, Debug, PartialEq, Eq)]
pub struct Item {
    /// The place of its first bit.
    pub first: u128,
    pub elements: u32,
    /// How many bits an element has.
    pub width: u32,
    /// The declared index of an element's lowest bit.
    pub lsb: u32,
    /// The lowest address.
    pub low: i64,
}

/// A bit select or a part select with a constant index.
#[derive(Clone, Copy, Debug, PartialEq, Eq)]
pub struct Part {
    /// The declared index of its lowest bit, or of its highest one where it runs down.
    pub at: i128,
    /// How many bits it has.
    pub width: u32,
    pub down: bool,
}
