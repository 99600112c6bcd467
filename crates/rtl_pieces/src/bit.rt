/// A bit of a design.
#[derive(Clone, Copy, Debug, PartialEq, Eq)]
pub struct BitRef {
    /// A memory, and otherwise a variable.
    pub mem: bool,
    /// The number of the memory or the variable.
    pub item: u32,
    /// How far the element's address is above the lowest one; 0 of a variable.
    pub element: u32,
    /// 0 for the lowest bit.
    pub bit: u32,
}
