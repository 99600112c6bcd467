/// Bits that stand side by side in the line of all bits of a design: those from a place on, up to another place.
#[derive(Clone, Copy, Debug, PartialEq, Eq)]
pub struct BitRange {
    pub from: u128,
    /// The place after the last bit; there is no bit where it is not above the first.
    pub to: u128,
}
