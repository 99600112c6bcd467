//! Where inputs go.

/// A word that holds bits of an input.
#[derive(Clone, Copy, Debug, PartialEq, Eq)]
pub struct InputWord {
    /// The number of the word.
    pub word: usize,
    /// The place of the input among the input ports.
    pub input: usize,
    /// The lowest bit of the input that it holds.
    pub bit: u32,
    /// How many it holds.
    pub len: u32,
}
