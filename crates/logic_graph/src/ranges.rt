use sqlite_items::Items;

/// A run of words: from `first` up to `end`, which is the word after the last. Where `end` is not past `first` it
/// has none.
#[derive(Clone, Copy, Debug, PartialEq, Eq)]
pub struct WordRange {
    pub first: u32,
    pub end: u32,
}

/// The words that a process reads, and those that it writes.
#[derive(Drop)]
pub struct Touched {
    pub reads: Items<WordRange>,
    pub writes: Items<WordRange>,
}
