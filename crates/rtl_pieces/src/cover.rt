//! The words that ranges of bits cover.

ghost use Rattle.std.specs.Prelude.{◌≡◌, ◌&&◌, ◌<◌, ◌≤◌, ◌-◌, ◌^◌, ℕ, suc, nat_le, nat_lt, length, slice_index, IfOk};
ghost use Rattle.std.specs.List.Sorted.{IsNonDecreasing};
ghost use Rattle.rtl_pieces.specs.Cover.{places_of};

use crate::layout::Layout;
use crate::range::BitRange;
use std::alloc::{AllocError, Global};

/// Words that stand side by side in a layout: those from a number on, up to another number.
#[derive(Clone, Copy, Debug, PartialEq, Eq)]
pub struct WordRange {
    pub from: u32,
    /// The number after the last word; there is no word where it is not above the first.
    pub to: u32,
}

/// For each word of a layout that stands before the shadows, how many bits stand before it; at the end how many bits there
/// are. Word 0 holds none.
///
/// `AllocError`: there was no memory left.
pub fn word_places(alloc: Global, layout: &Layout) -> Result<Vec<u128>, AllocError>
    requires few { length layout.now.words.items < 2 ^ 31 }
    ensures places { IfOk result (λ out. out.items ≡ places_of 0 layout.now.words.items) }
    ensures rising { IfOk result (λ out. IsNonDecreasing out.items) }
    ensures few { IfOk result (λ out. length out.items < 2 ^ 32) }
{
    let mut places = Vec::new(alloc);
    let mut before: u128 = 0;
    let mut rest = layout.words.as_slice();
    while let [word, more @ ..] = rest {
        if word.shadow {
            places.push(before)?;
            return Ok(places);
        }
        places.push(before)?;
        before += u128::from(word.len);
        rest = more;
    }
    places.push(before)?;
    Ok(places)
}

/// The words that have a bit of a range, none of them a shadow, where a word stands from its place up to the next one. It takes
/// time in the logarithm of their number.
pub fn words_of(places: &[u128], range: BitRange) -> WordRange
    requires rising { IsNonDecreasing places.now }
    requires few { length places.now < 2 ^ 32 }
    ensures exactly { (w : ℕ) → suc w < length places.now → (nat_le result.from w && nat_lt w result.to) ≡ (nat_lt range.from range.to && (nat_lt (slice_index places.now w) range.to && nat_lt range.from (slice_index places.now (suc w)))) }
    ensures within { result.to ≤ length places.now - 1 }
{
    if range.to <= range.from {
        return WordRange { from: 0, to: 0 };
    }
    let words = places.len().saturating_sub(1);
    let begun = places.partition_point(|place| *place <= range.from);
    let end = places.partition_point(|place| *place < range.to);
    WordRange {
        from: begun.saturating_sub(1) as u32,
        to: end.min(words) as u32,
    }
}
