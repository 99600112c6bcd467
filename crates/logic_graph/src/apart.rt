//! Whether each word has one writer at most.
ghost use Rattle.std.specs.Prelude.{◌≡◌, ◌<◌, ◌≤◌, ◌^◌, ◌↔◌, ℕ, IsTrue, IfOk, length, true, slice_index};
ghost use Rattle.logic_graph.specs.Reading.{has_word, OneWriter};
ghost use Rattle.logic_graph.specs.Noting.{EndsWithin, AllEndWithin, Keeps, AllKeep};

use crate::ranges::{Touched, WordRange};
use crate::writers::writers_of;
use std::alloc::{AllocError, Global};

/// Whether no two processes write a common word, which [`graph_of`](crate::graph_of) requires. Who knows it from the way
/// that the words were made does not ask.
///
/// All processes mark their words, one after another; then each looks whether its marks are still there. So time and
/// space are linear in the words that are written.
pub fn has_one_writer(alloc: Global, procs: &[Touched]) -> Result<bool, AllocError>
    ensures { IfOk result (λ b. IsTrue b ↔ OneWriter procs.now) }
{
    // The numbers of processes have 32 bits: a list that is longer has no room.
    if procs.len() >= 1 << 32 {
        return Err(AllocError);
    }
    let writers = writers_of(alloc, procs)?;
    Ok(all_keep(writers.of_word.as_slice(), procs))
}

fn all_keep(of_word: &[u32], procs: &[Touched]) -> bool
    requires few { length procs.now < 2 ^ 32 }
    requires within { AllEndWithin (length of_word.now) procs.now }
    ensures { IsTrue result ↔ AllKeep of_word.now procs.now }
{
    for i in 0..procs.len() {
        if !keeps_ranges(of_word, procs[i].writes.as_slice(), i as u32) {
            return false;
        }
    }
    true
}

fn keeps_ranges(of_word: &[u32], ranges: &[WordRange], writer: u32) -> bool
    requires within { EndsWithin (length of_word.now) ranges.now }
    ensures { IsTrue result ↔ Keeps of_word.now writer ranges.now }
{
    for r in ranges {
        if !keeps_range(of_word, *r, writer) {
            return false;
        }
    }
    true
}

fn keeps_range(of_word: &[u32], range: WordRange, writer: u32) -> bool
    requires within { range.end ≤ length of_word.now }
    ensures { IsTrue result ↔ ((w : ℕ) → has_word w range ≡ true → slice_index of_word.now w ≡ writer) }
{
    for w in range.first..range.end {
        if of_word[w as usize] != writer {
            return false;
        }
    }
    true
}
