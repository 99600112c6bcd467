//! The writer of each word.
ghost use Rattle.std.specs.Prelude.{◌≡◌, ◌<◌, ◌≤◌, ◌^◌, ℕ, IfOk, All, length, replicate, slice_index, if◌then◌else◌};
ghost use Rattle.logic_graph.specs.declared.writers.TheConstants.{NOBODY};
ghost use Rattle.logic_graph.specs.Reading.{has_word};
ghost use Rattle.logic_graph.specs.Noting.{has_word_of, writer_from, EndsWithin, AllEndWithin, RunsEnd, WritersAre};

use crate::ranges::{Touched, WordRange};
use std::alloc::{AllocError, Global};

/// What stands for no writer: no process has so great a number.
pub const NOBODY: u32 = u32::MAX;

/// For each word up to the last that is written its writer, and where the run of words with the same writer ends.
#[derive(Drop)]
pub struct Writers {
    pub of_word: Vec<u32>,
    pub run_end: Vec<u32>,
}

/// The writers of these processes, by their numbers.
pub fn writers_of(alloc: Global, procs: &[Touched]) -> Result<Writers, AllocError>
    requires few { length procs.now < 2 ^ 32 }
    ensures { IfOk result (λ t. WritersAre procs.now t.of_word.items t.run_end.items) }
{
    let words = words_written(procs);
    let mut of_word = vec![in alloc; NOBODY; words as usize]?;
    mark_procs(of_word.as_mut_slice(), procs);
    let mut run_end = vec![in alloc; words; words as usize]?;
    mark_ends(run_end.as_mut_slice(), of_word.as_slice());
    Ok(Writers { of_word, run_end })
}

// The word after the last that is written.
fn words_written(procs: &[Touched]) -> u32
    ensures { AllEndWithin result procs.now }
{
    let mut words = 0;
    for p in procs {
        words = words.max(last_end(p.writes.as_slice()));
    }
    words
}

fn last_end(ranges: &[WordRange]) -> u32
    ensures { EndsWithin result ranges.now }
{
    let mut end = 0;
    for r in ranges {
        end = end.max(r.end);
    }
    end
}

fn mark_procs(of_word: &mut [u32], procs: &[Touched])
    requires few { length procs.now < 2 ^ 32 }
    requires within { AllEndWithin (length of_word.old) procs.now }
    ensures { (k : ℕ) → slice_index of_word.new k ≡ writer_from 0 (slice_index of_word.old k) procs.now k }
{
    for i in 0..procs.len() {
        mark_ranges(of_word, procs[i].writes.as_slice(), i as u32);
    }
}

fn mark_ranges(of_word: &mut [u32], ranges: &[WordRange], writer: u32)
    requires within { EndsWithin (length of_word.old) ranges.now }
    ensures { (k : ℕ) → slice_index of_word.new k ≡ (if has_word_of k ranges.now then writer else slice_index of_word.old k) }
{
    for r in ranges {
        mark_range(of_word, *r, writer);
    }
}

fn mark_range(of_word: &mut [u32], range: WordRange, writer: u32)
    requires within { range.end ≤ length of_word.old }
    ensures { (k : ℕ) → slice_index of_word.new k ≡ (if has_word k range then writer else slice_index of_word.old k) }
{
    for w in range.first..range.end {
        of_word[w as usize] = writer;
    }
}

// Each run ends where the writer of the next word is another. Where nothing was marked yet, it ends after the last word.
fn mark_ends(run_end: &mut [u32], of_word: &[u32])
    requires len { length run_end.old ≡ length of_word.now }
    requires last { (k : ℕ) → k < length of_word.now → slice_index run_end.old k ≡ length of_word.now }
    requires few { length of_word.now < 2 ^ 32 }
    ensures { RunsEnd of_word.now run_end.new }
{
    let mut w = of_word.len();
    'back: while w > 1 {
        w -= 1;
        run_end[w - 1] = if of_word[w - 1] == of_word[w] {
            run_end[w]
        } else {
            w as u32
        };
    }
}
