//! The words that the combinational processes read and write.

ghost use Rattle.std.specs.Prelude.{◌≡◌, ◌<◌, ◌^◌, ℕ, length, IfOk, OnOk};
ghost use Rattle.std.specs.List.{list_any};
ghost use Rattle.std.specs.List.Sorted.{IsNonDecreasing};
ghost use Rattle.rtl_pieces.specs.Bits.{reads, writes};
ghost use Rattle.logic_graph.specs.Reading.{has_word};
ghost use Rattle.task_code.specs.Compiled.{Each};
ghost use Rattle.model_build.specs.Touching.{IsTouched, WordsAre, is_in};

use logic_graph::{Touched, WordRange};
use rtl_ir::Design;
use rtl_pieces::{BitLine, BitRange, ranges_read, ranges_written, words_of};
use sqlite_items::Items;
use std::alloc::{AllocError, Global};

/// What the words of processes are found by: the design, the line of its bits, and where each word begins in it.
#[derive(Clone, Copy)]
pub(crate) struct Ground<'a> {
    pub design: &'a Design,
    pub line: &'a BitLine,
    pub places: &'a [u128],
}

/// The words that processes touch, in order.
pub(crate) fn all_touched(
    alloc: Global,
    ground: Ground<'_>,
    procs: &[u32],
) -> Result<Vec<Touched>, AllocError>
    requires rising { IsNonDecreasing ground.places.now }
    requires few { length ground.places.now < 2 ^ 32 }
    ensures { IfOk result (λ all. Each (IsTouched ground.entry.line.now ground.entry.design.now.procs ground.entry.places.now) procs.now all.items) }
{
    let mut all = Vec::new(alloc);
    for proc in procs {
        all.push(touched(alloc, ground, *proc)?)?;
    }
    Ok(all)
}

fn touched(alloc: Global, ground: Ground<'_>, proc: u32) -> Result<Touched, AllocError>
    requires rising { IsNonDecreasing ground.places.now }
    requires few { length ground.places.now < 2 ^ 32 }
    ensures { IfOk result (IsTouched ground.entry.line.now ground.entry.design.now.procs ground.entry.places.now proc) }
{
    let reads = words_read(alloc, ground, proc)?;
    let writes = words_written(alloc, ground, proc)?;
    Ok(Touched { reads, writes })
}

fn words_read(alloc: Global, ground: Ground<'_>, proc: u32) -> Result<Items<WordRange>, AllocError>
    requires rising { IsNonDecreasing ground.places.now }
    requires few { length ground.places.now < 2 ^ 32 }
    ensures { IfOk result (WordsAre ground.entry.places.now (reads ground.entry.line.now ground.entry.design.now.procs proc)) }
{
    let ranges = ranges_read(alloc, ground.design, ground.line, proc)?;
    words_in(alloc, ground.places, ranges.as_slice())
}

fn words_written(
    alloc: Global,
    ground: Ground<'_>,
    proc: u32,
) -> Result<Items<WordRange>, AllocError>
    requires rising { IsNonDecreasing ground.places.now }
    requires few { length ground.places.now < 2 ^ 32 }
    ensures { IfOk result (WordsAre ground.entry.places.now (writes ground.entry.line.now ground.entry.design.now.procs proc)) }
{
    let ranges = ranges_written(alloc, ground.design, ground.line, proc)?;
    words_in(alloc, ground.places, ranges.as_slice())
}

// The words that have a bit of one of some ranges.
fn words_in(
    alloc: Global,
    places: &[u128],
    ranges: &[BitRange],
) -> Result<Items<WordRange>, AllocError>
    requires rising { IsNonDecreasing places.now }
    requires few { length places.now < 2 ^ 32 }
    ensures { IfOk result (λ words. (w : ℕ) → list_any (has_word w) words ≡ list_any (is_in places.now w) ranges.now) }
{
    let mut words = Items::new(alloc);
    for range in ranges {
        words.push(words_with(places, *range))?;
    }
    Ok(words)
}

// The words that have a bit of a range.
fn words_with(places: &[u128], range: BitRange) -> WordRange
    requires rising { IsNonDecreasing places.now }
    requires few { length places.now < 2 ^ 32 }
    ensures { (w : ℕ) → has_word w result ≡ is_in places.now w range }
{
    let found = words_of(places, range);
    let end = (places.len() as u32).saturating_sub(1);
    WordRange {
        first: found.from,
        end: found.to.min(end),
    }
}
