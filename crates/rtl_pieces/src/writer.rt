//! The writing process of each bit.

ghost use Rattle.std.specs.Prelude.{◌≡◌, ◌==◌, ◌&&◌, ◌<◌, ◌^◌, ℕ, None, IfOk, OnOk, length};
ghost use Rattle.rtl_pieces.specs.Line.{inside, has};
ghost use Rattle.rtl_pieces.specs.Bits.{writes};
ghost use Rattle.rtl_pieces.specs.Words as spec;

use crate::line::BitLine;
use crate::range::BitRange;
use crate::sets::ranges_written;
use rtl_ir::Design;
use std::alloc::{AllocError, Global};

/// Notes a process at a place that has none.
fn mark(at: usize, proc: u32, writers: &mut [Option<u32>])
    requires within { at < length writers.old }
    ensures { (b : ℕ) → spec.noted writers.new b ≡ spec.noted_also (spec.noted writers.old b) (b == at) proc }
{
    if writers[at].is_none() {
        writers[at] = Some(proc);
    }
}

/// Notes a process at the places of a range that have none.
fn mark_range(range: BitRange, proc: u32, writers: &mut [Option<u32>])
    ensures { (b : ℕ) → spec.noted writers.new b ≡ spec.noted_also (spec.noted writers.old b) (spec.in_list writers.old b && inside b range) proc }
{
    let end = writers.len() as u128;
    let mut place = range.from;
    while place < range.to && place < end {
        mark(place as usize, proc, writers);
        place += 1;
    }
}

/// Notes a process at the places of ranges that have none.
fn mark_ranges(ranges: &[BitRange], proc: u32, writers: &mut [Option<u32>])
    ensures { (b : ℕ) → spec.noted writers.new b ≡ spec.noted_also (spec.noted writers.old b) (spec.in_list writers.old b && has b ranges.now) proc }
{
    let mut rest = ranges;
    while let [range, more @ ..] = rest {
        mark_range(*range, proc, writers);
        rest = more;
    }
}

/// Notes a process at the bits that it writes and none before it does.
fn mark_process(
    alloc: Global,
    design: &Design,
    line: &BitLine,
    proc: u32,
    writers: &mut [Option<u32>],
) -> Result<(), AllocError>
    requires whole { length writers.old ≡ line.now.bits }
    ensures { OnOk result ((b : ℕ) → spec.noted writers.new b ≡ spec.noted_also (spec.noted writers.old b) (writes line.now design.now.procs proc b) proc) }
{
    let ranges = ranges_written(alloc, design, line, proc)?;
    mark_ranges(ranges.as_slice(), proc, writers);
    Ok(())
}

/// Notes all processes, the first one first.
fn mark_processes(
    alloc: Global,
    design: &Design,
    line: &BitLine,
    writers: &mut [Option<u32>],
) -> Result<(), AllocError>
    requires whole { length writers.old ≡ line.now.bits }
    requires few { length design.now.procs < 2 ^ 32 }
    requires none { (b : ℕ) → spec.noted writers.old b ≡ None }
    ensures { OnOk result ((b : ℕ) → spec.noted writers.new b ≡ spec.writer_of line.now design.now.procs b) }
{
    for proc in 0..design.procs.len() {
        mark_process(alloc, design, line, proc as u32, writers)?;
    }
    Ok(())
}

/// The first process that writes each of all bits, of which there are so many.
pub fn writers(
    alloc: Global,
    design: &Design,
    line: &BitLine,
    bits: usize,
) -> Result<Vec<Option<u32>>, AllocError>
    requires whole { bits ≡ line.now.bits }
    requires few { length design.now.procs < 2 ^ 32 }
    ensures { IfOk result (λ out. (b : ℕ) → spec.noted out.items b ≡ spec.writer_of line.now design.now.procs b) }
{
    let mut writers = vec![in alloc; None; bits]?;
    mark_processes(alloc, design, line, writers.as_mut_slice())?;
    Ok(writers)
}

/// The first process that writes the bit at a place.
pub fn writer_at(writers: &[Option<u32>], place: u128) -> Option<u32>
    ensures { result ≡ spec.noted writers.now place }
{
    match usize::try_from(place) {
        Ok(place) => writers.get(place).copied().flatten(),
        Err(_) => None,
    }
}
