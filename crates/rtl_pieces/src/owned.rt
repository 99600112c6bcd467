//! The ranges that processes write, all together.

ghost use Rattle.std.specs.Prelude.{◌≡◌, ◌&&◌, ◌||◌, ◌==◌, ◌<◌, ◌≤◌, ◌^◌, ◌++◌, ℕ, nat_lt, IfOk, OnOk, length, map};
ghost use Rattle.std.specs.List.Sorted.{IsPermutation, IsNonDecreasingBy};
ghost use Rattle.rtl_pieces.specs.Line.{has};
ghost use Rattle.rtl_pieces.specs.Bits.{writes};
ghost use Rattle.rtl_pieces.specs.Owned as spec;

use crate::line::BitLine;
use crate::range::BitRange;
use crate::sets::ranges_written;
use rtl_ir::Design;
use std::alloc::{AllocError, Global};

/// A range that a process writes.
#[derive(Clone, Copy, Debug, PartialEq, Eq)]
pub struct OwnedRange {
    pub range: BitRange,
    pub proc: u32,
}

/// Adds the ranges of a process.
fn add_owned(ranges: &[BitRange], proc: u32, all: &mut Vec<OwnedRange>) -> Result<(), AllocError>
    ensures { OnOk result (all.new.items ≡ all.old.items ++ map (spec.of_process proc) ranges.now) }
{
    let mut rest = ranges;
    while let [range, more @ ..] = rest {
        all.push(OwnedRange {
            range: *range,
            proc,
        })?;
        rest = more;
    }
    Ok(())
}

/// Adds the ranges that a process of a design writes.
fn add_process(
    alloc: Global,
    design: &Design,
    line: &BitLine,
    proc: u32,
    all: &mut Vec<OwnedRange>,
) -> Result<(), AllocError>
    ensures { OnOk result ((p b : ℕ) → spec.owned_by p b all.new.items ≡ (spec.owned_by p b all.old.items || ((proc == p) && writes line.now design.now.procs proc b))) }
{
    let ranges = ranges_written(alloc, design, line, proc)?;
    add_owned(ranges.as_slice(), proc, all)
}

/// The ranges that the processes of a design write, by process.
pub fn owned(alloc: Global, design: &Design, line: &BitLine) -> Result<Vec<OwnedRange>, AllocError>
    requires few { length design.now.procs < 2 ^ 32 }
    ensures { IfOk result (λ all. (p b : ℕ) → spec.owned_by p b all.items ≡ (nat_lt p (length design.now.procs) && writes line.now design.now.procs p b)) }
{
    let mut all = Vec::new(alloc);
    for proc in 0..design.procs.len() {
        add_process(alloc, design, line, proc as u32, &mut all)?;
    }
    Ok(all)
}

/// Puts ranges into the order of their first places.
pub fn sort(all: &mut Vec<OwnedRange>)
    ensures permutation { IsPermutation all.old.items all.new.items }
    ensures sorted { IsNonDecreasingBy spec.first_place all.new.items }
{
    all.sort_unstable_by_key(|owned| owned.range.from);
}
