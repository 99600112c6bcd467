//! Bits with two writers.

ghost use Rattle.std.specs.Prelude.{◌≡◌, ◌<◌, ◌+◌, ◌^◌, ℕ, true, length, IfErr, OnOk};
ghost use Rattle.rtl_pieces.specs.Line.{Placed};
ghost use Rattle.rtl_pieces.specs.Bits.{line_in, writes};
ghost use Rattle.rtl_pieces.specs.Owned as spec;
ghost use Rattle.rtl_pieces.specs.Drivers.{IsFault};

use crate::fault::DriverFault;
use crate::line::BitLine;
use crate::owned::{OwnedRange, owned, sort};
use rtl_ir::Design;
use std::alloc::Global;

/// The least place that ranges of two processes have, of ranges in the order of their first places.
fn first_shared(sorted: &[OwnedRange]) -> Option<u128>
    ensures { result ≡ spec.sweep 0 0 sorted.now }
{
    let mut reach: u128 = 0;
    let mut proc: u32 = 0;
    let mut rest = sorted;
    while let [next, more @ ..] = rest {
        if next.range.from < next.range.to {
            if next.range.from < reach && next.proc != proc {
                return Some(next.range.from);
            }
            if reach < next.range.to {
                reach = next.range.to;
                proc = next.proc;
            }
        }
        rest = more;
    }
    None
}

/// The lesser of a number and one that may be there.
fn lesser(found: Option<u32>, number: u32) -> u32
    ensures { result ≡ spec.lesser found number }
{
    match found {
        Some(other) => other.min(number),
        None => number,
    }
}

/// Whether a range that a process writes has a place.
fn has_place(owned: OwnedRange, place: u128) -> bool
    ensures { result ≡ spec.owns owned.proc place owned }
{
    owned.range.from <= place && place < owned.range.to
}

/// The lesser of a process found before and that of a range, where the range has a place and its process is no lower than
/// a number.
fn with_owned(found: Option<u32>, owned: OwnedRange, place: u128, least: u64) -> Option<u32>
    ensures { result ≡ spec.with_owned least place found owned }
{
    if least <= u64::from(owned.proc) && has_place(owned, place) {
        return Some(lesser(found, owned.proc));
    }
    found
}

/// The first process from a number on with a range that has a place.
fn writer_from(all: &[OwnedRange], place: u128, least: u64) -> Option<u32>
    ensures { spec.IsLeast (λ p. spec.owned_by p place all.now) least result }
{
    let mut found = None;
    let mut rest = all;
    while let [owned, more @ ..] = rest {
        found = with_owned(found, *owned, place, least);
        rest = more;
    }
    found
}

/// The bit at a place, and the first two processes with ranges that have it.
fn shared_at(line: &BitLine, all: &[OwnedRange], place: u128) -> DriverFault
    requires within { place < line.now.bits }
    requires placed { Placed line.now }
    requires vars { line.now.vars < 2 ^ 32 }
    requires mems { length line.now.items < line.now.vars + 2 ^ 32 }
    requires shared { spec.LeastShared (λ p b. spec.owned_by p b all.now) place }
    ensures { IsFault line.now (λ p b. spec.owned_by p b all.now) result }
{
    let first = writer_from(all, place, 0).unwrap_or(0);
    let second = writer_from(all, place, u64::from(first) + 1).unwrap_or(0);
    DriverFault::MultipleDrivers(line.bit(place), first, second)
}

/// Whether each bit has at most one writing process.
///
/// `MultipleDrivers`: the least bit that two processes write, and the first two that write it.
/// `NoMemory`: there was none left.
pub fn drivers(alloc: Global, design: &Design) -> Result<(), DriverFault>
    requires procs { length design.now.procs < 2 ^ 32 }
    requires vars { length design.now.vars < 2 ^ 32 }
    requires mems { length design.now.mems < 2 ^ 32 }
    ensures single { OnOk result ((b p q : ℕ) → writes (line_in design.now) design.now.procs p b ≡ true → writes (line_in design.now) design.now.procs q b ≡ true → p ≡ q) }
    ensures two { IfErr result (IsFault (line_in design.now) (writes (line_in design.now) design.now.procs)) }
{
    let line = BitLine::new(alloc, design)?;
    let mut all = owned(alloc, design, &line)?;
    sort(&mut all);
    match first_shared(all.as_slice()) {
        Some(place) => Err(shared_at(&line, all.as_slice(), place)),
        None => Ok(()),
    }
}
