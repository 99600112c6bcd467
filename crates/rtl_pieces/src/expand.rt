//! Sets of bits, bit by bit.

ghost use Rattle.std.specs.Prelude.{◌≡◌, ◌≤◌, ◌<◌, ◌^◌, ◌+◌, ◌-◌, ◌++◌, ℕ, true, map, IfOk, OnOk, length};
ghost use Rattle.std.specs.List.{list_all};
ghost use Rattle.rtl_pieces.specs.Line.{Placed, has, is_bit, place_of};
ghost use Rattle.rtl_pieces.specs.Bits.{line_in, writes, reads, lists, places_from, Rises};
ghost use Rattle.rtl_pieces.specs.Ranges.{Ascending, AllBelow};

use crate::bit::BitRef;
use crate::line::BitLine;
use crate::range::BitRange;
use crate::sets::{ranges_read, ranges_written};
use rtl_ir::Design;
use std::alloc::{AllocError, Global};

/// Adds the bits of a range.
fn add_bits(line: &BitLine, range: BitRange, bits: &mut Vec<BitRef>) -> Result<(), AllocError>
    requires placed { Placed line.now }
    requires vars { line.now.vars < 2 ^ 32 }
    requires mems { length line.now.items < line.now.vars + 2 ^ 32 }
    requires within { range.to ≤ line.now.bits }
    requires there { list_all (is_bit line.now) bits.old.items ≡ true }
    ensures places { OnOk result (map (place_of line.now) bits.new.items ≡ map (place_of line.now) bits.old.items ++ places_from range.from (range.to - range.from)) }
    ensures there { OnOk result (list_all (is_bit line.now) bits.new.items ≡ true) }
{
    for place in range.from..range.to {
        bits.push(line.bit(place))?;
    }
    Ok(())
}

/// The bits of ranges.
fn bits_of(alloc: Global, line: &BitLine, ranges: &[BitRange]) -> Result<Vec<BitRef>, AllocError>
    requires placed { Placed line.now }
    requires vars { line.now.vars < 2 ^ 32 }
    requires mems { length line.now.items < line.now.vars + 2 ^ 32 }
    requires ascending { Ascending 0 ranges.now }
    requires within { AllBelow line.now.bits ranges.now }
    ensures exactly { IfOk result (λ out. (b : ℕ) → lists line.now out.items b ≡ has b ranges.now) }
    ensures ascending { IfOk result (λ out. Rises line.now 0 out.items) }
{
    let mut bits = Vec::new(alloc);
    let mut rest = ranges;
    while let [range, more @ ..] = rest {
        add_bits(line, *range, &mut bits)?;
        rest = more;
    }
    Ok(bits)
}

/// The bits that a process reads and does not write, ascending.
pub fn bits_read(alloc: Global, design: &Design, proc: u32) -> Result<Vec<BitRef>, AllocError>
    requires vars { length design.now.vars < 2 ^ 32 }
    requires mems { length design.now.mems < 2 ^ 32 }
    ensures exactly { IfOk result (λ out. (b : ℕ) → lists (line_in design.now) out.items b ≡ reads (line_in design.now) design.now.procs proc b) }
    ensures ascending { IfOk result (λ out. Rises (line_in design.now) 0 out.items) }
{
    let line = BitLine::new(alloc, design)?;
    let ranges = ranges_read(alloc, design, &line, proc)?;
    bits_of(alloc, &line, ranges.as_slice())
}

/// The bits that a process writes, ascending.
pub fn bits_written(alloc: Global, design: &Design, proc: u32) -> Result<Vec<BitRef>, AllocError>
    requires vars { length design.now.vars < 2 ^ 32 }
    requires mems { length design.now.mems < 2 ^ 32 }
    ensures exactly { IfOk result (λ out. (b : ℕ) → lists (line_in design.now) out.items b ≡ writes (line_in design.now) design.now.procs proc b) }
    ensures ascending { IfOk result (λ out. Rises (line_in design.now) 0 out.items) }
{
    let line = BitLine::new(alloc, design)?;
    let ranges = ranges_written(alloc, design, &line, proc)?;
    bits_of(alloc, &line, ranges.as_slice())
}
