//! What a process reads and writes, as ascending ranges with gaps between them.

ghost use Rattle.std.specs.Prelude.{◌≡◌, ◌&&◌, not, nat_lt, IfOk, ℕ, []};
ghost use Rattle.rtl_pieces.specs.Line.{has, items_in};
ghost use Rattle.rtl_pieces.specs.Writes as spec;
ghost use Rattle.rtl_pieces.specs.Bits.{writes, names, reads};
ghost use Rattle.rtl_pieces.specs.Ranges.{Ascending, AllBelow};

use crate::body::add_all_read;
use crate::line::BitLine;
use crate::minus::minus;
use crate::normal::{below, normal};
use crate::range::BitRange;
use crate::writes::add_all_written;
use rtl_ir::{Design, Stmt};
use std::alloc::{AllocError, Global};

/// The bits of a line that ranges have.
fn settled(alloc: Global, line: &BitLine, found: Vec<BitRange>) -> Result<Vec<BitRange>, AllocError>
    ensures same { IfOk result (λ out. (b : ℕ) → has b out.items ≡ (nat_lt b line.now.bits && has b found.items)) }
    ensures ascending { IfOk result (λ out. Ascending 0 out.items) }
    ensures within { IfOk result (λ out. AllBelow line.now.bits out.items) }
{
    let ranges = normal(alloc, found)?;
    below(alloc, line.bits(), ranges.as_slice())
}

/// What statements write.
fn body_writes(alloc: Global, body: &[Stmt], line: &BitLine) -> Result<Vec<BitRange>, AllocError>
    ensures same { IfOk result (λ out. (b : ℕ) → has b out.items ≡ (nat_lt b line.now.bits && has b (spec.body_writes (items_in line.now) body.now []))) }
    ensures ascending { IfOk result (λ out. Ascending 0 out.items) }
    ensures within { IfOk result (λ out. AllBelow line.now.bits out.items) }
{
    let mut found = Vec::new(alloc);
    add_all_written(body, line, &mut found)?;
    settled(alloc, line, found)
}

/// What statements name in their expressions and indices.
fn body_reads(alloc: Global, body: &[Stmt], line: &BitLine) -> Result<Vec<BitRange>, AllocError>
    ensures same { IfOk result (λ out. (b : ℕ) → has b out.items ≡ (nat_lt b line.now.bits && has b (spec.body_reads (items_in line.now) body.now []))) }
    ensures ascending { IfOk result (λ out. Ascending 0 out.items) }
    ensures within { IfOk result (λ out. AllBelow line.now.bits out.items) }
{
    let mut found = Vec::new(alloc);
    add_all_read(body, line, &mut found)?;
    settled(alloc, line, found)
}

/// The bits that a process of a design writes, as ascending ranges with gaps between them. There is none where there is
/// no such process.
///
/// `AllocError`: there was no memory left.
pub fn ranges_written(
    alloc: Global,
    design: &Design,
    line: &BitLine,
    proc: u32,
) -> Result<Vec<BitRange>, AllocError>
    ensures same { IfOk result (λ out. (b : ℕ) → has b out.items ≡ writes line.now design.now.procs proc b) }
    ensures ascending { IfOk result (λ out. Ascending 0 out.items) }
    ensures within { IfOk result (λ out. AllBelow line.now.bits out.items) }
{
    match design.procs.get(proc as usize) {
        Some(process) => body_writes(alloc, process.body.as_slice(), line),
        None => Ok(Vec::new(alloc)),
    }
}

/// The bits that a process of a design names in its expressions and indices.
fn ranges_named(
    alloc: Global,
    design: &Design,
    line: &BitLine,
    proc: u32,
) -> Result<Vec<BitRange>, AllocError>
    ensures same { IfOk result (λ out. (b : ℕ) → has b out.items ≡ names line.now design.now.procs proc b) }
    ensures ascending { IfOk result (λ out. Ascending 0 out.items) }
    ensures within { IfOk result (λ out. AllBelow line.now.bits out.items) }
{
    match design.procs.get(proc as usize) {
        Some(process) => body_reads(alloc, process.body.as_slice(), line),
        None => Ok(Vec::new(alloc)),
    }
}

/// The bits that a process of a design reads and does not write, as ascending ranges with gaps between them. There is none
/// where there is no such process.
///
/// `AllocError`: there was no memory left.
pub fn ranges_read(
    alloc: Global,
    design: &Design,
    line: &BitLine,
    proc: u32,
) -> Result<Vec<BitRange>, AllocError>
    ensures same { IfOk result (λ out. (b : ℕ) → has b out.items ≡ reads line.now design.now.procs proc b) }
    ensures ascending { IfOk result (λ out. Ascending 0 out.items) }
    ensures within { IfOk result (λ out. AllBelow line.now.bits out.items) }
{
    let written = ranges_written(alloc, design, line, proc)?;
    let named = ranges_named(alloc, design, line, proc)?;
    minus(alloc, named.as_slice(), written.as_slice())
}
