//! Assignments. The value and the indices of the left side are all on the stack before the first store
//! (IEEE 1800-2017 10.4.1, 11.4.12).
ghost use Rattle.std.specs.Prelude.{◌≡◌, ◌≤◌, ◌<◌, ◌+◌, length, OnOk, IfOk};

use crate::expression::expression;
use crate::fault::CodeFault;
use crate::here::Here;
use crate::part::{Source, write_target};
use crate::sole::{Sole, sole_of};
use crate::stand::{address, select_index, width_of};
use crate::tail::Tail;
use rtl_ir::{Expr, Place, Target};
use std::alloc::Global;
use vs_base::limits::WIDTH;

/// Writes a value to a place.
pub(crate) fn write(
    alloc: Global,
    place: &Place,
    value: &Expr,
    here: &Here<'_>,
    out: &mut Tail,
) -> Result<(), CodeFault>
    requires limits { out.old.held.limits ≡ here.now.limits }
    requires below { here.now.limits.to ≤ here.now.limits.words }
    ensures depth { OnOk result (out.new.depth ≡ out.old.depth) }
    ensures held { OnOk result (out.new.held ≡ out.old.held) }
{
    let parts = place.parts.as_slice();
    let width = total_of(parts, here)?;
    if let [target] = parts {
        return write_one(alloc, target, width, value, here, out);
    }
    write_all(alloc, parts, width, value, here, out)
}

/// Writes a value to one target.
fn write_one(
    alloc: Global,
    target: &Target,
    width: u32,
    value: &Expr,
    here: &Here<'_>,
    out: &mut Tail,
) -> Result<(), CodeFault>
    requires limits { out.old.held.limits ≡ here.now.limits }
    requires below { here.now.limits.to ≤ here.now.limits.words }
    ensures depth { OnOk result (out.new.depth ≡ out.old.depth) }
    ensures held { OnOk result (out.new.held ≡ out.old.held) }
{
    match sole_of(target, here)? {
        Sole::Word(word, len) => {
            let word = here.stored(word)?;
            out.store(word, len)?;
        }
        Sole::Column(rows, by, len) => {
            let column = here.stored_column(rows, 0, by)?;
            out.store_at(column, len)?;
            let Some(address) = address(target) else {
                return Err(CodeFault::DoesNotFit);
            };
            expression(address, here, out)?;
        }
        Sole::No => return write_all(alloc, std::slice::from_ref(target), width, value, here, out),
    }
    push_value(value, width, here, out)
}

/// Writes a value to targets, the first one with the highest bits.
fn write_all(
    alloc: Global,
    parts: &[Target],
    width: u32,
    value: &Expr,
    here: &Here<'_>,
    out: &mut Tail,
) -> Result<(), CodeFault>
    requires limits { out.old.held.limits ≡ here.now.limits }
    requires below { here.now.limits.to ≤ here.now.limits.words }
    ensures depth { OnOk result (out.new.depth ≡ out.old.depth) }
    ensures held { OnOk result (out.new.held ≡ out.old.held) }
{
    let indices = indices_of(alloc, parts)?;
    let height = out.depth();
    drop_all(indices.len(), out)?;
    write_parts(parts, height, here, out)?;
    push_indices(indices.as_slice(), here, out)?;
    push_value(value, width, here, out)
}

/// Takes a value and so many indices away.
fn drop_all(indices: usize, out: &mut Tail) -> Result<(), CodeFault>
    ensures depth { OnOk result (out.new.depth ≡ out.old.depth + 1 + indices) }
    ensures held { OnOk result (out.new.held ≡ out.old.held) }
{
    out.drop_top()?;
    for number in 0..indices {
        out.drop_top()?;
    }
    Ok(())
}

/// Pushes indices in order.
fn push_indices(indices: &[&Expr], here: &Here<'_>, out: &mut Tail) -> Result<(), CodeFault>
    requires limits { out.old.held.limits ≡ here.now.limits }
    requires deep { length indices.now ≤ out.old.depth }
    ensures depth { OnOk result (out.new.depth + length indices.now ≡ out.old.depth) }
    ensures held { OnOk result (out.new.held ≡ out.old.held) }
{
    for number in (0..indices.len()).rev() {
        expression(indices[number], here, out)?;
    }
    Ok(())
}

/// Pushes the value that is written to so many bits: extended by its own sign where it has fewer. Where it has more, a store
/// takes the low ones.
fn push_value(value: &Expr, width: u32, here: &Here<'_>, out: &mut Tail) -> Result<(), CodeFault>
    requires limits { out.old.held.limits ≡ here.now.limits }
    requires deep { 1 ≤ out.old.depth }
    ensures depth { OnOk result (out.new.depth + 1 ≡ out.old.depth) }
    ensures held { OnOk result (out.new.held ≡ out.old.held) }
{
    if width > WIDTH {
        return Err(CodeFault::DoesNotFit);
    }
    let own = value.width.bits();
    if own < width {
        out.extend(own, width, value.signed)?;
    }
    expression(value, here, out)
}

/// How many bits targets have together.
fn total_of(parts: &[Target], here: &Here<'_>) -> Result<u32, CodeFault> {
    let mut width: u32 = 0;
    for target in parts {
        let own = here.own(target)?;
        width = width.saturating_add(width_of(target, &own).bits());
    }
    Ok(width)
}

/// The indices of targets that are taken when the code runs, in order.
fn indices_of<'a>(alloc: Global, parts: &'a [Target]) -> Result<Vec<&'a Expr>, CodeFault> {
    let mut indices = Vec::new(alloc);
    for target in parts {
        if let Some(address) = address(target) {
            indices.push(address)?;
        }
        if let Some(index) = select_index(target) {
            indices.push(index)?;
        }
    }
    Ok(indices)
}

/// Writes the parts of a value that stands on so many others, and the indices above it.
fn write_parts(
    parts: &[Target],
    height: u32,
    here: &Here<'_>,
    out: &mut Tail,
) -> Result<(), CodeFault>
    requires limits { out.old.held.limits ≡ here.now.limits }
    requires below { here.now.limits.to ≤ here.now.limits.words }
    requires there { height < out.old.depth }
    ensures depth { OnOk result (out.new.depth ≡ out.old.depth) }
    ensures held { OnOk result (out.new.held ≡ out.old.held) }
{
    let mut next = out.depth();
    let mut low: u32 = 0;
    for number in (0..parts.len()).rev() {
        let target = &parts[number];
        let width = width_of(target, &here.own(target)?);
        let source = Source { height, low, width };
        next = write_target(target, &source, next, here, out)?;
        low = low.saturating_add(width.bits());
    }
    Ok(())
}
