//! Numbers that constant expressions give.

ghost use Rattle.std.specs.Prelude.{◌≡◌, ◌-ℤ◌, ◌+ℤ◌, pos, IfOk, IfSome};
ghost use Rattle.rtl_lower.specs.Kinds.{type_of};
ghost use Rattle.sv_expr.specs.Environment.{environment};
ghost use Rattle.sv_expr.specs.Meaning.{ValueOf, OwnReadingOf, part_width as part_bits};

use crate::fault::FlatFault;
use crate::here::Here;
use crate::kind::Kind;
use rtl_ir::Width;
use sv_expr::{const_value, own_value};
use sv_tree::{Expr, Symbol};
use vs_base::{Bits, Whole, limits};

/// The value of a constant expression in a context.
pub fn constant(expr: &Expr, here: &Here<'_>, kind: Kind) -> Result<Bits, FlatFault>
    ensures { IfOk result (λ value. value ≡ ValueOf (environment here.now.view) expr.now (type_of kind)) }
{
    match const_value(&here.view, expr, kind.value_type()) {
        Ok(value) => Ok(value),
        Err(fault) => Err(FlatFault::from(fault)),
    }
}

/// The value of a constant expression, read with its own sign.
fn number(expr: &Expr, here: &Here<'_>) -> Result<Whole, FlatFault>
    ensures { IfOk result (λ value. value ≡ OwnReadingOf (environment here.now.view) expr.now) }
{
    match own_value(&here.view, expr) {
        Ok(value) => Ok(value),
        Err(fault) => Err(FlatFault::from(fault)),
    }
}

/// How many times a replication stands.
pub fn count_of(expr: &Expr, here: &Here<'_>) -> Result<u32, FlatFault>
    ensures { IfOk result (λ count. pos count ≡ OwnReadingOf (environment here.now.view) expr.now) }
{
    let Some(count) = number(expr, here)?.in_word() else {
        return Err(FlatFault::NotElaborated);
    };
    match u32::try_from(count) {
        Ok(count) => Ok(count),
        Err(_) => Err(FlatFault::NotElaborated),
    }
}

/// How many bits a part select has: `[m:l]` those from l to m, `[e +: c]` and `[e -: c]` c.
pub fn part_width(mark: Symbol, from: &Expr, to: &Expr, here: &Here<'_>) -> Result<Width, FlatFault>
    ensures { IfOk result (λ width. pos width ≡ part_bits mark (OwnReadingOf (environment here.now.view) from.now) (OwnReadingOf (environment here.now.view) to.now)) }
{
    let to = number(to, here)?;
    if !matches!(mark, Symbol::Colon) {
        return width_of(i128::from(to.nearest()));
    }
    let from = number(from, here)?;
    down_width(from, to)
}

// The bits from one index down to another.
fn down_width(from: Whole, to: Whole) -> Result<Width, FlatFault>
    ensures { IfOk result (λ width. pos width ≡ (from -ℤ to) +ℤ pos 1) }
{
    let Some(bits) = bits_down(from, to) else {
        return Err(FlatFault::NotElaborated);
    };
    width_in(bits)
}

// How many bits there are from one index down to another, where they are from 1 to 2^31.
fn bits_down(from: Whole, to: Whole) -> Option<u32>
    ensures { IfSome result (λ bits. pos bits ≡ (from -ℤ to) +ℤ pos 1) }
{
    let below = from.minus(to);
    if below < 0 {
        return None;
    }
    if below >= 1 << 31 {
        return None;
    }
    let below = below as u32;
    Some(below + 1)
}

// So many bits, where a type may have them.
fn width_in(bits: u32) -> Result<Width, FlatFault>
    ensures { IfOk result (λ width. width ≡ bits) }
{
    if bits < 1 || bits > limits::WIDTH {
        return Err(FlatFault::NotElaborated);
    }
    Ok(Width::new(bits))
}

/// So many bits.
pub fn width_of(bits: i128) -> Result<Width, FlatFault>
    ensures { IfOk result (λ width. pos width ≡ bits) }
{
    if bits < 1 || bits > i128::from(limits::WIDTH) {
        return Err(FlatFault::NotElaborated);
    }
    match u32::try_from(bits) {
        Ok(bits) => Ok(Width::new(bits)),
        Err(_) => Err(FlatFault::NotElaborated),
    }
}
