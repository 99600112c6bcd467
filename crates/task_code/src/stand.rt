//! Where the bits of a target stand, as far as it can be told before the run.

use crate::fault::CodeFault;
use crate::here::{Here, Own};
use crate::table::{Rows, Span};
use rtl_ir::{Expr, ExprNode, Select, Target, Width};
use task_eval::Index;

/// Where a variable or an element stands.
#[derive(Clone, Copy, Debug, PartialEq, Eq)]
pub(crate) enum Stand {
    /// In these words.
    Words(Span),
    /// In an element of a memory that an address names.
    Element(Rows, Index),
    /// Nowhere: there is no such element.
    Nowhere,
}

/// Which bits of a variable or an element are named.
#[derive(Clone, Copy, Debug, PartialEq, Eq)]
pub(crate) enum Part {
    All,
    /// So many bits from a place on.
    At(i64, u32),
    /// So many bits from the place that an index names.
    Index(Index, Width),
}

/// Where a target's variable or element stands.
pub(crate) fn stand_of(target: &Target, own: &Own, here: &Here<'_>) -> Result<Stand, CodeFault> {
    if !target.mem {
        return Ok(Stand::Words(here.span(target.item)?));
    }
    let rows = here.rows(target.item)?;
    let Some(element) = &target.element else {
        return Err(CodeFault::DoesNotFit);
    };
    let element = element.get();
    let address = Index {
        signed: element.signed,
        low: own.low,
    };
    match &element.node {
        ExprNode::Const(value) => element_at(rows, address.place(*value)),
        _ => Ok(Stand::Element(rows, address)),
    }
}

/// The words of the element at a place.
fn element_at(rows: Rows, place: i64) -> Result<Stand, CodeFault> {
    if place < 0 || place >= i64::from(rows.count) {
        return Ok(Stand::Nowhere);
    }
    let Some(above) = (place as u32).checked_mul(rows.stride) else {
        return Err(CodeFault::DoesNotFit);
    };
    let Some(first) = rows.first.checked_add(above) else {
        return Err(CodeFault::DoesNotFit);
    };
    Ok(Stand::Words(Span {
        first,
        count: rows.stride,
    }))
}

/// Which bits a target names.
pub(crate) fn part_of(target: &Target, own: &Own) -> Part {
    let Some(select) = &target.select else {
        return Part::All;
    };
    let at = select.at.get();
    let index = Index {
        signed: at.signed,
        low: lowest(select, own),
    };
    match &at.node {
        ExprNode::Const(value) => Part::At(index.place(*value), select.width.bits()),
        _ => Part::Index(index, select.width),
    }
}

/// The index of a select that names the bits from place 0 on.
fn lowest(select: &Select, own: &Own) -> i64 {
    if select.down {
        return i64::from(own.lsb) + i64::from(select.width.bits()) - 1;
    }
    i64::from(own.lsb)
}

/// The index of a select that is taken when the code runs.
pub(crate) fn select_index(target: &Target) -> Option<&Expr> {
    let Some(select) = &target.select else {
        return None;
    };
    not_fixed(select.at.get())
}

/// The address of an element that is taken when the code runs.
pub(crate) fn address(target: &Target) -> Option<&Expr> {
    let Some(element) = &target.element else {
        return None;
    };
    not_fixed(element.get())
}

/// An expression that is no constant.
fn not_fixed(expr: &Expr) -> Option<&Expr> {
    match expr.node {
        ExprNode::Const(_) => None,
        _ => Some(expr),
    }
}

/// How many bits a target has.
pub(crate) fn width_of(target: &Target, own: &Own) -> Width {
    match &target.select {
        Some(select) => select.width,
        None => own.width,
    }
}
