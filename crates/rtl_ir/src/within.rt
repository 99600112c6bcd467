//! Whether expressions fit a design.
#![tactic(auto, using(crate::specs::WithinLaws::laws))]

ghost use Rattle.std.specs.Prelude.{◌≡◌, ◌&&◌, suc, ◌==◌, Option};
ghost use Rattle.std.specs.List.{list_all};
ghost use Rattle.std.specs.Option.{option_map, option_copied};
ghost use Rattle.rtl_ir.specs.declared.expr.Target.{out-Target};
ghost use Rattle.rtl_ir.specs.Within as within;

use crate::counts::Counts;
use crate::expr::{Call, Choice, Expr, ExprNode, Select, Target};
use vs_base::limits;

/// Whether there is one operand more than operators.
fn is_one_more(operands: usize, operators: usize) -> bool
    ensures { result ≡ (operands == suc operators) }
{
    operands > 0 && operands - 1 == operators
}

/// Whether an expression fits.
#[cycle(fits)]
pub fn expr_fits(counts: &Counts, expr: &Expr) -> bool
    ensures { result ≡ within.expr_fits counts.now expr.now }
{
    match &expr.node {
        ExprNode::Const(value) => value.width() == expr.width.bits(),
        ExprNode::Read(target) => target_fits(counts, target),
        ExprNode::Prefix(_, operand) => expr_fits(counts, operand.get()),
        ExprNode::Level(operands, operators) => {
            if !is_one_more(operands.len(), operators.len()) {
                return false;
            }
            exprs_fit(counts, operands.as_slice())
        }
        ExprNode::Choose(choices, last) => {
            if !choices_fit(counts, choices.as_slice()) {
                return false;
            }
            expr_fits(counts, last.get())
        }
        ExprNode::Concat(parts) => exprs_fit(counts, parts.as_slice()),
        ExprNode::Repeat(_, parts) => exprs_fit(counts, parts.as_slice()),
        ExprNode::Call(call) => call_fits(counts, call),
        ExprNode::Sign(operand) => expr_fits(counts, operand.get()),
    }
}

/// Whether expressions fit.
#[cycle(fits)]
pub fn exprs_fit(counts: &Counts, exprs: &[Expr]) -> bool
    ensures { result ≡ list_all (within.expr_fits counts.now) exprs.now }
{
    for expr in exprs {
        if !expr_fits(counts, expr) {
            return false;
        }
    }
    true
}

/// Whether choices fit.
#[cycle(fits)]
fn choices_fit(counts: &Counts, choices: &[Choice]) -> bool
    ensures { result ≡ list_all (within.choice_fits counts.now) choices.now }
{
    for choice in choices {
        if !choice_fits(counts, choice) {
            return false;
        }
    }
    true
}

/// Whether a choice fits.
#[cycle(fits)]
fn choice_fits(counts: &Counts, choice: &Choice) -> bool
    ensures { result ≡ within.choice_fits counts.now choice.now }
{
    if !expr_fits(counts, &choice.test) {
        return false;
    }
    expr_fits(counts, &choice.value)
}

/// Whether a call fits.
#[cycle(fits)]
pub fn call_fits(counts: &Counts, call: &Call) -> bool
    ensures { result ≡ within.call_fits counts.now call.now }
{
    if call.import as usize >= counts.imports {
        return false;
    }
    if call.args.len() > limits::CALL_ARGUMENTS {
        return false;
    }
    exprs_fit(counts, call.args.as_slice())
}

/// Whether a target fits.
#[cycle(fits)]
pub fn target_fits(counts: &Counts, target: &Target) -> bool
    ensures { result ≡ within.target_fits counts.now target.now }
{
    if !item_fits(counts, target) {
        return false;
    }
    match &target.select {
        Some(select) => expr_fits(counts, select.at.get()),
        None => true,
    }
}

/// Whether the variable of a target is there, or its memory with the element's address.
#[cycle(fits)]
fn item_fits(counts: &Counts, target: &Target) -> bool
    ensures { result ≡ within.item_fits counts.now (out-Target target.now).mem (out-Target target.now).item (option_map (within.expr_fits counts.now) (out-Target target.now).element) }
{
    let Some(element) = &target.element else {
        return !target.mem && (target.item as usize) < counts.vars;
    };
    if !target.mem {
        return false;
    }
    if target.item as usize >= counts.mems {
        return false;
    }
    expr_fits(counts, element.get())
}
