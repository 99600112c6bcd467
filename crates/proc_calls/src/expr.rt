//! The calls in expressions.
#![tactic(auto, using(crate::specs::CallLaws::laws))]

ghost use Rattle.std.specs.Prelude.{◌≡◌, ◌++◌, OnOk, []};
ghost use Rattle.std.specs.Option.{option_map};
ghost use Rattle.std.specs.List.{flat_map};
ghost use Rattle.proc_calls.specs.Calls as spec;

use rtl_ir::{Call, Choice, Expr, ExprNode, Select, Target};
use sqlite_items::Boxed;
use std::alloc::AllocError;

/// Adds no call.
fn add_none(calls: &mut Vec<u32>) -> Result<(), AllocError>
    ensures { OnOk result (calls.new.items ≡ calls.old.items ++ []) }
{
    let _ = calls;
    Ok(())
}

/// Adds the calls of an expression.
#[cycle(calls)]
pub fn add_expr(expr: &Expr, calls: &mut Vec<u32>) -> Result<(), AllocError>
    ensures { OnOk result (calls.new.items ≡ calls.old.items ++ spec.expr_calls expr.now) }
{
    match &expr.node {
        ExprNode::Const(_) => add_none(calls),
        ExprNode::Read(target) => add_target(target, calls),
        ExprNode::Prefix(_, operand) => add_expr(operand.get(), calls),
        ExprNode::Level(operands, _) => add_exprs(operands.as_slice(), calls),
        ExprNode::Choose(choices, last) => {
            add_choices(choices.as_slice(), calls)?;
            add_expr(last.get(), calls)?;
            Ok(())
        }
        ExprNode::Concat(parts) => add_exprs(parts.as_slice(), calls),
        ExprNode::Repeat(_, parts) => add_exprs(parts.as_slice(), calls),
        ExprNode::Call(call) => add_call(call, calls),
        ExprNode::Sign(operand) => add_expr(operand.get(), calls),
    }
}

/// Adds the calls of expressions.
#[cycle(calls)]
pub fn add_exprs(exprs: &[Expr], calls: &mut Vec<u32>) -> Result<(), AllocError>
    ensures { OnOk result (calls.new.items ≡ calls.old.items ++ flat_map spec.expr_calls exprs.now) }
{
    for expr in exprs {
        add_expr(expr, calls)?;
    }
    Ok(())
}

/// Adds the calls of choices.
#[cycle(calls)]
fn add_choices(choices: &[Choice], calls: &mut Vec<u32>) -> Result<(), AllocError>
    ensures { OnOk result (calls.new.items ≡ calls.old.items ++ flat_map spec.choice_calls choices.now) }
{
    for choice in choices {
        add_choice(choice, calls)?;
    }
    Ok(())
}

/// Adds the calls of a choice.
#[cycle(calls)]
fn add_choice(choice: &Choice, calls: &mut Vec<u32>) -> Result<(), AllocError>
    ensures { OnOk result (calls.new.items ≡ calls.old.items ++ spec.choice_calls choice.now) }
{
    add_expr(&choice.test, calls)?;
    add_expr(&choice.value, calls)?;
    Ok(())
}

/// Adds a call, after those of its arguments.
#[cycle(calls)]
pub fn add_call(call: &Call, calls: &mut Vec<u32>) -> Result<(), AllocError>
    ensures { OnOk result (calls.new.items ≡ calls.old.items ++ spec.call_calls call.now) }
{
    add_exprs(call.args.as_slice(), calls)?;
    calls.push(call.import)?;
    Ok(())
}

/// Adds the calls in the indices of a target.
#[cycle(calls)]
pub fn add_target(target: &Target, calls: &mut Vec<u32>) -> Result<(), AllocError>
    ensures { OnOk result (calls.new.items ≡ calls.old.items ++ spec.target_calls target.now) }
{
    add_element(&target.element, calls)?;
    add_select(&target.select, calls)?;
    Ok(())
}

/// Adds the calls in an address.
#[cycle(calls)]
fn add_element(element: &Option<Boxed<Expr>>, calls: &mut Vec<u32>) -> Result<(), AllocError>
    ensures { OnOk result (calls.new.items ≡ calls.old.items ++ spec.or_none (option_map spec.expr_calls element.now)) }
{
    match element {
        Some(element) => add_expr(element.get(), calls),
        None => add_none(calls),
    }
}

/// Adds the calls in a select.
#[cycle(calls)]
fn add_select(select: &Option<Select>, calls: &mut Vec<u32>) -> Result<(), AllocError>
    ensures { OnOk result (calls.new.items ≡ calls.old.items ++ spec.or_none (option_map spec.select_calls select.now)) }
{
    match select {
        Some(select) => add_expr(select.at.get(), calls),
        None => add_none(calls),
    }
}
