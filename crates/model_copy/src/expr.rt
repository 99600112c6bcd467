//! Copies of expressions.
ghost use Rattle.std.specs.Prelude.{◌≡◌, IfOk};

use crate::copied::Copied;
use rtl_ir::{Call, Choice, Expr, ExprNode, Select, Target};
use sqlite_items::{Boxed, Items};
use std::alloc::{AllocError, Global};

/// An equal expression.
#[cycle(copy_expr)]
pub fn copy_expr(alloc: Global, expr: &Expr) -> Result<Expr, AllocError>
    ensures { IfOk result (λ copy. copy ≡ expr.now) }
{
    let node = copy_node(alloc, &expr.node)?;
    Ok(Expr {
        width: expr.width,
        signed: expr.signed,
        node,
    })
}

#[cycle(copy_expr)]
fn copy_node(alloc: Global, node: &ExprNode) -> Result<ExprNode, AllocError>
    ensures { IfOk result (λ copy. copy ≡ node.now) }
{
    match node {
        ExprNode::Const(value) => Ok(ExprNode::Const(*value)),
        ExprNode::Read(target) => Ok(ExprNode::Read(copy_target(alloc, target)?)),
        ExprNode::Prefix(operators, operand) => {
            let operators = Items::from_slice(alloc, operators.as_slice())?;
            Ok(ExprNode::Prefix(operators, copy_boxed(alloc, operand.get())?))
        }
        ExprNode::Level(operands, operators) => {
            let operators = Items::from_slice(alloc, operators.as_slice())?;
            Ok(ExprNode::Level(copy_exprs(alloc, operands.as_slice())?, operators))
        }
        ExprNode::Choose(choices, last) => {
            let choices = copy_choices(alloc, choices.as_slice())?;
            Ok(ExprNode::Choose(choices, copy_boxed(alloc, last.get())?))
        }
        ExprNode::Concat(parts) => Ok(ExprNode::Concat(copy_exprs(alloc, parts.as_slice())?)),
        ExprNode::Repeat(times, parts) => {
            Ok(ExprNode::Repeat(*times, copy_exprs(alloc, parts.as_slice())?))
        }
        ExprNode::Call(call) => Ok(ExprNode::Call(copy_call(alloc, call)?)),
        ExprNode::Sign(operand) => Ok(ExprNode::Sign(copy_boxed(alloc, operand.get())?)),
    }
}

#[cycle(copy_expr)]
fn copy_boxed(alloc: Global, expr: &Expr) -> Result<Boxed<Expr>, AllocError>
    ensures { IfOk result (λ copy. copy ≡ expr.now) }
{
    let copy = copy_expr(alloc, expr)?;
    Boxed::new(alloc, copy)
}

/// Equal expressions, in order.
#[cycle(copy_expr)]
pub fn copy_exprs(alloc: Global, exprs: &[Expr]) -> Result<Items<Expr>, AllocError>
    ensures { IfOk result (λ copies. copies ≡ exprs.now) }
{
    let mut copies = Items::new(alloc);
    for expr in exprs {
        let copy = copy_expr(alloc, expr)?;
        copies.push(copy)?;
    }
    Ok(copies)
}

#[cycle(copy_expr)]
fn copy_choices(alloc: Global, choices: &[Choice]) -> Result<Items<Choice>, AllocError>
    ensures { IfOk result (λ copies. copies ≡ choices.now) }
{
    let mut copies = Items::new(alloc);
    for choice in choices {
        let test = copy_expr(alloc, &choice.test)?;
        let value = copy_expr(alloc, &choice.value)?;
        copies.push(Choice { test, value })?;
    }
    Ok(copies)
}

/// An equal call.
#[cycle(copy_expr)]
pub fn copy_call(alloc: Global, call: &Call) -> Result<Call, AllocError>
    ensures { IfOk result (λ copy. copy ≡ call.now) }
{
    let args = copy_exprs(alloc, call.args.as_slice())?;
    Ok(Call {
        import: call.import,
        args,
    })
}

#[cycle(copy_expr)]
fn copy_target(alloc: Global, target: &Target) -> Result<Target, AllocError>
    ensures { IfOk result (λ copy. copy ≡ target.now) }
{
    let element = copy_element(alloc, &target.element)?;
    let select = copy_select(alloc, &target.select)?;
    Ok(Target {
        mem: target.mem,
        item: target.item,
        element,
        select,
        whole: target.whole,
    })
}

#[cycle(copy_expr)]
fn copy_element(
    alloc: Global,
    element: &Option<Boxed<Expr>>,
) -> Result<Option<Boxed<Expr>>, AllocError>
    ensures { IfOk result (λ copy. copy ≡ element.now) }
{
    match element {
        Some(address) => Ok(Some(copy_boxed(alloc, address.get())?)),
        None => Ok(None),
    }
}

#[cycle(copy_expr)]
fn copy_select(alloc: Global, select: &Option<Select>) -> Result<Option<Select>, AllocError>
    ensures { IfOk result (λ copy. copy ≡ select.now) }
{
    let Some(select) = select else {
        return Ok(None);
    };
    let at = copy_boxed(alloc, select.at.get())?;
    Ok(Some(Select {
        at,
        width: select.width,
        down: select.down,
    }))
}

impl Copied for Target {
    fn copied(&self, alloc: Global) -> Result<Target, AllocError> {
        copy_target(alloc, self)
    }
}
