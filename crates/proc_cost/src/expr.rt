//! What expressions cost.
#![tactic(auto, using(crate::specs::CostLaws::laws))]

ghost use Rattle.std.specs.Prelude.{◌≡◌};
ghost use Rattle.std.specs.Option.{option_map};
ghost use Rattle.std.specs.List.{sum_by};
ghost use Rattle.proc_cost.specs.Costs as spec;

use rtl_ir::{BinaryOp, Call, Choice, Expr, ExprNode, Select, Target};
use sqlite_items::Boxed;

/// So much more, up to what 32 bits hold.
#[tactic(auto, unfolding(crate::specs::Costs::onto))]
pub fn add(so_far: u32, cost: u32) -> u32
    ensures { result ≡ spec.onto so_far cost }
{
    so_far.saturating_add(cost)
}

/// What an operator costs.
fn op_cost(op: BinaryOp) -> u32
    ensures { result ≡ spec.op_cost op }
{
    match op {
        BinaryOp::Mul => 3,
        BinaryOp::Div | BinaryOp::Rem => 10,
        _ => 1,
    }
}

/// The cost with those of operators.
fn add_ops(so_far: u32, ops: &[BinaryOp]) -> u32
    ensures { result ≡ spec.onto so_far (sum_by spec.op_cost ops.now) }
{
    let mut cost = add(so_far, 0);
    for op in ops {
        cost = add(cost, op_cost(*op));
    }
    cost
}

/// The cost with that of an expression.
#[cycle(cost)]
pub fn add_expr(so_far: u32, expr: &Expr) -> u32
    ensures { result ≡ spec.onto so_far (spec.expr_cost expr.now) }
{
    match &expr.node {
        ExprNode::Const(_) => add(so_far, 0),
        ExprNode::Read(target) => add_target(so_far, target),
        ExprNode::Prefix(operators, operand) => {
            let so_far = add_len(so_far, operators.len());
            add_expr(so_far, operand.get())
        }
        ExprNode::Level(operands, operators) => {
            let so_far = add_ops(so_far, operators.as_slice());
            add_exprs(so_far, operands.as_slice())
        }
        ExprNode::Choose(choices, last) => {
            let so_far = add_choices(so_far, choices.as_slice());
            add_expr(so_far, last.get())
        }
        ExprNode::Concat(parts) => add_exprs(so_far, parts.as_slice()),
        ExprNode::Repeat(_, parts) => add_exprs(so_far, parts.as_slice()),
        ExprNode::Call(call) => add_call(so_far, call),
        ExprNode::Sign(operand) => add_expr(so_far, operand.get()),
    }
}

/// The cost with so much more.
#[tactic(auto, unfolding(crate::specs::Costs::onto))]
fn add_len(so_far: u32, len: usize) -> u32
    ensures { result ≡ spec.onto so_far len }
{
    let len = if len > u32::MAX as usize {
        u32::MAX
    } else {
        len as u32
    };
    so_far.saturating_add(len)
}

/// The cost with those of expressions.
#[cycle(cost)]
pub fn add_exprs(so_far: u32, exprs: &[Expr]) -> u32
    ensures { result ≡ spec.onto so_far (sum_by spec.expr_cost exprs.now) }
{
    let mut cost = add(so_far, 0);
    for expr in exprs {
        cost = add_expr(cost, expr);
    }
    cost
}

/// The cost with those of choices.
#[cycle(cost)]
fn add_choices(so_far: u32, choices: &[Choice]) -> u32
    ensures { result ≡ spec.onto so_far (sum_by spec.choice_cost choices.now) }
{
    let mut cost = add(so_far, 0);
    for choice in choices {
        cost = add_choice(cost, choice);
    }
    cost
}

/// The cost with that of a choice.
#[cycle(cost)]
fn add_choice(so_far: u32, choice: &Choice) -> u32
    ensures { result ≡ spec.onto so_far (spec.choice_cost choice.now) }
{
    let so_far = add(so_far, 1);
    let so_far = add_expr(so_far, &choice.test);
    add_expr(so_far, &choice.value)
}

/// The cost with that of a call.
#[cycle(cost)]
pub fn add_call(so_far: u32, call: &Call) -> u32
    ensures { result ≡ spec.onto so_far (spec.call_cost call.now) }
{
    let so_far = add(so_far, 20);
    add_exprs(so_far, call.args.as_slice())
}

/// The cost with that of a target.
#[cycle(cost)]
pub fn add_target(so_far: u32, target: &Target) -> u32
    ensures { result ≡ spec.onto so_far (spec.target_cost target.now) }
{
    if !target.whole {
        return add(so_far, 0);
    }
    let so_far = add_element(so_far, &target.element);
    add_select(so_far, &target.select)
}

/// The cost with that of an address that is not constant.
#[cycle(cost)]
fn add_element(so_far: u32, element: &Option<Boxed<Expr>>) -> u32
    ensures { result ≡ spec.onto so_far (spec.index_cost (option_map spec.expr_cost element.now)) }
{
    match element {
        Some(element) => add_expr(add(so_far, 1), element.get()),
        None => add(so_far, 0),
    }
}

/// The cost with that of a select that is not constant.
#[cycle(cost)]
fn add_select(so_far: u32, select: &Option<Select>) -> u32
    ensures { result ≡ spec.onto so_far (spec.index_cost (option_map spec.select_cost select.now)) }
{
    match select {
        Some(select) => add_expr(add(so_far, 1), select.at.get()),
        None => add(so_far, 0),
    }
}
