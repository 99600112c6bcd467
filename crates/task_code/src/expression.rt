//! Expressions. The code of each pushes one value, and names of a variable that a process reads and writes the value before.
ghost use Rattle.std.specs.Prelude.{◌≡◌, ◌≤◌, ◌+◌, ◌-◌, ◌∷◌, length, slice_index, OnOk};
ghost use Rattle.rtl_ir.specs.declared.expr.Call.{out-Call};

use crate::fault::CodeFault;
use crate::here::{Here, Own};
use crate::kind::{
    Kind, binary, compared_kind, first_kind, formal_width, kind_of, level_width, reductions,
    result_width, total_width, unary,
};
use crate::load::{load_element, load_fixed};
use crate::stand::{Part, Stand, part_of, stand_of, width_of};
use crate::tail::Tail;
use rtl_ir::{BinaryOp, Call, Choice, Class, Expr, ExprNode, Target, UnaryOp};
use task_eval::One;
use vs_base::Bits;
use vs_base::limits::CALL_ARGUMENTS;

/// Pushes the value of an expression.
#[cycle(expression)]
pub(crate) fn expression(expr: &Expr, here: &Here<'_>, out: &mut Tail) -> Result<(), CodeFault>
    requires limits { out.old.held.limits ≡ here.now.limits }
    requires deep { 1 ≤ out.old.depth }
    ensures depth { OnOk result (out.new.depth + 1 ≡ out.old.depth) }
    ensures held { OnOk result (out.new.held ≡ out.old.held) }
{
    let kind = kind_of(expr);
    match &expr.node {
        ExprNode::Const(value) => out.push(*value),
        ExprNode::Read(target) => read(target, &kind, here, out),
        ExprNode::Prefix(operators, operand) => {
            prefix(operators.as_slice(), operand.get().width.bits(), &kind, out)?;
            expression(operand.get(), here, out)
        }
        ExprNode::Level(operands, operators) => {
            level(operands.as_slice(), operators.as_slice(), &kind, here, out)
        }
        ExprNode::Choose(choices, last) => {
            out.open()?;
            extended(last.get(), &kind, here, out)?;
            all_choices(choices.as_slice(), &kind, here, out)?;
            out.close();
            Ok(())
        }
        ExprNode::Concat(parts) => {
            let width = total_width(parts.as_slice());
            out.extend(width, kind.width.bits(), kind.signed)?;
            concat(parts.as_slice(), width, here, out)
        }
        ExprNode::Repeat(times, parts) => {
            let width = total_width(parts.as_slice());
            out.extend(width.saturating_mul(*times), kind.width.bits(), kind.signed)?;
            out.repeat(*times, width)?;
            concat(parts.as_slice(), width, here, out)
        }
        ExprNode::Call(called) => {
            let width = result_width(called, here)?;
            out.extend(width.bits(), kind.width.bits(), kind.signed)?;
            call(called, here, out)
        }
        ExprNode::Sign(operand) => {
            let operand = operand.get();
            out.extend(operand.width.bits(), kind.width.bits(), kind.signed)?;
            expression(operand, here, out)
        }
    }
}

/// Pushes the value of an expression, extended to a context from its own width.
#[cycle(expression)]
fn extended(expr: &Expr, kind: &Kind, here: &Here<'_>, out: &mut Tail) -> Result<(), CodeFault>
    requires limits { out.old.held.limits ≡ here.now.limits }
    requires deep { 1 ≤ out.old.depth }
    ensures depth { OnOk result (out.new.depth + 1 ≡ out.old.depth) }
    ensures held { OnOk result (out.new.held ≡ out.old.held) }
{
    out.extend(expr.width.bits(), kind.width.bits(), kind.signed)?;
    expression(expr, here, out)
}

/// Takes an operand, and pushes what operators before it give. Those up to the outermost reduction work at the operand's
/// width, and what a reduction gives is extended to the context.
fn prefix(operators: &[UnaryOp], width: u32, kind: &Kind, out: &mut Tail) -> Result<(), CodeFault>
    requires deep { 1 ≤ out.old.depth }
    ensures depth { OnOk result (out.new.depth ≡ out.old.depth) }
    ensures held { OnOk result (out.new.held ≡ out.old.held) }
{
    let outermost = reductions(operators);
    for (number, operator) in operators.iter().enumerate() {
        if number == outermost {
            out.extend(1, kind.width.bits(), kind.signed)?;
        }
        prefix_one(*operator, out)?;
    }
    if outermost == operators.len() {
        out.extend(width, kind.width.bits(), kind.signed)?;
    }
    Ok(())
}

/// Takes an operand, and pushes what an operator before it gives.
fn prefix_one(operator: UnaryOp, out: &mut Tail) -> Result<(), CodeFault>
    requires deep { 1 ≤ out.old.depth }
    ensures depth { OnOk result (out.new.depth ≡ out.old.depth) }
    ensures held { OnOk result (out.new.held ≡ out.old.held) }
{
    match unary(operator) {
        Some(operator) => out.one(operator),
        None => Ok(()),
    }
}

/// Pushes what operators of one level give, from left to right.
#[cycle(expression)]
fn level(
    operands: &[Expr],
    operators: &[BinaryOp],
    kind: &Kind,
    here: &Here<'_>,
    out: &mut Tail,
) -> Result<(), CodeFault>
    requires limits { out.old.held.limits ≡ here.now.limits }
    requires deep { 1 ≤ out.old.depth }
    ensures depth { OnOk result (out.new.depth + 1 ≡ out.old.depth) }
    ensures held { OnOk result (out.new.held ≡ out.old.held) }
{
    let [first, more @ ..] = operands else {
        return Err(CodeFault::DoesNotFit);
    };
    if more.len() != operators.len() {
        return Err(CodeFault::DoesNotFit);
    }
    let at = first_kind(operands, operators, kind);
    out.extend(level_width(operators, kind), kind.width.bits(), kind.signed)?;
    for number in (0..operators.len()).rev() {
        let compared = compared_kind(number, &at, &more[number]);
        step(operators[number], &more[number], kind, &compared, here, out)?;
    }
    extended(first, &at, here, out)
}

/// Takes the left operand of an operator, and pushes what the operator gives.
#[cycle(expression)]
fn step(
    operator: BinaryOp,
    right: &Expr,
    kind: &Kind,
    compared: &Kind,
    here: &Here<'_>,
    out: &mut Tail,
) -> Result<(), CodeFault>
    requires limits { out.old.held.limits ≡ here.now.limits }
    requires deep { 1 ≤ out.old.depth }
    ensures depth { OnOk result (out.new.depth ≡ out.old.depth) }
    ensures held { OnOk result (out.new.held ≡ out.old.held) }
{
    let Some(op) = binary(operator) else {
        if operator == BinaryOp::LogOr {
            return or_else(right, here, out);
        }
        return and_then(right, here, out);
    };
    match operator.class() {
        Class::Comparison => {
            out.two(op, compared.width, compared.signed)?;
            extended(right, compared, here, out)
        }
        Class::Shift => {
            let signed = kind.signed && operator == BinaryOp::AShr;
            out.two(op, kind.width, signed)?;
            expression(right, here, out)
        }
        Class::Arithmetic | Class::Logical => {
            out.two(op, kind.width, kind.signed)?;
            extended(right, kind, here, out)
        }
    }
}

/// Takes the left operand of `&&`, and pushes the bit that it gives. The right operand is evaluated where the left one holds.
#[cycle(expression)]
fn and_then(right: &Expr, here: &Here<'_>, out: &mut Tail) -> Result<(), CodeFault>
    requires limits { out.old.held.limits ≡ here.now.limits }
    requires deep { 1 ≤ out.old.depth }
    ensures depth { OnOk result (out.new.depth ≡ out.old.depth) }
    ensures held { OnOk result (out.new.held ≡ out.old.held) }
{
    decided(false, out)?;
    expression(right, here, out)?;
    out.skip_if_zero(0)?;
    out.close();
    out.close();
    Ok(())
}

/// Takes the left operand of `||`, and pushes the bit that it gives. The right operand is evaluated where the left one does not
/// hold.
#[cycle(expression)]
fn or_else(right: &Expr, here: &Here<'_>, out: &mut Tail) -> Result<(), CodeFault>
    requires limits { out.old.held.limits ≡ here.now.limits }
    requires deep { 1 ≤ out.old.depth }
    ensures depth { OnOk result (out.new.depth ≡ out.old.depth) }
    ensures held { OnOk result (out.new.held ≡ out.old.held) }
{
    decided(true, out)?;
    expression(right, here, out)?;
    out.skip_if_true(0)?;
    out.close();
    out.close();
    Ok(())
}

/// Takes the right operand, and pushes whether it holds. Behind it the bit is pushed that the left operand decides, where a
/// mark is opened; a mark at the end of both is opened before.
fn decided(is_or: bool, out: &mut Tail) -> Result<(), CodeFault>
    requires deep { 1 ≤ out.old.depth }
    ensures depth { OnOk result (out.new.depth ≡ out.old.depth) }
    ensures held { OnOk result (out.new.held ≡ record out.old.held { marks = (out.old.depth - 1) ∷ (out.old.depth ∷ out.old.held.marks) }) }
{
    out.open()?;
    out.push(Bits::new(1, u128::from(is_or)))?;
    out.open()?;
    out.skip_to(1)?;
    out.one(One::Or)
}

/// Pushes the value of the first choice whose test holds, and goes on at the mark; where none holds, what follows pushes one. No
/// other value is evaluated.
#[cycle(expression)]
fn all_choices(
    choices: &[Choice],
    kind: &Kind,
    here: &Here<'_>,
    out: &mut Tail,
) -> Result<(), CodeFault>
    requires limits { out.old.held.limits ≡ here.now.limits }
    requires some { 1 ≤ length out.old.held.marks }
    requires mark { slice_index out.old.held.marks 0 ≡ out.old.depth + 1 }
    ensures depth { OnOk result (out.new.depth ≡ out.old.depth) }
    ensures held { OnOk result (out.new.held ≡ out.old.held) }
{
    for number in (0..choices.len()).rev() {
        choice(&choices[number], kind, here, out)?;
    }
    Ok(())
}

/// Pushes the value of a choice and goes on at the mark where its test holds.
#[cycle(expression)]
fn choice(choice: &Choice, kind: &Kind, here: &Here<'_>, out: &mut Tail) -> Result<(), CodeFault>
    requires limits { out.old.held.limits ≡ here.now.limits }
    requires some { 1 ≤ length out.old.held.marks }
    requires mark { slice_index out.old.held.marks 0 ≡ out.old.depth + 1 }
    ensures depth { OnOk result (out.new.depth ≡ out.old.depth) }
    ensures held { OnOk result (out.new.held ≡ out.old.held) }
{
    out.open()?;
    out.skip_to(1)?;
    extended(&choice.value, kind, here, out)?;
    out.skip_if_zero(0)?;
    expression(&choice.test, here, out)?;
    out.close();
    Ok(())
}

/// Pushes parts of so many bits together as one value, the first one with the highest bits.
#[cycle(expression)]
fn concat(parts: &[Expr], width: u32, here: &Here<'_>, out: &mut Tail) -> Result<(), CodeFault>
    requires limits { out.old.held.limits ≡ here.now.limits }
    requires deep { 1 ≤ out.old.depth }
    ensures depth { OnOk result (out.new.depth + 1 ≡ out.old.depth) }
    ensures held { OnOk result (out.new.held ≡ out.old.held) }
{
    let [first, more @ ..] = parts else {
        return Err(CodeFault::DoesNotFit);
    };
    let mut high = width;
    for number in (0..more.len()).rev() {
        let low = more[number].width.bits();
        high = high.saturating_sub(low);
        out.join(high, low)?;
        expression(&more[number], here, out)?;
    }
    expression(first, here, out)
}

/// Calls an import, and pushes its reply.
#[cycle(expression)]
pub(crate) fn call(call: &Call, here: &Here<'_>, out: &mut Tail) -> Result<(), CodeFault>
    requires limits { out.old.held.limits ≡ here.now.limits }
    requires deep { 1 ≤ out.old.depth }
    ensures depth { OnOk result (out.new.depth + 1 ≡ out.old.depth) }
    ensures held { OnOk result (out.new.held ≡ out.old.held) }
{
    let args = call.args.as_slice();
    put_call(call, here, out)?;
    for number in (0..args.len()).rev() {
        argument(&args[number], call.import, number, here, out)?;
    }
    Ok(())
}

/// Takes the arguments of a call, and pushes its reply.
fn put_call(call: &Call, here: &Here<'_>, out: &mut Tail) -> Result<(), CodeFault>
    requires limits { out.old.held.limits ≡ here.now.limits }
    requires deep { 1 ≤ out.old.depth }
    ensures depth { OnOk result (out.new.depth + 1 ≡ out.old.depth + length (out-Call call.now).args) }
    ensures held { OnOk result (out.new.held ≡ out.old.held) }
{
    let width = result_width(call, here)?;
    let count = call.args.len();
    if call.import >= here.limits.imports || count > CALL_ARGUMENTS {
        return Err(CodeFault::DoesNotFit);
    }
    out.call(call.import, count as u32, width)
}

/// Pushes an argument, assigned to its formal.
#[cycle(expression)]
fn argument(
    arg: &Expr,
    import: u32,
    number: usize,
    here: &Here<'_>,
    out: &mut Tail,
) -> Result<(), CodeFault>
    requires limits { out.old.held.limits ≡ here.now.limits }
    requires deep { 1 ≤ out.old.depth }
    ensures depth { OnOk result (out.new.depth + 1 ≡ out.old.depth) }
    ensures held { OnOk result (out.new.held ≡ out.old.held) }
{
    let width = formal_width(import, number, here)?;
    let kind = Kind {
        width,
        signed: arg.signed,
    };
    extended(arg, &kind, here, out)
}

/// Pushes what a target names, extended to a context.
#[cycle(expression)]
fn read(target: &Target, kind: &Kind, here: &Here<'_>, out: &mut Tail) -> Result<(), CodeFault>
    requires limits { out.old.held.limits ≡ here.now.limits }
    requires deep { 1 ≤ out.old.depth }
    ensures depth { OnOk result (out.new.depth + 1 ≡ out.old.depth) }
    ensures held { OnOk result (out.new.held ≡ out.old.held) }
{
    let own = here.own(target)?;
    let part = part_of(target, &own);
    out.extend(
        width_of(target, &own).bits(),
        kind.width.bits(),
        kind.signed,
    )?;
    if let Part::Index(index, width) = part {
        out.slice_at(index, width)?;
        push_index(target, here, out)?;
    }
    read_from(target, &own, &part, here, out)
}

/// Pushes the part of a variable or an element that is named; of one by an index all of it.
#[cycle(expression)]
fn read_from(
    target: &Target,
    own: &Own,
    part: &Part,
    here: &Here<'_>,
    out: &mut Tail,
) -> Result<(), CodeFault>
    requires limits { out.old.held.limits ≡ here.now.limits }
    requires deep { 1 ≤ out.old.depth }
    ensures depth { OnOk result (out.new.depth + 1 ≡ out.old.depth) }
    ensures held { OnOk result (out.new.held ≡ out.old.held) }
{
    let stand = stand_of(target, own, here)?;
    if let Stand::Element(rows, address) = stand {
        load_element(rows, address, own, part, here, out)?;
        return push_address(target, here, out);
    }
    load_fixed(stand, own, part, here, out)
}

/// Pushes the index of a select.
#[cycle(expression)]
fn push_index(target: &Target, here: &Here<'_>, out: &mut Tail) -> Result<(), CodeFault>
    requires limits { out.old.held.limits ≡ here.now.limits }
    requires deep { 1 ≤ out.old.depth }
    ensures depth { OnOk result (out.new.depth + 1 ≡ out.old.depth) }
    ensures held { OnOk result (out.new.held ≡ out.old.held) }
{
    match &target.select {
        Some(select) => expression(select.at.get(), here, out),
        None => Err(CodeFault::DoesNotFit),
    }
}

/// Pushes the address of an element.
#[cycle(expression)]
fn push_address(target: &Target, here: &Here<'_>, out: &mut Tail) -> Result<(), CodeFault>
    requires limits { out.old.held.limits ≡ here.now.limits }
    requires deep { 1 ≤ out.old.depth }
    ensures depth { OnOk result (out.new.depth + 1 ≡ out.old.depth) }
    ensures held { OnOk result (out.new.held ≡ out.old.held) }
{
    match &target.element {
        Some(element) => expression(element.get(), here, out),
        None => Err(CodeFault::DoesNotFit),
    }
}
