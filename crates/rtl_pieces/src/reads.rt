//! What expressions read.
#![tactic(auto, using(crate::specs::ReadsLaws::laws))]

ghost use Rattle.std.specs.Prelude.{◌≡◌, ◌≤◌, ◌<◌, ◌++◌, ◌∷◌, [], map, OnOk, IfSome, ◌≤ℤ◌, ◌^◌, pos, negsuc, ℤ};
ghost use Rattle.std.specs.Option.{option_map};
ghost use Rattle.rtl_ir.specs.declared.expr.Target.{out-Target};
ghost use Rattle.rtl_pieces.specs.Line.{items_in};
ghost use Rattle.rtl_pieces.specs.Named as named;
ghost use Rattle.rtl_pieces.specs.Reads as spec;

use crate::item::{Item, Part};
use crate::line::BitLine;
use crate::named::{named_bits, whole_item};
use crate::range::BitRange;
use rtl_ir::{Choice, Expr, ExprNode, Select, Target};
use std::alloc::AllocError;
use vs_base::Bits;

/// An index of this size names no bit of any variable or memory, and no more does one that is farther away.
const FAR: i128 = 18_446_744_073_709_551_616;

/// A number, or the farthest one on its side.
fn capped(value: i128) -> i128
    ensures value { result ≡ named.capped value }
    ensures most { result ≤ℤ pos (2 ^ 64) }
    ensures least { negsuc (2 ^ 64) ≤ℤ result }
{
    if value > FAR {
        return FAR;
    }
    if value < -FAR - 1 {
        return -FAR - 1;
    }
    value
}

/// A number that is not negative, or the farthest one.
fn capped_up(value: u128) -> i128
    ensures value { result ≡ named.capped (pos value) }
    ensures most { result ≤ℤ pos (2 ^ 64) }
    ensures least { negsuc (2 ^ 64) ≤ℤ result }
{
    value.min(FAR as u128) as i128
}

/// The number that a constant stands for, read with or without a sign, or the farthest one on its side.
fn constant_of(signed: bool, value: Bits) -> Option<i128>
    ensures value { result ≡ option_map named.capped (spec.constant_of signed value) }
    ensures most { IfSome result (λ at. at ≤ℤ pos (2 ^ 64)) }
    ensures least { IfSome result (λ at. negsuc (2 ^ 64) ≤ℤ at) }
{
    if signed {
        return Some(capped(value.signed_of()));
    }
    Some(capped_up(value.value()))
}

/// The value of an expression where it is a constant, or the farthest one on its side.
fn constant(expr: &Expr, line: &BitLine) -> Option<i128>
    ensures value { result ≡ option_map named.capped (spec.expr_constant (items_in line.now) expr.now) }
    ensures most { IfSome result (λ at. at ≤ℤ pos (2 ^ 64)) }
    ensures least { IfSome result (λ at. negsuc (2 ^ 64) ≤ℤ at) }
{
    match &expr.node {
        ExprNode::Const(value) => constant_of(expr.signed, *value),
        ExprNode::Read(_)
        | ExprNode::Prefix(_, _)
        | ExprNode::Level(_, _)
        | ExprNode::Choose(_, _)
        | ExprNode::Concat(_)
        | ExprNode::Repeat(_, _)
        | ExprNode::Call(_)
        | ExprNode::Sign(_) => None,
    }
}

/// A select with a constant index.
fn part(at: i128, width: u32, down: bool) -> Part
    ensures { result ≡ spec.part at width down }
{
    Part { at, width, down }
}

/// What a select takes where its index is a constant.
fn part_taken(select: &Select, line: &BitLine) -> Option<Part>
    ensures value { result ≡ option_map named.capped_part (spec.select_part (items_in line.now) select.now) }
    ensures most { IfSome result (λ p. p.at ≤ℤ pos (2 ^ 64)) }
    ensures least { IfSome result (λ p. negsuc (2 ^ 64) ≤ℤ p.at) }
{
    match constant(select.at.get(), line) {
        Some(at) => Some(part(at, select.width.bits(), select.down)),
        None => None,
    }
}

/// The lowest address of an item, which has at most 64 bits.
fn lowest(item: Item) -> i128
    ensures value { result ≡ item.low }
    ensures least { negsuc (2 ^ 63) ≤ℤ result }
    ensures most { result ≤ℤ pos (2 ^ 63) }
{
    i128::from(item.low)
}

/// Does nothing: its clause says what the type of a number bounds.
fn short(number: u32)
    ensures { number < 2 ^ 32 }
{}

/// Does nothing: its clauses say what the types of an item's numbers bound.
fn bounded(item: Item)
    ensures elements { item.elements < 2 ^ 32 }
    ensures width { item.width < 2 ^ 32 }
    ensures lsb { item.lsb < 2 ^ 32 }
    ensures least { negsuc (2 ^ 63) ≤ℤ item.low }
    ensures most { item.low ≤ℤ pos (2 ^ 63) }
{
    lowest(item);
    short(item.elements);
    short(item.width);
    short(item.lsb);
}

/// The bits of a name at a constant address.
fn bits_at(item: Item, address: i128, select: &Option<Select>, line: &BitLine) -> BitRange
    requires near { item.first ≤ 2 ^ 124 }
    requires high { address ≤ℤ pos (2 ^ 64) }
    requires low { negsuc (2 ^ 64) ≤ℤ address }
    ensures { (at : ℤ) → address ≡ named.capped at → result ≡ spec.by_select item at (option_map (spec.select_part (items_in line.now)) select.now) }
{
    bounded(item);
    let Some(select) = select else {
        return named_bits(item, address, None);
    };
    match part_taken(select, line) {
        Some(part) => {
            short(part.width);
            named_bits(item, address, Some(part))
        }
        None => whole_item(item),
    }
}

/// The address of a name's element where it is a constant.
fn address_of(item: Item, target: &Target, line: &BitLine) -> Option<i128>
    ensures value { result ≡ option_map named.capped (spec.address_in item (option_map (spec.expr_constant (items_in line.now)) (out-Target target.now).element)) }
    ensures high { IfSome result (λ at. at ≤ℤ pos (2 ^ 64)) }
    ensures low { IfSome result (λ at. negsuc (2 ^ 64) ≤ℤ at) }
{
    match &target.element {
        Some(element) => constant(element.get(), line),
        None => Some(capped(lowest(item))),
    }
}

/// The bits of a name with its selects.
pub fn target_bits(target: &Target, line: &BitLine) -> BitRange
    ensures { result ≡ spec.target_bits (items_in line.now) target.now }
{
    let item = line.item(target.mem, target.item);
    if target.whole {
        return whole_item(item);
    }
    match address_of(item, target, line) {
        Some(address) => bits_at(item, address, &target.select, line),
        None => whole_item(item),
    }
}

/// Adds what an expression reads.
#[cycle(reads)]
pub fn add_expr(expr: &Expr, line: &BitLine, found: &mut Vec<BitRange>) -> Result<(), AllocError>
    ensures { OnOk result (found.new.items ≡ spec.expr_reads (items_in line.now) expr.now found.old.items) }
{
    match &expr.node {
        ExprNode::Const(_) => Ok(()),
        ExprNode::Read(target) => add_target(target, line, found),
        ExprNode::Prefix(_, operand) => add_expr(operand.get(), line, found),
        ExprNode::Level(operands, _) => add_exprs(operands.as_slice(), line, found),
        ExprNode::Choose(choices, last) => {
            add_choices(choices.as_slice(), line, found)?;
            add_expr(last.get(), line, found)
        }
        ExprNode::Concat(parts) => add_exprs(parts.as_slice(), line, found),
        ExprNode::Repeat(_, parts) => add_exprs(parts.as_slice(), line, found),
        ExprNode::Call(call) => add_exprs(call.args.as_slice(), line, found),
        ExprNode::Sign(operand) => add_expr(operand.get(), line, found),
    }
}

/// Adds what expressions read.
#[cycle(reads)]
pub fn add_exprs(
    exprs: &[Expr],
    line: &BitLine,
    found: &mut Vec<BitRange>,
) -> Result<(), AllocError>
    ensures { OnOk result (found.new.items ≡ spec.exprs_read (items_in line.now) exprs.now found.old.items) }
{
    for expr in exprs {
        add_expr(expr, line, found)?;
    }
    Ok(())
}

/// Adds what the tests and values of a chain of `?:` read.
#[cycle(reads)]
fn add_choices(
    choices: &[Choice],
    line: &BitLine,
    found: &mut Vec<BitRange>,
) -> Result<(), AllocError>
    ensures { OnOk result (found.new.items ≡ spec.in_order (map (spec.choice_reads (items_in line.now)) choices.now) found.old.items) }
{
    for choice in choices {
        add_expr(&choice.test, line, found)?;
        add_expr(&choice.value, line, found)?;
    }
    Ok(())
}

/// Adds the bits of a name and what its indices read.
#[cycle(reads)]
fn add_target(target: &Target, line: &BitLine, found: &mut Vec<BitRange>) -> Result<(), AllocError>
    ensures { OnOk result (found.new.items ≡ spec.target_indices (items_in line.now) target.now found.old.items ++ spec.target_bits (items_in line.now) target.now ∷ []) }
{
    add_indices(target, line, found)?;
    found.push(target_bits(target, line))?;
    Ok(())
}

/// Adds what the indices of a name read.
#[cycle(reads)]
pub fn add_indices(
    target: &Target,
    line: &BitLine,
    found: &mut Vec<BitRange>,
) -> Result<(), AllocError>
    ensures { OnOk result (found.new.items ≡ spec.target_indices (items_in line.now) target.now found.old.items) }
{
    if let Some(element) = &target.element {
        add_expr(element.get(), line, found)?;
    }
    match &target.select {
        Some(select) => add_expr(select.at.get(), line, found),
        None => Ok(()),
    }
}
