//! What one op does on the stack.
ghost use Rattle.std.specs.Prelude.{◌≡◌, ◌≤◌, ◌%◌, ◌^◌, if◌then◌else◌, length};
ghost use Rattle.vs_base.specs.Operators.{holds_true};
ghost use Rattle.task_eval.specs.Moves.{move};
ghost use Rattle.task_eval.specs.Soundness.{IsFit};
ghost use Rattle.task_eval.specs.Frames.{moved};
ghost use Rattle.task_eval.specs.declared.op.Op.TheVariants as the_op;

use crate::index::{Elements, Index};
use crate::op::{One, Op, Two};
use crate::operate::{operate, operate_alone};
use crate::stack::Stack;
use vs_base::Bits;

// How a code goes on after an op.
#[derive(Drop)]
pub(crate) enum Step {
    // It skips so many ops.
    Goes(u32),
    // It waits for so many bits of a word.
    Loads(u32, u32),
    // It stores a value in a word.
    Stores(u32, u64),
    // It calls an import with so many arguments, which stand on the stack, and waits for so many bits of the reply.
    Calls(u32, u32, u32),
}

// Does an op.
pub(crate) fn perform(stack: &mut Stack, op: Op) -> Step
    requires { IsFit stack.old.room op (length stack.old.values) }
    ensures step { moved result stack.new.values ≡ move op stack.old.values }
    ensures room { stack.new.room ≡ stack.old.room }
{
    match op {
        Op::Push(value) => push(stack, value),
        Op::Load { word, width } => Step::Loads(word, width),
        Op::LoadAt { from, width } => load_at(stack, from, width),
        Op::Store { word, width } => store(stack, word, width),
        Op::StoreAt { to, width } => store_at(stack, to, width),
        Op::Slice { at, width } => slice(stack, at, width),
        Op::SliceAt { index, width } => slice_at(stack, index, width),
        Op::Place { at } => place(stack, at),
        Op::PlaceAt { index } => place_at(stack, index),
        Op::Extend { width, signed } => extend(stack, width, signed),
        Op::One(op) => one(stack, op),
        Op::Two { op, width, signed } => two(stack, op, width, signed),
        Op::Join { high, low } => join(stack, high, low),
        Op::Repeat { times, width } => repeat(stack, times, width),
        Op::Pick(below) => pick(stack, below),
        Op::Drop => drop_top(stack),
        Op::Skip(skip) => Step::Goes(skip),
        Op::SkipIfZero(skip) => skip_if_zero(stack, skip),
        Op::SkipIfTrue(skip) => skip_if_true(stack, skip),
        Op::Call {
            import,
            count,
            width,
        } => Step::Calls(import, count, width),
    }
}

fn push(stack: &mut Stack, value: Bits) -> Step
    requires { IsFit stack.old.room (the_op.Push value) (length stack.old.values) }
    ensures step { moved result stack.new.values ≡ move (the_op.Push value) stack.old.values }
    ensures room { stack.new.room ≡ stack.old.room }
{
    stack.push(value);
    Step::Goes(0)
}

fn load_at(stack: &mut Stack, from: Elements, width: u32) -> Step
    requires { IsFit stack.old.room (the_op.LoadAt from width) (length stack.old.values) }
    ensures step { moved result stack.new.values ≡ move (the_op.LoadAt from width) stack.old.values }
    ensures room { stack.new.room ≡ stack.old.room }
{
    let address = stack.pop();
    let Some(word) = from.word(address) else {
        stack.push(Bits::new(width, 0));
        return Step::Goes(0);
    };
    Step::Loads(word, width)
}

fn store(stack: &mut Stack, word: u32, width: u32) -> Step
    requires { IsFit stack.old.room (the_op.Store word width) (length stack.old.values) }
    ensures step { moved result stack.new.values ≡ move (the_op.Store word width) stack.old.values }
    ensures room { stack.new.room ≡ stack.old.room }
{
    let value = stack.pop();
    Step::Stores(word, low_bits(value, width))
}

fn store_at(stack: &mut Stack, to: Elements, width: u32) -> Step
    requires { IsFit stack.old.room (the_op.StoreAt to width) (length stack.old.values) }
    ensures step { moved result stack.new.values ≡ move (the_op.StoreAt to width) stack.old.values }
    ensures room { stack.new.room ≡ stack.old.room }
{
    let address = stack.pop();
    let value = stack.pop();
    let Some(word) = to.word(address) else {
        return Step::Goes(0);
    };
    Step::Stores(word, low_bits(value, width))
}

fn slice(stack: &mut Stack, at: i64, width: u32) -> Step
    requires { IsFit stack.old.room (the_op.Slice at width) (length stack.old.values) }
    ensures step { moved result stack.new.values ≡ move (the_op.Slice at width) stack.old.values }
    ensures room { stack.new.room ≡ stack.old.room }
{
    let value = stack.pop();
    stack.push(value.slice(at, width));
    Step::Goes(0)
}

fn slice_at(stack: &mut Stack, index: Index, width: u32) -> Step
    requires { IsFit stack.old.room (the_op.SliceAt index width) (length stack.old.values) }
    ensures step { moved result stack.new.values ≡ move (the_op.SliceAt index width) stack.old.values }
    ensures room { stack.new.room ≡ stack.old.room }
{
    let number = stack.pop();
    let value = stack.pop();
    stack.push(value.slice(index.place(number), width));
    Step::Goes(0)
}

fn place(stack: &mut Stack, at: i64) -> Step
    requires { IsFit stack.old.room (the_op.Place at) (length stack.old.values) }
    ensures step { moved result stack.new.values ≡ move (the_op.Place at) stack.old.values }
    ensures room { stack.new.room ≡ stack.old.room }
{
    let part = stack.pop();
    let value = stack.pop();
    stack.push(value.place(at, part));
    Step::Goes(0)
}

fn place_at(stack: &mut Stack, index: Index) -> Step
    requires { IsFit stack.old.room (the_op.PlaceAt index) (length stack.old.values) }
    ensures step { moved result stack.new.values ≡ move (the_op.PlaceAt index) stack.old.values }
    ensures room { stack.new.room ≡ stack.old.room }
{
    let number = stack.pop();
    let part = stack.pop();
    let value = stack.pop();
    stack.push(value.place(index.place(number), part));
    Step::Goes(0)
}

fn extend(stack: &mut Stack, width: u32, signed: bool) -> Step
    requires { IsFit stack.old.room (the_op.Extend width signed) (length stack.old.values) }
    ensures step { moved result stack.new.values ≡ move (the_op.Extend width signed) stack.old.values }
    ensures room { stack.new.room ≡ stack.old.room }
{
    let value = stack.pop();
    stack.push(value.extend(width, signed));
    Step::Goes(0)
}

fn one(stack: &mut Stack, op: One) -> Step
    requires { IsFit stack.old.room (the_op.One op) (length stack.old.values) }
    ensures step { moved result stack.new.values ≡ move (the_op.One op) stack.old.values }
    ensures room { stack.new.room ≡ stack.old.room }
{
    let operand = stack.pop();
    stack.push(operate_alone(op, operand));
    Step::Goes(0)
}

fn two(stack: &mut Stack, op: Two, width: u32, signed: bool) -> Step
    requires { IsFit stack.old.room (the_op.Two op width signed) (length stack.old.values) }
    ensures step { moved result stack.new.values ≡ move (the_op.Two op width signed) stack.old.values }
    ensures room { stack.new.room ≡ stack.old.room }
{
    let right = stack.pop();
    let left = stack.pop();
    stack.push(operate(op, width, signed, left, right));
    Step::Goes(0)
}

fn join(stack: &mut Stack, high: u32, low: u32) -> Step
    requires { IsFit stack.old.room (the_op.Join high low) (length stack.old.values) }
    ensures step { moved result stack.new.values ≡ move (the_op.Join high low) stack.old.values }
    ensures room { stack.new.room ≡ stack.old.room }
{
    let below = Bits::new(low, stack.pop().value());
    let above = Bits::new(high, stack.pop().value());
    stack.push(above.join(below));
    Step::Goes(0)
}

fn repeat(stack: &mut Stack, times: u32, width: u32) -> Step
    requires { IsFit stack.old.room (the_op.Repeat times width) (length stack.old.values) }
    ensures step { moved result stack.new.values ≡ move (the_op.Repeat times width) stack.old.values }
    ensures room { stack.new.room ≡ stack.old.room }
{
    let value = Bits::new(width, stack.pop().value());
    stack.push(value.repeat(times));
    Step::Goes(0)
}

fn pick(stack: &mut Stack, below: u32) -> Step
    requires { IsFit stack.old.room (the_op.Pick below) (length stack.old.values) }
    ensures step { moved result stack.new.values ≡ move (the_op.Pick below) stack.old.values }
    ensures room { stack.new.room ≡ stack.old.room }
{
    let value = stack.pick(below as usize);
    stack.push(value);
    Step::Goes(0)
}

fn drop_top(stack: &mut Stack) -> Step
    requires { IsFit stack.old.room the_op.Drop (length stack.old.values) }
    ensures step { moved result stack.new.values ≡ move the_op.Drop stack.old.values }
    ensures room { stack.new.room ≡ stack.old.room }
{
    let _gone = stack.pop();
    Step::Goes(0)
}

fn skip_if_zero(stack: &mut Stack, skip: u32) -> Step
    requires { IsFit stack.old.room (the_op.SkipIfZero skip) (length stack.old.values) }
    ensures step { moved result stack.new.values ≡ move (the_op.SkipIfZero skip) stack.old.values }
    ensures room { stack.new.room ≡ stack.old.room }
{
    let test = stack.pop();
    Step::Goes(skip_by(test, skip, 0))
}

fn skip_if_true(stack: &mut Stack, skip: u32) -> Step
    requires { IsFit stack.old.room (the_op.SkipIfTrue skip) (length stack.old.values) }
    ensures step { moved result stack.new.values ≡ move (the_op.SkipIfTrue skip) stack.old.values }
    ensures room { stack.new.room ≡ stack.old.room }
{
    let test = stack.pop();
    Step::Goes(skip_by(test, 0, skip))
}

// How many ops to skip at a value of 0, and at any other.
fn skip_by(test: Bits, at_zero: u32, otherwise: u32) -> u32
    ensures { result ≡ (if holds_true test then otherwise else at_zero) }
{
    if test.is_true() {
        return otherwise;
    }
    at_zero
}

// So many low bits of a value, as a word.
pub(crate) fn low_bits(value: Bits, width: u32) -> u64
    requires some { 1 ≤ width }
    requires most { width ≤ 64 }
    ensures { result ≡ value.value % 2 ^ width }
{
    Bits::new(width, value.value()).value() as u64
}
