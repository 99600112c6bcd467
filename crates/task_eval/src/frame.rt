//! A node that runs, event by event.
ghost use Rattle.std.specs.Prelude.{◌≡◌, ℕ, ◌+◌, ◌<◌, ◌≤◌, List, length, drop, take, IfOk};
ghost use Rattle.task_eval.specs.Codes.{deepest};
ghost use Rattle.task_eval.specs.Course.{course, course_of, from, asks, asked};
ghost use Rattle.task_eval.specs.Soundness.{IsSoundFrom, IsSoundMove, IsWithin};
ghost use Rattle.task_eval.specs.Frames.{last, going, given, moved, HasGiven, IsReady, IsNext, IsFewer, IsAskedWithin, IsLeft};
ghost use Rattle.task_eval.specs.Moves.{arguments};

use crate::code::Code;
use crate::op::Op;
use crate::stack::Stack;
use crate::step::{Step, low_bits, perform};
use dpi_host::NoMemory;
use std::alloc::Global;
use std::marker::Model;
use vs_base::Bits;

/// What a node wants next.
#[derive(Clone, Copy, Debug, PartialEq, Eq)]
pub enum Ask {
    /// The value of a word.
    Load(u32),
    /// That a word is given a value.
    Store(u32, u64),
    /// The reply of an import, to the frame's arguments.
    Call(u32),
    /// Nothing more: the node is at its end.
    Done,
}

/// A node that runs. It is made once for all codes that it will run, and takes no memory after that.
#[derive(Drop)]
pub struct Frame {
    stack: Stack,
    left: usize,
    awaits: u32,
    args: [u64; 8],
    count: usize,
}

impl Model for Frame {
    ghost use Rattle.std.specs.Prelude.{◌≤◌, take};
    ghost use Rattle.task_eval.specs.Frames.{Running};

    ghost Value = { Running };

    ghost view = { λ f. record { left = f.left; stack = f.stack.values; room = f.stack.room; awaits = f.awaits; args = take f.count f.args } };

    ghost invariant = { λ f. (f.count ≤ 8) × (1 ≤ f.awaits) × (f.awaits ≤ 64) };
}

// Where a run halts: how many ops are left, and what the last step was; it goes on only at the end.
#[derive(Drop)]
struct Halt {
    left: usize,
    step: Step,
}

impl Frame {
    /// A frame with room for the deepest stack of these codes. `NoMemory`: there was none left.
    pub fn for_code(alloc: Global, codes: &[Code]) -> Result<Frame, NoMemory>
        ensures { IfOk result (λ frame. frame.room ≡ deepest codes.now) }
    {
        let Ok(stack) = Stack::with_room(alloc, deepest_of(codes)) else {
            return Err(NoMemory);
        };
        Ok(Frame {
            stack,
            left: 0,
            awaits: 1,
            args: [0; 8],
            count: 0,
        })
    }

    /// Goes to the beginning of a code.
    pub fn start(&mut self, code: &Code)
        requires { code.now.stack ≤ self.old.room }
        ensures ready { IsReady code.now self.new }
        ensures begins { going code.now self.new ≡ course_of code.now }
        ensures room { self.new.room ≡ self.old.room }
    {
        self.stack.clear();
        self.left = code.ops().len();
    }

    /// Runs to the next load, store or call of the code that it was started with, or to its end.
    pub fn ask(&mut self, code: &Code) -> Ask
        requires { IsReady code.now self.old }
        ensures asked { result ≡ asks (going code.now self.old) }
        ensures same { (values : List ℕ) → HasGiven code.now self.old values → result ≡ asked code.now values }
        ensures next { IsNext code.now (going code.now self.old) result self.new }
        ensures fewer { IsFewer result self.old.left self.new.left }
        ensures within { (words imports : ℕ) → IsWithin words imports code.now.ops → IsAskedWithin words imports result }
        ensures room { self.new.room ≡ self.old.room }
    {
        let rest = last_ops(code.ops(), self.left);
        let halt = advance(&mut self.stack, rest);
        self.left = halt.left;
        match halt.step {
            Step::Goes(_) => Ask::Done,
            Step::Loads(word, width) => {
                self.awaits = width;
                Ask::Load(word)
            }
            Step::Stores(word, value) => Ask::Store(word, value),
            Step::Calls(import, count, width) => {
                take_arguments(&mut self.stack, count as usize, &mut self.args);
                self.count = count as usize;
                self.awaits = width;
                Ask::Call(import)
            }
        }
    }

    /// Hands in the value of the word, or the reply, that was asked for.
    pub fn give(&mut self, value: u64)
        requires { length self.old.stack < self.old.room }
        ensures { self.new ≡ given self.old value }
    {
        self.stack.push(Bits::new(self.awaits, u128::from(value)));
    }

    /// The arguments of the call that was asked for, at most 8.
    pub fn args(&self) -> &[u64]
        ensures value { result.now ≡ self.now.args }
        ensures few { length result.now ≤ 8 }
    {
        &self.args[..self.count]
    }
}

// The greatest number of values on a stack of these codes.
fn deepest_of(codes: &[Code]) -> usize
    ensures { result ≡ deepest codes.now }
{
    let mut most: usize = 0;
    for code in codes {
        most = most.max(code.stack() as usize);
    }
    most
}

// So many of the last ops.
fn last_ops(ops: &[Op], left: usize) -> &[Op]
    requires { left ≤ length ops.now }
    ensures { result.now ≡ last left ops.now }
{
    &ops[ops.len() - left..]
}

// Runs to the next load, store or call, or to the end.
fn advance(stack: &mut Stack, ops: &[Op]) -> Halt
    requires { IsSoundFrom stack.old.room ops.now 0 (length stack.old.values) }
    ensures left { IsLeft result.step result.left (length ops.now) }
    ensures sound { IsSoundMove stack.old.room (last result.left ops.now) (moved result.step stack.new.values) }
    ensures course { from (moved result.step stack.new.values) (course (last result.left ops.now)) ≡ course ops.now 0 stack.old.values }
    ensures room { stack.new.room ≡ stack.old.room }
{
    let mut rest = ops;
    while rest.len() > 0 {
        match perform(stack, rest[0]) {
            Step::Goes(skip) => rest = after_skip(rest, skip),
            event => {
                return Halt {
                    left: rest.len() - 1,
                    step: event,
                };
            }
        }
    }
    Halt {
        left: 0,
        step: Step::Goes(0),
    }
}

// What follows the first op and so many more.
fn after_skip(ops: &[Op], skip: u32) -> &[Op]
    requires { 1 + skip ≤ length ops.now }
    ensures { result.now ≡ drop (1 + skip) ops.now }
{
    &ops[1 + skip as usize..]
}

// Takes so many arguments from the stack, the last one first.
fn take_arguments(stack: &mut Stack, count: usize, args: &mut [u64; 8])
    requires few { count ≤ 8 }
    requires enough { count ≤ length stack.old.values }
    ensures args { take count args.new ≡ arguments (take count stack.old.values) }
    ensures stack { stack.new ≡ record stack.old { values = drop count stack.old.values } }
{
    let mut left = count;
    while left > 0 {
        left -= 1;
        args[left] = low_bits(stack.pop(), 64);
    }
}
