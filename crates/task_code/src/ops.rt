//! The ops that are no jumps, one function each.
ghost use Rattle.std.specs.Prelude.{◌≡◌, ℕ, ◌≤◌, ◌<◌, ◌+◌, ◌*◌, ◌∷◌, OnOk};
ghost use Rattle.task_eval.specs.declared.op.Op.TheVariants as the_op;
ghost use Rattle.task_eval.specs.Soundness.{HasWords};
ghost use Rattle.vs_base.specs.declared.limits.TheConstants.{WIDTH, WORD, CALL_ARGUMENTS};

use crate::fault::CodeFault;
use crate::tail::Tail;
use rtl_ir::Width;
use task_eval::{Elements, Index, One, Op, Two};
use vs_base::{Bits, limits};

impl Tail {
    /// Pushes a constant.
    pub(crate) fn push(&mut self, value: Bits) -> Result<(), CodeFault>
        requires deep { 1 ≤ self.old.depth }
        ensures ops { OnOk result (self.new.ops ≡ the_op.Push value ∷ self.old.ops) }
        ensures depth { OnOk result (self.new.depth + 1 ≡ self.old.depth) }
        ensures held { OnOk result (self.new.held ≡ self.old.held) }
    {
        self.add(Op::Push(value), 0, 1)
    }

    /// Pushes so many low bits of a word.
    pub(crate) fn load(&mut self, word: u32, width: u32) -> Result<(), CodeFault>
        requires deep { 1 ≤ self.old.depth }
        requires below { word < self.old.held.limits.words }
        requires some { 1 ≤ width }
        requires most { width ≤ WORD }
        ensures ops { OnOk result (self.new.ops ≡ the_op.Load word width ∷ self.old.ops) }
        ensures depth { OnOk result (self.new.depth + 1 ≡ self.old.depth) }
        ensures held { OnOk result (self.new.held ≡ self.old.held) }
    {
        self.add(Op::Load { word, width }, 0, 1)
    }

    /// Takes an address, and pushes so many low bits of the word of its element.
    pub(crate) fn load_at(&mut self, from: Elements, width: u32) -> Result<(), CodeFault>
        requires deep { 1 ≤ self.old.depth }
        requires words { HasWords from }
        requires below { (k : ℕ) → k < from.count → from.base + k * from.stride < self.old.held.limits.words }
        requires some { 1 ≤ width }
        requires most { width ≤ WORD }
        ensures depth { OnOk result (self.new.depth ≡ self.old.depth) }
        ensures held { OnOk result (self.new.held ≡ self.old.held) }
    {
        self.add(Op::LoadAt { from, width }, 1, 1)
    }

    /// Takes a value, and stores so many of its low bits in a word.
    pub(crate) fn store(&mut self, word: u32, width: u32) -> Result<(), CodeFault>
        requires from { self.old.held.limits.from ≤ word }
        requires to { word < self.old.held.limits.to }
        requires below { self.old.held.limits.to ≤ self.old.held.limits.words }
        requires some { 1 ≤ width }
        requires most { width ≤ WORD }
        ensures ops { OnOk result (self.new.ops ≡ the_op.Store word width ∷ self.old.ops) }
        ensures depth { OnOk result (self.new.depth ≡ self.old.depth + 1) }
        ensures held { OnOk result (self.new.held ≡ self.old.held) }
    {
        self.add(Op::Store { word, width }, 1, 0)
    }

    /// Takes an address, and the value below it, and stores so many of its low bits in the word of that element.
    pub(crate) fn store_at(&mut self, to: Elements, width: u32) -> Result<(), CodeFault>
        requires words { HasWords to }
        requires from { (k : ℕ) → k < to.count → self.old.held.limits.from ≤ to.base + k * to.stride }
        requires to { (k : ℕ) → k < to.count → to.base + k * to.stride < self.old.held.limits.to }
        requires below { self.old.held.limits.to ≤ self.old.held.limits.words }
        requires some { 1 ≤ width }
        requires most { width ≤ WORD }
        ensures depth { OnOk result (self.new.depth ≡ self.old.depth + 2) }
        ensures held { OnOk result (self.new.held ≡ self.old.held) }
    {
        self.add(Op::StoreAt { to, width }, 2, 0)
    }

    /// Takes a value, and pushes its bits from a place on.
    pub(crate) fn slice(&mut self, at: i64, width: u32) -> Result<(), CodeFault>
        requires deep { 1 ≤ self.old.depth }
        requires some { 1 ≤ width }
        requires most { width ≤ WIDTH }
        ensures depth { OnOk result (self.new.depth ≡ self.old.depth) }
        ensures held { OnOk result (self.new.held ≡ self.old.held) }
    {
        self.add(Op::Slice { at, width }, 1, 1)
    }

    /// Takes an index, and the value below it, and pushes that value's bits from the place of the index on.
    pub(crate) fn slice_at(&mut self, index: Index, width: Width) -> Result<(), CodeFault>
        requires deep { 1 ≤ self.old.depth }
        ensures depth { OnOk result (self.new.depth ≡ self.old.depth + 1) }
        ensures held { OnOk result (self.new.held ≡ self.old.held) }
    {
        let width = width.bits();
        self.add(Op::SliceAt { index, width }, 2, 1)
    }

    /// Takes a part, and the value below it, and pushes that value with the part put at a place.
    pub(crate) fn place(&mut self, at: i64) -> Result<(), CodeFault>
        requires deep { 1 ≤ self.old.depth }
        ensures depth { OnOk result (self.new.depth ≡ self.old.depth + 1) }
        ensures held { OnOk result (self.new.held ≡ self.old.held) }
    {
        self.add(Op::Place { at }, 2, 1)
    }

    /// Takes an index, the part below it and the value below that, and pushes that value with the part put at the place of
    /// the index.
    pub(crate) fn place_at(&mut self, index: Index) -> Result<(), CodeFault>
        requires deep { 1 ≤ self.old.depth }
        ensures depth { OnOk result (self.new.depth ≡ self.old.depth + 2) }
        ensures held { OnOk result (self.new.held ≡ self.old.held) }
    {
        self.add(Op::PlaceAt { index }, 3, 1)
    }

    /// Takes a value of one width, and pushes it at another one. There is no op where they are equal.
    pub(crate) fn extend(&mut self, from: u32, to: u32, signed: bool) -> Result<(), CodeFault>
        requires deep { 1 ≤ self.old.depth }
        requires some { 1 ≤ to }
        requires most { to ≤ WIDTH }
        ensures depth { OnOk result (self.new.depth ≡ self.old.depth) }
        ensures held { OnOk result (self.new.held ≡ self.old.held) }
    {
        if from == to {
            return Ok(());
        }
        self.add(Op::Extend { width: to, signed }, 1, 1)
    }

    /// Takes a value, and pushes it at the greatest width.
    pub(crate) fn widen(&mut self, signed: bool) -> Result<(), CodeFault>
        requires deep { 1 ≤ self.old.depth }
        ensures depth { OnOk result (self.new.depth ≡ self.old.depth) }
        ensures held { OnOk result (self.new.held ≡ self.old.held) }
    {
        let width = limits::WIDTH;
        self.add(Op::Extend { width, signed }, 1, 1)
    }

    /// Takes an operand, and pushes what the operator gives.
    pub(crate) fn one(&mut self, op: One) -> Result<(), CodeFault>
        requires deep { 1 ≤ self.old.depth }
        ensures depth { OnOk result (self.new.depth ≡ self.old.depth) }
        ensures held { OnOk result (self.new.held ≡ self.old.held) }
    {
        self.add(Op::One(op), 1, 1)
    }

    /// Takes the right operand and the left one below it, and pushes what the operator gives.
    pub(crate) fn two(&mut self, op: Two, width: Width, signed: bool) -> Result<(), CodeFault>
        requires deep { 1 ≤ self.old.depth }
        ensures depth { OnOk result (self.new.depth ≡ self.old.depth + 1) }
        ensures held { OnOk result (self.new.held ≡ self.old.held) }
    {
        let width = width.bits();
        self.add(Op::Two { op, width, signed }, 2, 1)
    }

    /// Takes the low bits and the high ones below them, and pushes both as one value, which has to have at most as many bits as a value can have.
    pub(crate) fn join(&mut self, high: u32, low: u32) -> Result<(), CodeFault>
        requires deep { 1 ≤ self.old.depth }
        ensures depth { OnOk result (self.new.depth ≡ self.old.depth + 1) }
        ensures held { OnOk result (self.new.held ≡ self.old.held) }
    {
        if high == 0 || low == 0 || high.saturating_add(low) > limits::WIDTH {
            return Err(CodeFault::DoesNotFit);
        }
        self.add(Op::Join { high, low }, 2, 1)
    }

    /// Takes a value of so many bits, and pushes it so many times, which together has to have as many bits as a value can have.
    pub(crate) fn repeat(&mut self, times: u32, width: u32) -> Result<(), CodeFault>
        requires deep { 1 ≤ self.old.depth }
        ensures depth { OnOk result (self.new.depth ≡ self.old.depth) }
        ensures held { OnOk result (self.new.held ≡ self.old.held) }
    {
        let Some(all) = times.checked_mul(width) else {
            return Err(CodeFault::DoesNotFit);
        };
        if times == 0 || width == 0 || all > limits::WIDTH {
            return Err(CodeFault::DoesNotFit);
        }
        self.add(Op::Repeat { times, width }, 1, 1)
    }

    /// Pushes the value once more that stands on so many others.
    pub(crate) fn pick(&mut self, height: u32) -> Result<(), CodeFault>
        requires there { height + 2 ≤ self.old.depth }
        ensures depth { OnOk result (self.new.depth + 1 ≡ self.old.depth) }
        ensures held { OnOk result (self.new.held ≡ self.old.held) }
    {
        let below = self.depth() - 2 - height;
        self.add(Op::Pick(below), below + 1, below + 2)
    }

    /// Takes a value away.
    pub(crate) fn drop_top(&mut self) -> Result<(), CodeFault>
        ensures depth { OnOk result (self.new.depth ≡ self.old.depth + 1) }
        ensures held { OnOk result (self.new.held ≡ self.old.held) }
    {
        self.add(Op::Drop, 1, 0)
    }

    /// Takes so many arguments, calls an import, and pushes so many bits of the reply.
    pub(crate) fn call(&mut self, import: u32, count: u32, width: Width) -> Result<(), CodeFault>
        requires deep { 1 ≤ self.old.depth }
        requires below { import < self.old.held.limits.imports }
        requires few { count ≤ CALL_ARGUMENTS }
        requires most { width ≤ WORD }
        ensures depth { OnOk result (self.new.depth + 1 ≡ self.old.depth + count) }
        ensures held { OnOk result (self.new.held ≡ self.old.held) }
    {
        let width = width.bits();
        let op = Op::Call {
            import,
            count,
            width,
        };
        self.add(op, count, 1)
    }
}
