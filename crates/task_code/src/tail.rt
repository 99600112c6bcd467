//! The end of a code, which grows at its front.
ghost use Rattle.std.specs.Prelude.{◌≡◌, ◌≤◌, ◌<◌, ◌+◌, ◌-◌, [], ◌∷◌, drop, length, slice_index, true, IfOk, OnOk, max};
ghost use Rattle.task_eval.specs.Soundness as sound;
ghost use Rattle.task_code.specs.Tails.{is_plain, StoresIn, AllStoreIn};

use crate::fault::CodeFault;
use sqlite_items::Items;
use std::alloc::Global;
use std::marker::Model;
use task_eval::{Code, Op};

/// What the ops of a code may name.
#[derive(Clone, Copy, Debug, PartialEq, Eq)]
pub(crate) struct Limits {
    /// All words are below this number.
    pub words: u32,
    /// All imports are below this number.
    pub imports: u32,
    /// Words that are stored have at least this number,
    pub from: u32,
    /// and are below this one.
    pub to: u32,
}

/// A place in a code at which a jump may land: how many ops follow it, and how many values are on the stack there.
#[derive(Clone, Copy, Debug, PartialEq, Eq)]
pub(crate) struct Mark {
    pub left: usize,
    pub depth: u32,
}

/// The ops at the end of a code, which grows at its front, so that the distance of each jump is known when it is put there. Run
/// with so many values on the stack it is sound, and so it is from each mark. The last mark that was opened counts as the first.
#[derive(Drop)]
pub(crate) struct Tail {
    // The last op first.
    ops: Vec<Op>,
    depth: u32,
    room: u32,
    marks: Vec<Mark>,
    limits: Limits,
}

impl Model for Tail {
    ghost use Rattle.std.specs.Prelude.{reverse, map};
    ghost use Rattle.task_code.specs.Tails.{TailOps, IsTail, depth_at};

    ghost Value = { TailOps };

    ghost view = { λ t. record { ops = reverse t.ops.items; depth = t.depth; room = t.room; held = record { marks = map depth_at (reverse t.marks.items); limits = t.limits } } };

    ghost invariant = { λ t. IsTail t.room t.depth (reverse t.ops.items) (reverse t.marks.items) t.limits };
}

impl Tail {
    /// The end of a code that names only what it may.
    pub(crate) fn new(alloc: Global, limits: Limits) -> Tail
        ensures { result ≡ record { ops = []; depth = 0; room = 0; held = record { marks = []; limits = limits } } }
    {
        Tail {
            ops: Vec::new(alloc),
            depth: 0,
            room: 0,
            marks: Vec::new(alloc),
            limits,
        }
    }

    /// How many values are on the stack at its front.
    pub(crate) fn depth(&self) -> u32
        ensures { result ≡ self.now.depth }
    {
        self.depth
    }

    /// Puts an op that is no jump to the front. It takes so many values from the stack, and puts so many back.
    pub(crate) fn add(&mut self, op: Op, takes: u32, puts: u32) -> Result<(), CodeFault>
        requires plain { is_plain op ≡ true }
        requires takes { sound.takes op ≡ takes }
        requires puts { sound.puts op ≡ puts }
        requires shaped { sound.IsShaped op }
        requires within { sound.OpWithin self.old.held.limits.words self.old.held.limits.imports op }
        requires stores { StoresIn self.old.held.limits op }
        requires deep { puts ≤ self.old.depth }
        ensures ops { OnOk result (self.new.ops ≡ op ∷ self.old.ops) }
        ensures depth { OnOk result (self.new.depth + puts ≡ self.old.depth + takes) }
        ensures held { OnOk result (self.new.held ≡ self.old.held) }
    {
        let Some(depth) = (self.depth - puts).checked_add(takes) else {
            return Err(CodeFault::DoesNotFit);
        };
        self.ops.push(op)?;
        self.depth = depth;
        self.room = self.room.max(depth);
        Ok(())
    }

    /// Opens a mark at the front.
    pub(crate) fn open(&mut self) -> Result<(), CodeFault>
        ensures ops { OnOk result (self.new.ops ≡ self.old.ops) }
        ensures depth { OnOk result (self.new.depth ≡ self.old.depth) }
        ensures held { OnOk result (self.new.held ≡ record self.old.held { marks = self.old.depth ∷ self.old.held.marks }) }
        ensures limits { OnOk result (self.new.held.limits ≡ self.old.held.limits) }
    {
        self.marks.push(Mark {
            left: self.ops.len(),
            depth: self.depth,
        })?;
        Ok(())
    }

    /// Closes the first mark.
    pub(crate) fn close(&mut self)
        ensures ops { self.new.ops ≡ self.old.ops }
        ensures depth { self.new.depth ≡ self.old.depth }
        ensures held { self.new.held ≡ record self.old.held { marks = drop 1 self.old.held.marks } }
    {
        self.marks.pop();
    }

    /// Goes on at the mark of this number, where 0 is the last one that was opened.
    pub(crate) fn skip_to(&mut self, number: usize) -> Result<(), CodeFault>
        requires there { number < length self.old.held.marks }
        ensures depth { OnOk result (self.new.depth ≡ slice_index self.old.held.marks number) }
        ensures held { OnOk result (self.new.held ≡ self.old.held) }
    {
        let mark = self.marks[self.marks.len() - 1 - number];
        let distance = distance(self.ops.len(), mark)?;
        self.ops.push(Op::Skip(distance))?;
        self.depth = mark.depth;
        Ok(())
    }

    /// Takes a value, and goes on at the mark of this number where it is 0.
    pub(crate) fn skip_if_zero(&mut self, number: usize) -> Result<(), CodeFault>
        requires there { number < length self.old.held.marks }
        requires same { slice_index self.old.held.marks number ≡ self.old.depth }
        ensures depth { OnOk result (self.new.depth ≡ self.old.depth + 1) }
        ensures held { OnOk result (self.new.held ≡ self.old.held) }
    {
        let mark = self.marks[self.marks.len() - 1 - number];
        let distance = distance(self.ops.len(), mark)?;
        let depth = one_more(self.depth)?;
        self.ops.push(Op::SkipIfZero(distance))?;
        self.depth = depth;
        self.room = self.room.max(depth);
        Ok(())
    }

    /// Takes a value, and goes on at the mark of this number where it is not 0.
    pub(crate) fn skip_if_true(&mut self, number: usize) -> Result<(), CodeFault>
        requires there { number < length self.old.held.marks }
        requires same { slice_index self.old.held.marks number ≡ self.old.depth }
        ensures depth { OnOk result (self.new.depth ≡ self.old.depth + 1) }
        ensures held { OnOk result (self.new.held ≡ self.old.held) }
    {
        let mark = self.marks[self.marks.len() - 1 - number];
        let distance = distance(self.ops.len(), mark)?;
        let depth = one_more(self.depth)?;
        self.ops.push(Op::SkipIfTrue(distance))?;
        self.depth = depth;
        self.room = self.room.max(depth);
        Ok(())
    }

    /// The code, where the stack is empty at its front.
    pub(crate) fn into_code(self) -> Code
        requires empty { self.depth ≡ 0 }
        ensures ops { result.ops ≡ self.ops }
        ensures stack { result.stack ≡ self.room }
        ensures within { sound.IsWithin self.held.limits.words self.held.limits.imports result.ops }
        ensures stores { AllStoreIn self.held.limits result.ops }
    {
        let Tail { mut ops, room, .. } = self;
        ops.reverse();
        Code::new(Items::from_vec(ops), room)
    }
}

/// How many ops stand before a mark, where there are so many in all.
fn distance(ops: usize, mark: Mark) -> Result<u32, CodeFault>
    requires { mark.left ≤ ops }
    ensures { IfOk result (λ distance. distance ≡ ops - mark.left) }
{
    match u32::try_from(ops - mark.left) {
        Ok(distance) => Ok(distance),
        Err(_) => Err(CodeFault::DoesNotFit),
    }
}

/// One value more.
fn one_more(depth: u32) -> Result<u32, CodeFault>
    ensures { IfOk result (λ more. more ≡ depth + 1) }
{
    match depth.checked_add(1) {
        Some(more) => Ok(more),
        None => Err(CodeFault::DoesNotFit),
    }
}
