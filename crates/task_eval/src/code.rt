//! A code, which is sound.
ghost use Rattle.std.specs.Prelude.{◌≡◌, IfOk};
ghost use Rattle.task_eval.specs.Soundness.{IsSound};

use crate::op::Op;
use dpi_host::NoMemory;
use sqlite_items::Items;
use std::alloc::Global;
use std::marker::Model;

/// The ops of a node, and how many values its stack holds at most. It is sound: no op lacks an operand, the stack
/// never holds more, each jump lands within the ops or at their end, and each width is one.
#[derive(Drop)]
pub struct Code {
    ops: Items<Op>,
    stack: u32,
}

impl Model for Code {
    ghost use Rattle.task_eval.specs.Codes.{Ops};

    ghost Value = { Ops };

    ghost use Rattle.task_eval.specs.Soundness.{IsSound};

    ghost view = { λ c. record { ops = c.ops; stack = c.stack } };

    ghost invariant = { λ c. IsSound c.stack c.ops };
}

impl Code {
    /// The code of these ops, which hold at most `stack` values on the stack.
    pub fn new(ops: Items<Op>, stack: u32) -> Code
        requires sound { IsSound stack ops }
        ensures { result ≡ record { ops = ops; stack = stack } }
    {
        Code { ops, stack }
    }

    /// The ops, in order.
    pub fn ops(&self) -> &[Op]
        ensures ops { result.now ≡ self.now.ops }
        ensures sound { IsSound self.now.stack self.now.ops }
    {
        self.ops.as_slice()
    }

    /// How many values the stack holds at most.
    pub fn stack(&self) -> u32
        ensures { result ≡ self.now.stack }
    {
        self.stack
    }

    /// An equal code. `NoMemory`: there was none left.
    pub fn copy(&self, alloc: Global) -> Result<Code, NoMemory>
        ensures { IfOk result (λ code. code ≡ self.now) }
    {
        let Ok(ops) = Items::from_slice(alloc, self.ops.as_slice()) else {
            return Err(NoMemory);
        };
        Ok(Code {
            ops,
            stack: self.stack,
        })
    }
}
