//! The stack of a node that runs.
ghost use Rattle.std.specs.Prelude.{◌≡◌, ◌<◌, ◌≤◌, [], ◌∷◌, length, drop, take, reverse, slice_index_or, vec_capacity, IfOk};
ghost use Rattle.task_eval.specs.Moves.{arguments, no_number};

use dpi_host::NoMemory;
use std::alloc::Global;
use std::marker::Model;
use vs_base::Bits;

// A stack with room for so many values. Contracts see the values, the last one pushed first.
#[derive(Drop)]
pub(crate) struct Stack {
    values: Vec<Bits>,
    room: usize,
}

impl Model for Stack {
    ghost use Rattle.std.specs.Prelude.{◌≤◌, reverse, vec_capacity};
    ghost use Rattle.task_eval.specs.Codes.{Held};

    ghost Value = { Held };

    ghost view = { λ s. record { values = reverse s.values.items; room = s.room } };

    ghost invariant = { λ s. s.room ≤ vec_capacity s.values };
}

impl Stack {
    // A stack with nothing on it.
    pub(crate) fn with_room(alloc: Global, room: usize) -> Result<Stack, NoMemory>
        ensures { IfOk result (λ stack. stack ≡ record { values = []; room = room }) }
    {
        let Ok(values) = Vec::with_capacity(alloc, room) else {
            return Err(NoMemory);
        };
        Ok(Stack { values, room })
    }

    pub(crate) fn clear(&mut self)
        ensures { self.new ≡ record self.old { values = [] } }
    {
        self.values.clear();
    }

    pub(crate) fn push(&mut self, value: Bits)
        requires { length self.old.values < self.old.room }
        ensures { self.new ≡ record self.old { values = value ∷ self.old.values } }
    {
        self.values.push_reserved(value);
    }

    pub(crate) fn pop(&mut self) -> Bits
        requires some { 0 < length self.old.values }
        ensures value { self.old.values ≡ result ∷ self.new.values }
        ensures room { self.new.room ≡ self.old.room }
    {
        self.values.take_last()
    }

    // The value so many places below the top.
    pub(crate) fn pick(&self, below: usize) -> Bits
        requires { below < length self.now.values }
        ensures { result ≡ slice_index_or self.now.values below no_number }
    {
        self.values[self.values.len() - 1 - below]
    }
}
