//! The walk over generate constructs (IEEE 1800-2017 27.4 to 27.6).

use crate::walk::{End, Level, Source, Turn, Walk, add};
use elab_parts::{Stop, constant_of, declare_body, inner, numbered_segment, turn_segment};
use elab_types::{block_taken, start_value};
use sv_expr::{Constant, Denoted, Fixed};
use sv_tree::{GenBlock, Item, LoopHead};

impl<'t> Walk<'t> {
    /// The number of the next generate construct of the present scope.
    fn construct(&mut self) -> u32 {
        match self.open.last_mut() {
            Some(open) => {
                open.constructs = open.constructs.saturating_add(1);
                open.constructs
            }
            None => 0,
        }
    }

    /// A loop, which is this item: its start, and its first turn.
    pub fn generate_for(&mut self, item: &'t Item, head: &LoopHead) -> Result<(), Stop> {
        let number = self.construct();
        match start_value(&self.present.view(), head) {
            Ok(value) => self.turn(item, &Turn { number, value }, true),
            Err(fault) => Err(Stop::from(fault)),
        }
    }

    /// A turn of a loop, if there is one.
    pub fn turn(&mut self, item: &'t Item, turn: &Turn, first: bool) -> Result<(), Stop> {
        match item {
            Item::For { head, body } => self.turn_of(head, body.get(), turn, first),
            _ => Ok(()),
        }
    }

    /// A turn of a loop, if there is one: a block in which the genvar is a constant, and after which comes the next
    /// turn.
    fn turn_of(
        &mut self,
        head: &LoopHead,
        body: &'t GenBlock,
        turn: &Turn,
        first: bool,
    ) -> Result<(), Stop> {
        match self.enter_turn(head, turn, first)? {
            None => Ok(()),
            Some(value) => {
                let number = turn.number;
                self.take_turn(head, body, turn, Turn { number, value })
            }
        }
    }

    /// Enters the scope of a turn, in which the genvar is a constant, and gives its value in the next turn. `None`:
    /// there is no turn, and no scope is entered.
    fn enter_turn(
        &mut self,
        head: &LoopHead,
        turn: &Turn,
        first: bool,
    ) -> Result<Option<Fixed>, Stop> {
        let genvar = head.start.name.name;
        let value = turn.value;
        self.present.table.enter()?;
        self.present
            .table
            .declare(genvar, Denoted::Constant(value))?;
        let value = turn.value;
        match self.present.turn(head, value, first)? {
            Some(next) => Ok(Some(next)),
            None => {
                self.present.table.leave();
                Ok(None)
            }
        }
    }

    /// Adds the block of a turn.
    fn take_turn(
        &mut self,
        head: &LoopHead,
        body: &'t GenBlock,
        turn: &Turn,
        next: Turn,
    ) -> Result<(), Stop> {
        let name = self.block_name(body, turn.number)?;
        let value = turn.value;
        let segment = turn_segment(name, value)?;
        self.declare_genvar(head)?;
        self.enter_turn_block(head, body, segment, turn, next)
    }

    /// Adds the block of a turn, of which the genvar is the first constant.
    fn enter_turn_block(
        &mut self,
        head: &LoopHead,
        body: &'t GenBlock,
        segment: Vec<u8>,
        turn: &Turn,
        next: Turn,
    ) -> Result<(), Stop> {
        let value = turn.value;
        let genvar = constant_of(head.start.name.name, value);
        let mut values = Vec::new(self.alloc);
        let Ok(()) = values.push(genvar) else {
            return Err(Stop::NoMemory);
        };
        let Ok(()) = self.turns.push(next) else {
            return Err(Stop::NoMemory);
        };
        self.enter_block(segment, values, body, End::Turn)
    }

    /// Enters the names of a turn's block, which has the genvar's where the loop declares it.
    fn declare_genvar(&mut self, head: &LoopHead) -> Result<(), Stop> {
        self.declared.enter()?;
        if head.kind.is_some() {
            self.declared.declare(head.start.name.name, true)?;
        }
        Ok(())
    }

    /// A conditional construct: the block that is taken.
    pub fn generate_if(&mut self, item: &'t Item) -> Result<(), Stop> {
        let number = self.construct();
        match block_taken(&self.present.view(), item) {
            Ok(None) => Ok(()),
            Ok(Some(body)) => self.take_block(body, number),
            Err(fault) => Err(Stop::from(fault)),
        }
    }

    /// Enters the block that is taken.
    fn take_block(&mut self, body: &'t GenBlock, number: u32) -> Result<(), Stop> {
        let segment = self.block_name(body, number)?;
        self.present.table.enter()?;
        self.declared.enter()?;
        let values = Vec::new(self.alloc);
        self.enter_block(segment, values, body, End::Leave)
    }

    /// Adds the scope of a block, and leaves what stands in it to be walked.
    fn enter_block(
        &mut self,
        segment: Vec<u8>,
        values: Vec<Constant>,
        body: &'t GenBlock,
        end: End,
    ) -> Result<(), Stop> {
        declare_body(&mut self.declared, body)?;
        let scope = self.add_block(segment, values)?;
        let module = self.module();
        let overrides = Vec::new(self.alloc);
        self.open(scope, module, overrides)?;
        add(
            &mut self.levels,
            &Level {
                source: Source::Block(body),
                next: 0,
                end,
            },
        )
    }

    /// Adds the scope of a block.
    fn add_block(&mut self, segment: Vec<u8>, values: Vec<Constant>) -> Result<u32, Stop> {
        let here = self.here();
        let path = inner(self.alloc, self.scopes.path(here), segment.as_slice())?;
        let module = self.module();
        self.scopes.add(here, path, true, module, values)
    }

    /// The name of a block: its own, or that of the construct of this number, `genblkN` with as few zeros before the
    /// number as make it differ from every name that the present scope declares.
    fn block_name(&self, body: &GenBlock, number: u32) -> Result<Vec<u8>, Stop> {
        if let GenBlock::Block {
            label: Some(label),
            ..
        } = body
        {
            let text = self.present.names.text_of(label.name.name);
            return Ok(Vec::from_slice(self.alloc, text)?);
        }
        for zeros in 0..self.present.names.len() {
            let name = numbered_segment(self.alloc, zeros, number)?;
            if !self.is_declared(name.as_slice()) {
                return Ok(name);
            }
        }
        numbered_segment(self.alloc, self.present.names.len(), number)
    }

    /// Whether the present scope declares a name that is spelled so.
    fn is_declared(&self, text: &[u8]) -> bool {
        match self.present.names.find(text) {
            Some(name) => self.declared.is_declared_here(name),
            None => false,
        }
    }
}
