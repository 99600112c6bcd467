//! What names denote where the walk stands, and what it has laid down.

use crate::counts::{Counts, Tally};
use crate::stop::Stop;
use elab_types::{holds, next_value};
use scope_table::ScopeTable;
use sv_expr::{Denoted, Fixed, ScopeView, expr_type, lvalue_type};
use sv_tree::{Args, Expr, LoopHead, LoopStep, Lvalue, Names, Step};
use sv_walk::{visit_args, visit_expr, visit_lvalue};

/// The scope in which the walk stands.
#[derive(Drop)]
pub struct Present<'t> {
    pub names: &'t Names,
    pub table: ScopeTable<Denoted>,
    pub counts: Counts,
}

impl Present<'_> {
    /// What names denote here.
    pub fn view(&self) -> ScopeView<'_> {
        ScopeView {
            names: self.names,
            table: &self.table,
        }
    }

    /// The first fault of an expression.
    pub fn check(&self, expr: &Expr) -> Result<(), Stop> {
        match expr_type(&self.view(), expr) {
            Ok(_) => Ok(()),
            Err(fault) => Err(Stop::from(fault)),
        }
    }

    /// The first fault of the target of an assignment.
    pub fn check_target(&self, target: &Lvalue) -> Result<(), Stop> {
        match lvalue_type(&self.view(), target) {
            Ok(_) => Ok(()),
            Err(fault) => Err(Stop::from(fault)),
        }
    }

    /// The first fault of arguments.
    pub fn check_args(&self, args: &Args) -> Result<(), Stop> {
        match args {
            Args::Empty => Ok(()),
            Args::Listed { first, more } => {
                self.check(first.get())?;
                self.check_steps(more.as_slice())
            }
        }
    }

    /// The first fault of further expressions of a list.
    pub fn check_steps(&self, steps: &[Step]) -> Result<(), Stop> {
        for step in steps {
            self.check(&step.operand)?;
        }
        Ok(())
    }

    /// An assignment: what it counts, then its first fault, the target before the value.
    pub fn assignment(&mut self, target: &Lvalue, value: &Expr) -> Result<(), Stop> {
        let mut tally = Tally::of(1);
        visit_lvalue(self.names, &mut tally, target);
        visit_expr(self.names, &mut tally, value, false);
        self.counts.lay(tally)?;
        self.check_target(target)?;
        self.check(value)
    }

    /// An expression that is a part of an item or a statement with so many terms of its own: what it counts, then
    /// its first fault.
    pub fn expression(&mut self, terms: usize, expr: &Expr) -> Result<(), Stop> {
        let mut tally = Tally::of(terms);
        visit_expr(self.names, &mut tally, expr, false);
        self.counts.lay(tally)?;
        self.check(expr)
    }

    /// A call as a statement: what it counts, then the first fault of its arguments.
    pub fn call(&mut self, args: &Args) -> Result<(), Stop> {
        let mut tally = Tally::of(1);
        tally.add_call();
        visit_args(self.names, &mut tally, args, false);
        self.counts.lay(tally)?;
        self.check_args(args)
    }

    /// A turn of a loop, where its variable is a constant of this value: the value in the next turn, or `None` where
    /// the condition does not hold. The step is looked at before the first turn also where there is none, and in each
    /// later turn after that is counted.
    pub fn turn(
        &mut self,
        head: &LoopHead,
        value: Fixed,
        first: bool,
    ) -> Result<Option<Fixed>, Stop> {
        let goes_on = self.test(&head.test)?;
        if first {
            self.check_step(&head.step)?;
        }
        if !goes_on {
            return Ok(None);
        }
        self.counts.turn(head.word.at)?;
        match self.next(head, value) {
            Ok(next) => Ok(Some(next)),
            Err(stop) => Err(stop),
        }
    }

    /// Whether a test holds.
    fn test(&self, test: &Expr) -> Result<bool, Stop> {
        match holds(&self.view(), test) {
            Ok(holds) => Ok(holds),
            Err(fault) => Err(Stop::from(fault)),
        }
    }

    /// The first fault of a step.
    fn check_step(&self, step: &LoopStep) -> Result<(), Stop> {
        match step {
            LoopStep::Set(setting) => self.check(&setting.value),
            LoopStep::After { .. } | LoopStep::Before { .. } => Ok(()),
        }
    }

    /// The value of a loop's variable in the next turn.
    fn next(&self, head: &LoopHead, value: Fixed) -> Result<Fixed, Stop> {
        match next_value(&self.view(), head, value) {
            Ok(next) => Ok(next),
            Err(fault) => Err(Stop::from(fault)),
        }
    }
}
