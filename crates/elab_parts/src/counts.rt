//! What the walk has laid down, against the limits.

ghost use Rattle.std.specs.Prelude.{◌≡◌, ◌+◌, ◌-◌, ◌^◌, min, IfOk};
ghost use Rattle.elab_parts.specs.Stops.{stop_in};
ghost use Rattle.elab_parts.specs.Counting as counting;

use crate::stop::{Counted, Stop};
use sv_tree::{Args, Select, Token};
use sv_walk::Visit;
use vs_base::{Origin, limits};

/// How much the walk has laid down so far.
#[derive(Clone, Copy)]
pub struct Counts {
    instances: usize,
    processes: usize,
    terms: usize,
    calls: usize,
    turns: u32,
}

/// The terms and the calls of an item or a statement.
#[derive(Clone, Copy)]
pub struct Tally {
    terms: usize,
    calls: usize,
}

impl Tally {
    /// A construct that counts as so many terms besides its expressions.
    pub fn of(terms: usize) -> Tally
        ensures { result ≡ counting.tally terms 0 }
    {
        Tally { terms, calls: 0 }
    }

    /// One call more.
    pub fn add_call(&mut self)
        ensures { self.new ≡ counting.one_call_more self.old }
    {
        self.calls = self.calls.saturating_add(1);
    }
}

impl Visit for Tally {
    ghost told = { λ event old new. new ≡ counting.after_event event old };

    fn name(&mut self, _name: Token, _selects: &[Select], _constant: bool) {}

    fn call(&mut self, _name: Token, _args: &Args, _constant: bool) {
        self.add_call();
    }

    fn target(&mut self, _name: Token, _selects: &[Select]) {}

    fn term(&mut self) {
        self.terms = self.terms.saturating_add(1);
    }
}

impl Counts {
    /// Nothing is laid down yet.
    pub fn none() -> Counts
        ensures { result ≡ counting.nothing_laid }
    {
        Counts {
            instances: 0,
            processes: 0,
            terms: 0,
            calls: 0,
            turns: 0,
        }
    }

    /// Counts an instance. The fault is that there are more than [`limits::INSTANCES`]; the counts are then as they were.
    pub fn instance(&mut self) -> Result<(), Stop>
        ensures fault { stop_in result ≡ counting.instance_fault self.old }
        ensures counts { self.new ≡ counting.with_instance self.old }
    {
        self.instances = within(self.instances, 1, limits::INSTANCES, Counted::Instances)?;
        Ok(())
    }

    /// Counts a process. The fault is that there are more than [`limits::PROCESSES`]; the counts are then as they were.
    pub fn process(&mut self) -> Result<(), Stop>
        ensures fault { stop_in result ≡ counting.process_fault self.old }
        ensures counts { self.new ≡ counting.with_process self.old }
    {
        self.processes = within(self.processes, 1, limits::PROCESSES, Counted::Processes)?;
        Ok(())
    }

    /// Counts the terms and then the calls of an item or a statement. The fault is that there are more than
    /// [`limits::TERMS`], or else more than [`limits::CALLS`]; what is too many is not counted.
    pub fn lay(&mut self, tally: Tally) -> Result<(), Stop>
        ensures fault { stop_in result ≡ counting.tally_fault self.old tally }
        ensures counts { self.new ≡ counting.with_tally self.old tally }
    {
        self.terms = within(self.terms, tally.terms, limits::TERMS, Counted::Terms)?;
        self.calls = within(self.calls, tally.calls, limits::CALLS, Counted::Calls)?;
        Ok(())
    }

    /// Counts a turn of a loop whose `for` stands at this place. The fault is that all loops have more than
    /// [`limits::LOOP_TURNS`]; the counts are then as they were.
    pub fn turn(&mut self, at: Origin) -> Result<(), Stop>
        ensures fault { stop_in result ≡ counting.turn_fault self.old at }
        ensures counts { self.new ≡ counting.with_turn self.old }
    {
        if self.turns >= limits::LOOP_TURNS {
            return Err(Stop::LoopTurns(at));
        }
        self.turns += 1;
        Ok(())
    }
}

/// So many more, or the fault where they are past the limit.
fn within(count: usize, more: usize, limit: usize, what: Counted) -> Result<usize, Stop>
    ensures fault { stop_in result ≡ counting.past limit (min (count + more) (2 ^ 64 - 1)) what }
    ensures sum { IfOk result (λ sum. sum ≡ min (count + more) (2 ^ 64 - 1)) }
{
    let sum = count.saturating_add(more);
    if sum > limit {
        return Err(Stop::TooMany(what));
    }
    Ok(sum)
}
