ghost use Rattle.sv_walk.specs.Events.{Event, Named, Called, Written, Term};

use sv_tree::{Args, Select, Token};

/// What is told of the names, calls and terms that a walk meets, in token order.
pub trait Visit {
    /// What one event does. A visitor that tells nothing of this says `λ event old new. Unit {0}`.
    ghost told: { Event → Self → Self → Type 0 };

    /// A name that is read, with its selects, before what stands in them. `constant`: its place needs a constant.
    fn name(&mut self, name: Token, selects: &[Select], constant: bool)
        ensures { told (Named name selects.now constant) self.old self.new };

    /// The call of an import, before its arguments. `constant`: its place needs a constant.
    fn call(&mut self, name: Token, args: &Args, constant: bool)
        ensures { told (Called name args.now constant) self.old self.new };

    /// A name that is written, with its selects, before what stands in them.
    fn target(&mut self, name: Token, selects: &[Select])
        ensures { told (Written name selects.now) self.old self.new };

    /// A term: a primary, an operator, a `?` or a select.
    fn term(&mut self)
        ensures { told Term self.old self.new };
}
