ghost use Rattle.std.specs.Prelude.{◌≡◌, true};
ghost use Rattle.sv_names.specs.Cause.{is_walked};

use crate::class::Class;
use crate::fault::DesignFault;
use crate::graph::Components;
use crate::least::Least;
use crate::members::Members;
use crate::modules::Modules;
use crate::seen::Seen;
use scope_table::ScopeTable;
use sv_tree::{Label, Names, Token};

/// The state of the walk over all modules: what names are declared as at the present place, and the least fault so far.
/// Want of memory is kept as a fault below all others, so that the walk goes on to its end and needs no test after each
/// step.
#[derive(Drop)]
pub struct Checker<'a> {
    /// The texts of all tokens.
    pub names: &'a Names,
    /// The modules by their names.
    pub modules: &'a Modules,
    /// What instances may name of them.
    pub members: &'a Members,
    /// Which modules reach one another.
    pub components: &'a Components,
    /// The number of the present module among the descriptions of the tree.
    pub module: usize,
    /// What names are declared as.
    pub table: ScopeTable<Class>,
    /// The names of the present list of connections.
    pub seen: Seen,
    /// How many conditional constructs there were.
    pub constructs: usize,
    /// The least fault so far.
    pub least: Least,
}

impl Checker<'_> {
    /// A fault is met.
    pub fn offer(&mut self, fault: DesignFault)
        requires { is_walked fault ≡ true }
    {
        self.least.offer(fault);
    }

    /// A name is of another class than its place needs.
    pub fn wrong_use(&mut self, name: Token) {
        self.offer(DesignFault::WrongUse(name.at, name.name));
    }

    /// What a name is declared as.
    pub fn class(&self, name: Token) -> Class {
        self.table.get(name.name)
    }

    /// Enters a module.
    pub fn enter_module(&mut self) {
        if self.table.enter_module().is_err() {
            self.offer(DesignFault::NoMemory);
        }
    }

    /// Enters a generate block or a loop.
    pub fn enter(&mut self) {
        if self.table.enter().is_err() {
            self.offer(DesignFault::NoMemory);
        }
    }

    /// Leaves what was entered last.
    pub fn leave(&mut self) {
        self.table.leave();
    }

    /// Declares a name in the present scope.
    pub fn declare(&mut self, name: Token, class: Class) {
        if self.table.is_declared_here(name.name) {
            self.offer(DesignFault::Duplicate(name.at, name.name));
        }
        self.bind(name, class);
    }

    /// Declares the name of a block, where it has one. `construct`: the number of the conditional construct of which the
    /// block is a branch. The branches of one construct may share a name, since at most one of them is taken (IEEE
    /// 1800-2017 27.5).
    pub fn declare_block(&mut self, label: Option<Label>, construct: Option<usize>) {
        if let Some(label) = label {
            let class = Class::Block { construct };
            if construct.is_some() && self.class(label.name) == class {
                self.bind(label.name, class);
            } else {
                self.declare(label.name, class);
            }
        }
    }

    /// Looks at the name after the end of a block or a module, which must be the one that opened it.
    pub fn close(&mut self, opening: Option<Token>, closing: Option<Label>) {
        if let Some(closing) = closing {
            let same = match opening {
                Some(opening) => opening.name == closing.name.name,
                None => false,
            };
            if !same {
                self.wrong_use(closing.name);
            }
        }
    }

    /// The number of a further conditional construct.
    pub fn next_construct(&mut self) -> usize {
        self.constructs = self.constructs.saturating_add(1);
        self.constructs
    }

    // Gives a name its meaning in the present scope.
    fn bind(&mut self, name: Token, class: Class) {
        if self.table.declare(name.name, class).is_err() {
            self.offer(DesignFault::NoMemory);
        }
    }
}

/// The name of a label, where there is one.
pub fn label_name(label: Option<Label>) -> Option<Token> {
    match label {
        Some(label) => Some(label.name),
        None => None,
    }
}
