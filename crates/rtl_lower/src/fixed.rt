//! Which selects are fixed: those of parameters and genvars alone. A loop's variable makes them not, and so does a call.

use crate::here::Here;
use scope_table::ScopeTable;
use sv_expr::Denoted;
use sv_tree::{Args, Select, Token};
use sv_walk::{Visit, visit_selects};

/// Whether each name met so far is a parameter or a genvar, and nothing was called.
#[derive(Drop)]
struct Fixity<'a> {
    table: &'a ScopeTable<Denoted>,
    fixed: bool,
}

impl Visit for Fixity<'_> {
    ghost told = { λ event old new. Unit {0} };

    fn name(&mut self, name: Token, _selects: &[Select], _constant: bool) {
        if !matches!(self.table.get(name.name), Denoted::Constant(_)) {
            self.fixed = false;
        }
    }

    fn call(&mut self, _name: Token, _args: &Args, _constant: bool) {
        self.fixed = false;
    }

    fn target(&mut self, _name: Token, _selects: &[Select]) {}

    fn term(&mut self) {}
}

/// Whether every expression in the selects is one of parameters and genvars alone.
pub fn are_fixed(selects: &[Select], here: &Here<'_>) -> bool {
    let mut fixity = Fixity {
        table: here.view.table,
        fixed: true,
    };
    visit_selects(here.view.names, &mut fixity, selects, false);
    fixity.fixed
}
