ghost use Rattle.std.specs.Prelude.{◌≡◌};
ghost use Rattle.rtl_lower.specs.Kinds.{environment_in};
ghost use Rattle.sv_expr.specs.Environment.{environment};

use crate::here::Here;
use rtl_ir::Import;
use scope_table::ScopeTable;
use std::alloc::Global;
use sv_expr::{Denoted, ScopeView};
use sv_tree::Names;

/// The scope in which the walk stands.
#[derive(Drop)]
pub struct Inside<'t> {
    pub alloc: Global,
    pub names: &'t Names,
    /// The imports of the design.
    pub imports: &'t [Import],
    /// What names denote. The numbers of variables, memories and imports are those of the design.
    pub table: ScopeTable<Denoted>,
}

impl Inside<'_> {
    /// What names denote here.
    #[tactic(auto, unfolding(crate::specs::Kinds::environment_of))]
    pub fn view(&self) -> ScopeView<'_>
        ensures { environment result ≡ environment_in self.now }
    {
        ScopeView {
            names: self.names,
            table: &self.table,
        }
    }

    /// Where expressions stand.
    #[tactic(auto, unfolding(crate::specs::Kinds::environment_of))]
    pub fn here(&self) -> Here<'_>
        ensures { environment result.view ≡ environment_in self.now }
    {
        Here {
            alloc: self.alloc,
            view: self.view(),
            imports: self.imports,
        }
    }
}
