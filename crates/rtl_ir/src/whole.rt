ghost use Rattle.std.specs.Prelude.{◌≡◌, length, true, IfSome};
ghost use Rattle.std.specs.List.{list_all};
ghost use Rattle.rtl_ir.specs.WithinDesign.{counts_of, var_fits, mem_fits, proc_fits, port_fits, parents_first, design_fits};
ghost use Rattle.std.specs.Option.{is_some};

use crate::counts::Counts;
use crate::design::{FlatScope, Import, Mem, Port, Proc, Var};
use crate::whole_fits::{mems_fit, ports_fit, procs_fit, scopes_fit, vars_fit};
use sqlite_items::Items;

/// What numbers name, lent from a design: all that a walk over its expressions and statements looks at besides.
#[derive(Clone, Copy)]
pub struct Tables<'a> {
    pub vars: &'a [Var],
    pub mems: &'a [Mem],
    pub imports: &'a [Import],
}

/// A flat design. Every number in it names a thing that is there.
#[derive(Drop)]
pub struct Design {
    pub vars: Items<Var>,
    pub mems: Items<Mem>,
    /// In elaboration order.
    pub procs: Items<Proc>,
    /// In the order of their declarations.
    pub imports: Items<Import>,
    /// The ports of the top module, in order.
    pub ports: Items<Port>,
    /// In walk order, the top first.
    pub scopes: Items<FlatScope>,
    ghost vars_fit: { list_all (var_fits (length scopes)) vars ≡ true },
    ghost mems_fit: { list_all (mem_fits (length scopes)) mems ≡ true },
    ghost procs_fit: { list_all (proc_fits (counts_of vars mems imports)) procs ≡ true },
    ghost ports_fit: { list_all (port_fits (length vars)) ports ≡ true },
    ghost parents_first: { parents_first 0 scopes ≡ true },
}

impl Design {
    /// The design of these parts. `None` comes exactly where a number in them names nothing, or a scope stands before
    /// its parent. It goes over all of them once.
    pub fn new(
        vars: Items<Var>,
        mems: Items<Mem>,
        procs: Items<Proc>,
        imports: Items<Import>,
        ports: Items<Port>,
        scopes: Items<FlatScope>,
    ) -> Option<Design>
        ensures exactly { is_some result ≡ design_fits vars mems procs imports ports scopes }
        ensures vars { IfSome result (λ d. d.vars ≡ vars) }
        ensures mems { IfSome result (λ d. d.mems ≡ mems) }
        ensures procs { IfSome result (λ d. d.procs ≡ procs) }
        ensures imports { IfSome result (λ d. d.imports ≡ imports) }
        ensures ports { IfSome result (λ d. d.ports ≡ ports) }
        ensures scopes { IfSome result (λ d. d.scopes ≡ scopes) }
    {
        let counts = Counts {
            vars: vars.len(),
            mems: mems.len(),
            imports: imports.len(),
        };
        if !scopes_fit(scopes.as_slice()) {
            return None;
        }
        if !vars_fit(scopes.len(), vars.as_slice()) {
            return None;
        }
        if !mems_fit(scopes.len(), mems.as_slice()) {
            return None;
        }
        if !ports_fit(counts.vars, ports.as_slice()) {
            return None;
        }
        if !procs_fit(&counts, procs.as_slice()) {
            return None;
        }
        Some(Design {
            vars,
            mems,
            procs,
            imports,
            ports,
            scopes,
        })
    }

    /// Its variables, memories and imports.
    pub fn tables(&self) -> Tables<'_>
        ensures vars { result.vars.now ≡ self.now.vars }
        ensures mems { result.mems.now ≡ self.now.mems }
        ensures imports { result.imports.now ≡ self.now.imports }
    {
        Tables {
            vars: self.vars.as_slice(),
            mems: self.mems.as_slice(),
            imports: self.imports.as_slice(),
        }
    }
}
