//! Whether the parts of a design fit one another.

ghost use Rattle.std.specs.Prelude.{◌≡◌, ◌≤◌, length};
ghost use Rattle.std.specs.List.{list_all};
ghost use Rattle.rtl_ir.specs.WithinDesign as within;

use crate::counts::Counts;
use crate::design::{Event, FlatScope, Mem, Port, Proc, ProcKind, Var};
use crate::within_stmt::stmts_fit;

/// Whether the scopes of variables are some of so many.
pub fn vars_fit(scopes: usize, vars: &[Var]) -> bool
    ensures { result ≡ list_all (within.var_fits scopes) vars.now }
{
    for var in vars {
        if var.scope as usize >= scopes {
            return false;
        }
    }
    true
}

/// Whether the scopes of memories are some of so many.
pub fn mems_fit(scopes: usize, mems: &[Mem]) -> bool
    ensures { result ≡ list_all (within.mem_fits scopes) mems.now }
{
    for mem in mems {
        if mem.scope as usize >= scopes {
            return false;
        }
    }
    true
}

/// Whether the variables of ports are some of so many.
pub fn ports_fit(vars: usize, ports: &[Port]) -> bool
    ensures { result ≡ list_all (within.port_fits vars) ports.now }
{
    for port in ports {
        if port.var as usize >= vars {
            return false;
        }
    }
    true
}

/// Whether processes fit.
pub fn procs_fit(counts: &Counts, procs: &[Proc]) -> bool
    ensures { result ≡ list_all (within.proc_fits counts.now) procs.now }
{
    for process in procs {
        if !proc_fits(counts, process) {
            return false;
        }
    }
    true
}

/// Whether a process fits.
fn proc_fits(counts: &Counts, process: &Proc) -> bool
    ensures { result ≡ within.proc_fits counts.now process.now }
{
    if !kind_fits(counts.vars, &process.kind) {
        return false;
    }
    stmts_fit(counts, process.body.as_slice())
}

/// Whether the variables of events are some of so many.
fn kind_fits(vars: usize, kind: &ProcKind) -> bool
    ensures { result ≡ within.kind_fits vars kind.now }
{
    match kind {
        ProcKind::Comb => true,
        ProcKind::Clocked(events) => events_fit(vars, events.as_slice()),
    }
}

/// Whether the variables of events are some of so many.
fn events_fit(vars: usize, events: &[Event]) -> bool
    ensures { result ≡ list_all (within.event_fits vars) events.now }
{
    for event in events {
        if event.var as usize >= vars {
            return false;
        }
    }
    true
}

/// Whether each scope stands after its parent.
pub fn scopes_fit(scopes: &[FlatScope]) -> bool
    ensures { result ≡ within.parents_first 0 scopes.now }
{
    let mut number: u64 = 0;
    let mut rest = scopes;
    while let [scope, more @ ..] = rest {
        if !parent_is_below(number, scope.parent) {
            return false;
        }
        number += 1;
        rest = more;
    }
    true
}

/// Whether the parent, where there is one, has a lower number.
fn parent_is_below(number: u64, parent: Option<u32>) -> bool
    ensures { result ≡ within.parent_is_below number parent }
{
    match parent {
        Some(parent) => u64::from(parent) < number,
        None => true,
    }
}
