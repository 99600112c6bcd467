//! Whether the events of processes are edges of variables of one bit (IEEE 1800-2017 9.4.2).

ghost use Rattle.std.specs.Prelude.{◌≡◌};
ghost use Rattle.std.specs.List.{list_all};
ghost use Rattle.rtl_flat.specs.Edges as spec;

use rtl_ir::{Event, Proc, ProcKind, Var};

/// Whether all events of processes are of variables of one bit.
pub fn have_bit_events(vars: &[Var], procs: &[Proc]) -> bool
    ensures { result ≡ list_all (spec.has_bit_events vars.now) procs.now }
{
    for process in procs {
        if !has_bit_events(vars, process) {
            return false;
        }
    }
    true
}

/// Whether all events of a process are of variables of one bit.
fn has_bit_events(vars: &[Var], process: &Proc) -> bool
    ensures { result ≡ spec.has_bit_events vars.now process.now }
{
    match &process.kind {
        ProcKind::Comb => true,
        ProcKind::Clocked(events) => are_of_bits(vars, events.as_slice()),
    }
}

/// Whether all of these events are of variables of one bit.
fn are_of_bits(vars: &[Var], events: &[Event]) -> bool
    ensures { result ≡ list_all (spec.is_of_bit vars.now) events.now }
{
    for event in events {
        if !is_of_bit(vars, event) {
            return false;
        }
    }
    true
}

/// Whether an event is of a variable of one bit.
fn is_of_bit(vars: &[Var], event: &Event) -> bool
    ensures { result ≡ spec.is_of_bit vars.now event.now }
{
    match vars.get(event.var as usize) {
        Some(var) => var.width == 1,
        None => false,
    }
}
