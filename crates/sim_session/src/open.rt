//! What lasts, before the first eval: all memory of a run is taken here.
ghost use Rattle.std.specs.Prelude.{◌≡◌, ◌≤◌, length, IfOk, true, vec_capacity};
ghost use Rattle.std.specs.List.{list_all};
ghost use Rattle.vs_base.specs.Number.{kept};
ghost use Rattle.plan_types.specs.Machine.{values_of};
ghost use Rattle.sim_session.specs.Inputs.{port_width, opening_ports};
ghost use Rattle.sim_session.specs.Values.{is_short};
ghost use Rattle.sim_session.specs.Ready.{IsOrdinary, IsReady};

use crate::rooms::output;
use crate::session::Session;
use crate::texts::Texts;
use crate::values::{put_values, var_width};
use plan_types::{Built, Runner};
use rtl_ir::{Port, Var};
use rtl_pieces::Word;
use sqlite_items::at;
use std::alloc::{AllocError, Global};
use vcd_out::NoMemory;
use vs_base::Bits;

// Whether each word is a part of a value.
fn are_short(words: &[Word]) -> bool
    ensures { result ≡ list_all is_short words.now }
{
    words.iter().all(|word| word.len <= 128)
}

// Whether the words are so few and so short that each has a number and is a part of a value.
fn is_ordinary(words: &[Word]) -> bool
    ensures { result ≡ true → IsOrdinary words.now }
{
    if words.len() > u32::MAX as usize {
        return false;
    }
    are_short(words)
}

// At first a port is 0.
fn opening_port(vars: &[Var], port: Port) -> Bits
    ensures { result ≡ kept (port_width vars.now port) 0 }
{
    Bits::new(var_width(at(vars, port.var as usize)), 0)
}

fn opening_ports(alloc: Global, vars: &[Var], ports: &[Port]) -> Result<Vec<Bits>, AllocError>
    ensures { IfOk result (λ v. v.items ≡ opening_ports vars.now ports.now) }
{
    let mut values = Vec::with_capacity(alloc, ports.len())?;
    for port in ports {
        values.push(opening_port(vars, *port))?;
    }
    Ok(values)
}

// The values of the variables.
fn opening_values<R: Runner>(
    alloc: Global,
    runner: &R,
    built: &Built,
) -> Result<Vec<Bits>, AllocError>
    requires same { R.built runner.now ≡ built.now }
    requires words { length (R.machine runner.now).outside.words ≡ length built.now.layout.words.items }
    requires ordinary { IsOrdinary built.now.layout.words.items }
    ensures values { IfOk result (λ v. v.items ≡ values_of built.now (R.machine runner.now)) }
    ensures room { IfOk result (λ v. length built.now.design.vars ≤ vec_capacity v) }
{
    let mut values = Vec::with_capacity(alloc, built.design.vars.as_slice().len())?;
    put_values(&mut values, runner, built);
    Ok(values)
}

/// What lasts, before the first eval, with room for all that an eval needs.
///
/// `NoMemory`: there was none left, or the model has 2^32 words or more, or a word of more than 128 bits.
pub fn open<R: Runner>(
    alloc: Global,
    runner: &R,
    built: &Built,
    texts: &Texts,
) -> Result<Session, NoMemory>
    requires same { R.built runner.now ≡ built.now }
    requires words { length (R.machine runner.now).outside.words ≡ length built.now.layout.words.items }
    ensures ready { IfOk result (λ s. IsReady texts.now built.now s (R.machine runner.now)) }
    ensures set { IfOk result (λ s. s.set.items ≡ opening_ports built.now.design.vars built.now.design.ports) }
    ensures number { IfOk result (λ s. s.number ≡ 0) }
    ensures done { IfOk result (λ s. s.out.done ≡ 0) }
{
    let vars = built.design.vars.as_slice();
    let ports = built.design.ports.as_slice();
    if !is_ordinary(built.layout.words.as_slice()) {
        return Err(NoMemory);
    }
    let Ok(set) = opening_ports(alloc, vars, ports) else {
        return Err(NoMemory);
    };
    let Ok(inputs) = Vec::with_capacity(alloc, ports.len()) else {
        return Err(NoMemory);
    };
    let Ok(before) = opening_values(alloc, runner, built) else {
        return Err(NoMemory);
    };
    let Ok(after) = Vec::with_capacity(alloc, vars.len()) else {
        return Err(NoMemory);
    };
    let Ok(out) = output(alloc, built, texts, runner.room()) else {
        return Err(NoMemory);
    };
    Ok(Session {
        set,
        inputs,
        before,
        after,
        out,
        number: 0,
    })
}
