//! One eval, and its texts.
ghost use Rattle.std.specs.Prelude.{◌≡◌, ◌≤◌, ◌<◌, ◌+◌, ◌*◌, ◌^◌, ◌++◌, ◌∷◌, [], length, OnOk, true, is_ok, is_some, None, vec_len, vec_capacity};
ghost use Rattle.vs_world.specs.declared.world.Stream.TheVariants.{Calls as CallStream, Vcd as VcdStream};
ghost use Rattle.vs_world.specs.Outside.{IsOpen};
ghost use Rattle.plan_types.specs.Machine.{evaluated, converges, values_of, kept_of};
ghost use Rattle.plan_types.specs.Room.{call_room};
ghost use Rattle.vcd_out.specs.Changes.{widths_of, widths_of_vars};
ghost use Rattle.sim_session.specs.Inputs.{input_if, inputs_at};
ghost use Rattle.sim_session.specs.Runs.{setting, line_entry, calls_entries, changes_entries, some_text, besides, all_texts};
ghost use Rattle.sim_session.specs.Ends.{mark, DoneOrStopped, stand, RanOrStopped};
ghost use Rattle.sim_session.specs.Ready.{IsSet, IsOrdinary, IsOpened, HasRoom, IsReady};

use crate::fault::SessionFault;
use crate::line::put_line;
use crate::log::put_calls;
use crate::piece::write_piece;
use crate::session::{Output, Session};
use crate::texts::Texts;
use crate::values::put_values;
use dpi_host::CallRec;
use plan_types::{Built, RunFault, Runner};
use rtl_ir::Port;
use std::mem::swap;
use vs_base::Bits;
use vs_world::{Stream, World};

// Adds the value of a port, where it is an input.
fn put_input(inputs: &mut Vec<Bits>, port: Port, value: Bits)
    requires { vec_len inputs.old + 1 ≤ vec_capacity inputs.old }
    ensures items { inputs.new.items ≡ inputs.old.items ++ input_if port value }
    ensures room { vec_len inputs.new ≤ vec_len inputs.old + 1 }
    ensures capacity { vec_capacity inputs.new ≡ vec_capacity inputs.old }
{
    if port.input {
        inputs.push_reserved(value);
    }
}

// The values of the inputs, in place of what was there, within the room that there is.
fn gather(inputs: &mut Vec<Bits>, ports: &[Port], set: &[Bits])
    requires { length ports.now ≤ vec_capacity inputs.old }
    ensures items { inputs.new.items ≡ inputs_at ports.now set.now }
    ensures capacity { vec_capacity inputs.new ≡ vec_capacity inputs.old }
{
    inputs.clear();
    let mut ports = ports;
    let mut set = set;
    'ports: while let [port, more @ ..] = ports {
        let [value, rest @ ..] = set else {
            return;
        };
        put_input(inputs, *port, *value);
        ports = more;
        set = rest;
    }
}

// Evaluates the model on what is set.
fn evaluate<R: Runner>(
    runner: &mut R,
    built: &Built,
    set: &[Bits],
    inputs: &mut Vec<Bits>,
) -> Result<(), RunFault>
    requires same { R.built runner.old ≡ built.now }
    requires set { IsSet built.now set.now }
    requires room { length built.now.design.ports ≤ vec_capacity inputs.old }
    ensures same { R.built runner.new ≡ built.now }
    ensures machine { R.machine runner.new ≡ evaluated R.Host.answer R.Host.after built.now (inputs_at built.now.design.ports set.now) (R.machine runner.old) }
    ensures converges { is_ok result ≡ converges R.Host.answer R.Host.after built.now (inputs_at built.now.design.ports set.now) (R.machine runner.old) }
    ensures capacity { vec_capacity inputs.new ≡ vec_capacity inputs.old }
{
    gather(inputs, built.design.ports.as_slice(), set);
    runner.eval(inputs.as_slice())
}

// Evaluates the model, and takes the values of its variables.
fn advance<R: Runner>(
    runner: &mut R,
    built: &Built,
    set: &[Bits],
    inputs: &mut Vec<Bits>,
    new: &mut Vec<Bits>,
) -> Result<(), RunFault>
    requires same { R.built runner.old ≡ built.now }
    requires set { IsSet built.now set.now }
    requires words { length (R.machine runner.old).outside.words ≡ length built.now.layout.words.items }
    requires ordinary { IsOrdinary built.now.layout.words.items }
    requires inputs { length built.now.design.ports ≤ vec_capacity inputs.old }
    requires room { length built.now.design.vars ≤ vec_capacity new.old }
    ensures same { R.built runner.new ≡ built.now }
    ensures machine { R.machine runner.new ≡ evaluated R.Host.answer R.Host.after built.now (inputs_at built.now.design.ports set.now) (R.machine runner.old) }
    ensures converges { is_ok result ≡ converges R.Host.answer R.Host.after built.now (inputs_at built.now.design.ports set.now) (R.machine runner.old) }
    ensures words { length (R.machine runner.new).outside.words ≡ length built.now.layout.words.items }
    ensures new { OnOk result (new.new.items ≡ values_of built.now (R.machine runner.new)) }
    ensures inputs { vec_capacity inputs.new ≡ vec_capacity inputs.old }
    ensures capacity { vec_capacity new.new ≡ vec_capacity new.old }
{
    match evaluate(runner, built, set, inputs) {
        Ok(()) => {
            put_values(new, runner, built);
            Ok(())
        }
        Err(fault) => Err(fault),
    }
}

// Writes the line of an eval.
fn write_line<W: World>(
    built: &Built,
    texts: &Texts,
    number: u64,
    new: &[Bits],
    out: &mut Output,
    world: &mut W,
) -> Result<(), SessionFault>
    requires room { HasRoom texts.now built.now out.old }
    requires new { widths_of new.now ≡ widths_of_vars built.now.design.vars }
    requires few { out.old.done + 1 < 2 ^ 64 }
    ensures room { HasRoom texts.now built.now out.new }
    ensures wrote { DoneOrStopped (line_entry built.now.design number new.now ∷ []) None result (mark out.old.done (W.told world.old)) (mark out.new.done (W.told world.new)) }
    ensures made { (W.told world.new).made ≡ (W.told world.old).made }
    ensures one { out.new.done ≤ out.old.done + 1 }
{
    let design = &built.design;
    put_line(
        &mut out.line,
        design.vars.as_slice(),
        design.ports.as_slice(),
        number,
        new,
    );
    write_piece(world, Stream::Out, out.line.as_slice(), &mut out.done)
}

// Writes a text to the call log, where there is any.
fn write_log<W: World>(world: &mut W, text: &[u8], done: &mut u64) -> Result<(), SessionFault>
    requires open { IsOpen (W.told world.old).made CallStream }
    requires few { done.old + 1 < 2 ^ 64 }
    ensures wrote { DoneOrStopped (some_text CallStream text.now) None result (mark done.old (W.told world.old)) (mark done.new (W.told world.new)) }
    ensures made { (W.told world.new).made ≡ (W.told world.old).made }
    ensures one { done.new ≤ done.old + 1 }
{
    if text.len() > 0 {
        return write_piece(world, Stream::Calls, text, done);
    }
    Ok(())
}

// Writes the calls of an eval, where they are wanted and there are any.
fn write_calls<W: World>(
    built: &Built,
    texts: &Texts,
    number: u64,
    calls: &[CallRec],
    out: &mut Output,
    world: &mut W,
) -> Result<(), SessionFault>
    requires open { is_some texts.now.calls ≡ true → IsOpen (W.told world.old).made CallStream }
    requires room { HasRoom texts.now built.now out.old }
    requires calls { length calls.now ≤ call_room built.now }
    requires few { out.old.done + 1 < 2 ^ 64 }
    ensures room { HasRoom texts.now built.now out.new }
    ensures wrote { DoneOrStopped (calls_entries (is_some texts.now.calls) built.now.design number calls.now) None result (mark out.old.done (W.told world.old)) (mark out.new.done (W.told world.new)) }
    ensures made { (W.told world.new).made ≡ (W.told world.old).made }
    ensures one { out.new.done ≤ out.old.done + 1 }
{
    if !texts.calls.is_some() {
        return Ok(());
    }
    put_calls(&mut out.log, built.design.imports.as_slice(), number, calls);
    write_log(world, out.log.as_slice(), &mut out.done)
}

// Writes the changes of an eval, where a waveform is wanted.
fn write_changes<W: World>(
    built: &Built,
    texts: &Texts,
    number: u64,
    old: &[Bits],
    new: &[Bits],
    out: &mut Output,
    world: &mut W,
) -> Result<(), SessionFault>
    requires open { is_some texts.now.vcd ≡ true → IsOpen (W.told world.old).made VcdStream }
    requires room { HasRoom texts.now built.now out.old }
    requires old { widths_of old.now ≡ widths_of_vars built.now.design.vars }
    requires new { widths_of new.now ≡ widths_of_vars built.now.design.vars }
    requires few { (number + 1 < 2 ^ 64) × (out.old.done + 1 < 2 ^ 64) }
    ensures room { HasRoom texts.now built.now out.new }
    ensures wrote { DoneOrStopped (changes_entries (is_some texts.now.vcd) built.now.design number old.now new.now) None result (mark out.old.done (W.told world.old)) (mark out.new.done (W.told world.new)) }
    ensures made { (W.told world.new).made ≡ (W.told world.old).made }
    ensures one { out.new.done ≤ out.old.done + 1 }
{
    if !texts.vcd.is_some() {
        return Ok(());
    }
    let text = out.changes.change(&built.design, old, new, number + 1);
    write_piece(world, Stream::Vcd, text, &mut out.done)
}

// Writes what is wanted of an eval besides its line.
fn write_besides<W: World>(
    built: &Built,
    texts: &Texts,
    number: u64,
    calls: &[CallRec],
    old: &[Bits],
    new: &[Bits],
    out: &mut Output,
    world: &mut W,
) -> Result<(), SessionFault>
    requires opened { IsOpened texts.now (W.told world.old).made }
    requires room { HasRoom texts.now built.now out.old }
    requires calls { length calls.now ≤ call_room built.now }
    requires old { widths_of old.now ≡ widths_of_vars built.now.design.vars }
    requires new { widths_of new.now ≡ widths_of_vars built.now.design.vars }
    requires few { (number + 1 < 2 ^ 64) × (out.old.done + 2 < 2 ^ 64) }
    ensures room { HasRoom texts.now built.now out.new }
    ensures wrote { DoneOrStopped (besides texts.now built.now.design number calls.now old.now new.now) None result (mark out.old.done (W.told world.old)) (mark out.new.done (W.told world.new)) }
    ensures made { (W.told world.new).made ≡ (W.told world.old).made }
    ensures two { out.new.done ≤ out.old.done + 2 }
{
    match write_calls(built, texts, number, calls, out, world) {
        Ok(()) => write_changes(built, texts, number, old, new, out, world),
        Err(fault) => Err(fault),
    }
}

// Writes the texts of an eval: its line first.
fn write_texts<W: World>(
    built: &Built,
    texts: &Texts,
    number: u64,
    calls: &[CallRec],
    old: &[Bits],
    new: &[Bits],
    out: &mut Output,
    world: &mut W,
) -> Result<(), SessionFault>
    requires opened { IsOpened texts.now (W.told world.old).made }
    requires room { HasRoom texts.now built.now out.old }
    requires calls { length calls.now ≤ call_room built.now }
    requires old { widths_of old.now ≡ widths_of_vars built.now.design.vars }
    requires new { widths_of new.now ≡ widths_of_vars built.now.design.vars }
    requires few { (number + 1 < 2 ^ 64) × (out.old.done + 3 < 2 ^ 64) }
    ensures room { HasRoom texts.now built.now out.new }
    ensures wrote { DoneOrStopped (all_texts texts.now built.now.design number calls.now old.now new.now) None result (mark out.old.done (W.told world.old)) (mark out.new.done (W.told world.new)) }
    ensures made { (W.told world.new).made ≡ (W.told world.old).made }
    ensures three { out.new.done ≤ out.old.done + 3 }
{
    match write_line(built, texts, number, new, out, world) {
        Ok(()) => write_besides(built, texts, number, calls, old, new, out, world),
        Err(fault) => Err(fault),
    }
}

/// One eval on what is set, and its texts.
pub fn run_eval<R: Runner, W: World>(
    runner: &mut R,
    built: &Built,
    texts: &Texts,
    session: &mut Session,
    world: &mut W,
) -> Result<(), SessionFault>
    requires same { R.built runner.old ≡ built.now }
    requires ready { IsReady texts.now built.now session.old (R.machine runner.old) }
    requires opened { IsOpened texts.now (W.told world.old).made }
    requires few { session.old.number + 1 < 2 ^ 60 }
    ensures same { R.built runner.new ≡ built.now }
    ensures ready { OnOk result (IsReady texts.now built.now session.new (R.machine runner.new)) }
    ensures set { OnOk result (session.new.set.items ≡ session.old.set.items) }
    ensures ran { RanOrStopped (setting R.Host.answer R.Host.after built.now texts.now) (inputs_at built.now.design.ports session.old.set.items ∷ []) result (stand session.old (R.machine runner.old) (W.told world.old)) (stand session.new (R.machine runner.new) (W.told world.new)) }
{
    match advance(
        runner,
        built,
        session.set.as_slice(),
        &mut session.inputs,
        &mut session.after,
    ) {
        Ok(()) => {}
        Err(_) => return Err(SessionFault::NotConverged(session.number)),
    }
    match write_texts(
        built,
        texts,
        session.number,
        runner.calls(),
        session.before.as_slice(),
        session.after.as_slice(),
        &mut session.out,
        world,
    ) {
        Ok(()) => {}
        Err(fault) => return Err(fault),
    }
    swap(&mut session.before, &mut session.after);
    session.number += 1;
    Ok(())
}
