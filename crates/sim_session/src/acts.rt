//! The acts of a stimulus.
ghost use Rattle.std.specs.Prelude.{◌≡◌, ◌≤◌, ◌<◌, ◌+◌, ◌*◌, ◌^◌, OnOk, true, slice_set};
ghost use Rattle.std.specs.List.{list_all};
ghost use Rattle.std.specs.Option.{option_copied};
ghost use Rattle.vs_base.specs.Number.{kept};
ghost use Rattle.stimulus.specs.Stimulus.{act_fits, design_ports, evals_of, evals_in};
ghost use Rattle.sim_session.specs.Inputs.{width_if, width_at, with_number, number_inputs, lowered, turn_inputs, turns_inputs, after_turns, act_inputs, after_act, inputs_from};
ghost use Rattle.sim_session.specs.Runs.{setting};
ghost use Rattle.sim_session.specs.Ends.{stand, RanOrStopped};
ghost use Rattle.sim_session.specs.Ready.{IsOpened, IsReady, Keeps};

use crate::eval::run_eval;
use crate::fault::SessionFault;
use crate::session::Session;
use crate::texts::Texts;
use crate::values::var_width;
use plan_types::{Built, Runner};
use rtl_ir::{Design, Port, Var};
use sqlite_items::at;
use vs_base::{Act, Bits};
use vs_world::World;

// The width of a port; 1 where there is none.
fn port_width(vars: &[Var], port: Option<&Port>) -> u32
    ensures value { result ≡ width_if vars.now (option_copied port.entry) }
    ensures some { 1 ≤ result }
    ensures most { result ≤ 128 }
{
    match port {
        Some(port) => var_width(at(vars, port.var as usize)),
        None => 1,
    }
}

// A number, as wide as the port at a place.
fn number_for(design: &Design, place: u32, number: u128) -> Bits
    ensures { result ≡ kept (width_at design.now.vars design.now.ports place) number }
{
    let port = at(design.ports.as_slice(), place as usize);
    Bits::new(port_width(design.vars.as_slice(), port), number)
}

// The port at a place is given a value.
fn set_port(session: &mut Session, place: u32, value: Bits)
    ensures set { session.new.set.items ≡ slice_set session.old.set.items place value }
    ensures rest { Keeps session.old session.new }
{
    let place = place as usize;
    if place < session.set.len() {
        session.set[place] = value;
    }
}

// The port at a place is given a number, and an eval is made.
fn run_number<R: Runner, W: World>(
    runner: &mut R,
    built: &Built,
    texts: &Texts,
    place: u32,
    number: u128,
    session: &mut Session,
    world: &mut W,
) -> Result<(), SessionFault>
    requires same { R.built runner.old ≡ built.now }
    requires ready { IsReady texts.now built.now session.old (R.machine runner.old) }
    requires opened { IsOpened texts.now (W.told world.old).made }
    requires few { session.old.number + 1 < 2 ^ 60 }
    ensures same { R.built runner.new ≡ built.now }
    ensures ready { OnOk result (IsReady texts.now built.now session.new (R.machine runner.new)) }
    ensures set { OnOk result (session.new.set.items ≡ with_number built.now.design place number session.old.set.items) }
    ensures ran { RanOrStopped (setting R.Host.answer R.Host.after built.now texts.now) (number_inputs built.now.design place number session.old.set.items) result (stand session.old (R.machine runner.old) (W.told world.old)) (stand session.new (R.machine runner.new) (W.told world.new)) }
{
    set_port(session, place, number_for(&built.design, place, number));
    run_eval(runner, built, texts, session, world)
}

// A turn of a clock: its port is 1 at an eval and then 0 at one.
fn run_turn<R: Runner, W: World>(
    runner: &mut R,
    built: &Built,
    texts: &Texts,
    place: u32,
    session: &mut Session,
    world: &mut W,
) -> Result<(), SessionFault>
    requires same { R.built runner.old ≡ built.now }
    requires ready { IsReady texts.now built.now session.old (R.machine runner.old) }
    requires opened { IsOpened texts.now (W.told world.old).made }
    requires few { session.old.number + 2 < 2 ^ 60 }
    ensures same { R.built runner.new ≡ built.now }
    ensures ready { OnOk result (IsReady texts.now built.now session.new (R.machine runner.new)) }
    ensures set { OnOk result (session.new.set.items ≡ lowered built.now.design place session.old.set.items) }
    ensures ran { RanOrStopped (setting R.Host.answer R.Host.after built.now texts.now) (turn_inputs built.now.design place session.old.set.items) result (stand session.old (R.machine runner.old) (W.told world.old)) (stand session.new (R.machine runner.new) (W.told world.new)) }
{
    match run_number(runner, built, texts, place, 1, session, world) {
        Ok(()) => run_number(runner, built, texts, place, 0, session, world),
        Err(fault) => Err(fault),
    }
}

// So many turns of a clock.
fn run_turns<R: Runner, W: World>(
    runner: &mut R,
    built: &Built,
    texts: &Texts,
    place: u32,
    turns: u32,
    session: &mut Session,
    world: &mut W,
) -> Result<(), SessionFault>
    requires same { R.built runner.old ≡ built.now }
    requires ready { IsReady texts.now built.now session.old (R.machine runner.old) }
    requires opened { IsOpened texts.now (W.told world.old).made }
    requires few { session.old.number + (2 * turns + 1) < 2 ^ 60 }
    ensures same { R.built runner.new ≡ built.now }
    ensures ready { OnOk result (IsReady texts.now built.now session.new (R.machine runner.new)) }
    ensures set { OnOk result (session.new.set.items ≡ after_turns built.now.design place turns session.old.set.items) }
    ensures ran { RanOrStopped (setting R.Host.answer R.Host.after built.now texts.now) (turns_inputs built.now.design place turns session.old.set.items) result (stand session.old (R.machine runner.old) (W.told world.old)) (stand session.new (R.machine runner.new) (W.told world.new)) }
{
    let mut left = turns;
    'turns: while left > 0 {
        match run_turn(runner, built, texts, place, session, world) {
            Ok(()) => {}
            Err(fault) => return Err(fault),
        }
        left -= 1;
    }
    Ok(())
}

// One act.
fn run_act<R: Runner, W: World>(
    runner: &mut R,
    built: &Built,
    texts: &Texts,
    act: Act,
    session: &mut Session,
    world: &mut W,
) -> Result<(), SessionFault>
    requires same { R.built runner.old ≡ built.now }
    requires ready { IsReady texts.now built.now session.old (R.machine runner.old) }
    requires opened { IsOpened texts.now (W.told world.old).made }
    requires fits { act_fits (design_ports built.now.design) act ≡ true }
    requires few { session.old.number + (evals_of act + 1) < 2 ^ 60 }
    ensures same { R.built runner.new ≡ built.now }
    ensures ready { OnOk result (IsReady texts.now built.now session.new (R.machine runner.new)) }
    ensures set { OnOk result (session.new.set.items ≡ after_act built.now.design act session.old.set.items) }
    ensures ran { RanOrStopped (setting R.Host.answer R.Host.after built.now texts.now) (act_inputs built.now.design act session.old.set.items) result (stand session.old (R.machine runner.old) (W.told world.old)) (stand session.new (R.machine runner.new) (W.told world.new)) }
{
    match act {
        Act::Set { port, value } => {
            set_port(session, port, value);
            Ok(())
        }
        Act::Eval => run_eval(runner, built, texts, session, world),
        Act::Clock { port, turns } => {
            run_turns(runner, built, texts, port, turns, session, world)
        }
    }
}

/// The acts, one after another.
pub fn run_acts<R: Runner, W: World>(
    runner: &mut R,
    built: &Built,
    texts: &Texts,
    acts: &[Act],
    session: &mut Session,
    world: &mut W,
) -> Result<(), SessionFault>
    requires same { R.built runner.old ≡ built.now }
    requires ready { IsReady texts.now built.now session.old (R.machine runner.old) }
    requires opened { IsOpened texts.now (W.told world.old).made }
    requires fits { list_all (act_fits (design_ports built.now.design)) acts.now ≡ true }
    requires few { session.old.number + (evals_in acts.now + 1) < 2 ^ 60 }
    ensures same { R.built runner.new ≡ built.now }
    ensures ran { RanOrStopped (setting R.Host.answer R.Host.after built.now texts.now) (inputs_from built.now.design acts.now session.old.set.items) result (stand session.old (R.machine runner.old) (W.told world.old)) (stand session.new (R.machine runner.new) (W.told world.new)) }
{
    let mut rest = acts;
    'acts: while let [act, more @ ..] = rest {
        match run_act(runner, built, texts, *act, session, world) {
            Ok(()) => {}
            Err(fault) => return Err(fault),
        }
        rest = more;
    }
    Ok(())
}
