//! A whole run.
ghost use Rattle.std.specs.Prelude.{◌≡◌, ◌<◌, ◌≤◌, ◌+◌, ◌^◌, length, OnOk, IfOk, true, None, is_some};
ghost use Rattle.std.specs.List.{list_all};
ghost use Rattle.vs_base.specs.declared.limits.TheConstants.{EVALS};
ghost use Rattle.vs_world.specs.declared.world.Stream.TheVariants.{Calls as CallStream, Vcd as VcdStream};
ghost use Rattle.vs_world.specs.Outside.{IsOpen, IsCreatable};
ghost use Rattle.vcd_out.specs.Header as head;
ghost use Rattle.stimulus.specs.Stimulus.{act_fits, design_ports, evals_in};
ghost use Rattle.sim_session.specs.Inputs.{opening_ports, inputs_of};
ghost use Rattle.sim_session.specs.Runs.{setting, after_evals, header_entries};
ghost use Rattle.sim_session.specs.Ends.{mark, DoneOrStopped, TextsDone, SessionDone, RunEnded};
ghost use Rattle.sim_session.specs.Ready.{IsOpened, IsReady};

use crate::acts::run_acts;
use crate::create::create_files;
use crate::fault::SessionFault;
use crate::open::open;
use crate::piece::write_piece;
use crate::session::Session;
use crate::texts::Texts;
use plan_types::{Built, Runner};
use rtl_ir::Design;
use std::alloc::Global;
use vcd_out::{NoMemory, header};
use vs_base::Act;
use vs_world::{Stream, World};

// The header, where a waveform is wanted.
fn header_if(alloc: Global, design: &Design, texts: &Texts) -> Result<Vec<u8>, NoMemory>
    ensures { IfOk result (λ text. is_some texts.now.vcd ≡ true → text.items ≡ head.header_text design.now.vars design.now.scopes) }
{
    if !texts.vcd.is_some() {
        return Ok(Vec::new(alloc));
    }
    header(alloc, design)
}

// Writes the header, where a waveform is wanted.
fn write_header<W: World>(
    design: &Design,
    texts: &Texts,
    text: &[u8],
    done: &mut u64,
    world: &mut W,
) -> Result<(), SessionFault>
    requires opened { is_some texts.now.vcd ≡ true → IsOpen (W.told world.old).made VcdStream }
    requires text { is_some texts.now.vcd ≡ true → text.now ≡ head.header_text design.now.vars design.now.scopes }
    requires few { done.old + 1 < 2 ^ 64 }
    ensures wrote { DoneOrStopped (header_entries (is_some texts.now.vcd) design.now) None result (mark done.old (W.told world.old)) (mark done.new (W.told world.new)) }
    ensures made { (W.told world.new).made ≡ (W.told world.old).made }
    ensures one { done.new ≤ done.old + 1 }
{
    if !texts.vcd.is_some() {
        return Ok(());
    }
    write_piece(world, Stream::Vcd, text, done)
}

// The header, and then the acts.
fn run_texts<R: Runner, W: World>(
    runner: &mut R,
    built: &Built,
    texts: &Texts,
    text: &[u8],
    acts: &[Act],
    session: &mut Session,
    world: &mut W,
) -> Result<(), SessionFault>
    requires same { R.built runner.old ≡ built.now }
    requires ready { IsReady texts.now built.now session.old (R.machine runner.old) }
    requires opened { IsOpened texts.now (W.told world.old).made }
    requires text { is_some texts.now.vcd ≡ true → text.now ≡ head.header_text built.now.design.vars built.now.design.scopes }
    requires set { session.old.set.items ≡ opening_ports built.now.design.vars built.now.design.ports }
    requires number { session.old.number ≡ 0 }
    requires done { session.old.out.done ≤ 2 }
    requires fits { list_all (act_fits (design_ports built.now.design)) acts.now ≡ true }
    requires few { evals_in acts.now ≤ EVALS }
    ensures same { R.built runner.new ≡ built.now }
    ensures machine { OnOk result (R.machine runner.new ≡ after_evals (setting R.Host.answer R.Host.after built.now texts.now) (inputs_of built.now.design acts.now) (R.machine runner.old)) }
    ensures number { OnOk result (session.new.number ≡ length (inputs_of built.now.design acts.now)) }
    ensures wrote { TextsDone (setting R.Host.answer R.Host.after built.now texts.now) (R.machine runner.old) (inputs_of built.now.design acts.now) result (mark session.old.out.done (W.told world.old)) (mark session.new.out.done (W.told world.new)) }
{
    match write_header(&built.design, texts, text, &mut session.out.done, world) {
        Ok(()) => run_acts(runner, built, texts, acts, session, world),
        Err(fault) => Err(fault),
    }
}

// The files, and then the texts.
fn run_session<R: Runner, W: World>(
    runner: &mut R,
    built: &Built,
    texts: &Texts,
    text: &[u8],
    acts: &[Act],
    session: &mut Session,
    world: &mut W,
) -> Result<(), SessionFault>
    requires same { R.built runner.old ≡ built.now }
    requires ready { IsReady texts.now built.now session.old (R.machine runner.old) }
    requires calls { IsCreatable (W.told world.old).made CallStream }
    requires vcd { IsCreatable (W.told world.old).made VcdStream }
    requires text { is_some texts.now.vcd ≡ true → text.now ≡ head.header_text built.now.design.vars built.now.design.scopes }
    requires set { session.old.set.items ≡ opening_ports built.now.design.vars built.now.design.ports }
    requires number { session.old.number ≡ 0 }
    requires done { session.old.out.done ≡ 0 }
    requires fits { list_all (act_fits (design_ports built.now.design)) acts.now ≡ true }
    requires few { evals_in acts.now ≤ EVALS }
    ensures same { R.built runner.new ≡ built.now }
    ensures machine { OnOk result (R.machine runner.new ≡ after_evals (setting R.Host.answer R.Host.after built.now texts.now) (inputs_of built.now.design acts.now) (R.machine runner.old)) }
    ensures number { OnOk result (session.new.number ≡ length (inputs_of built.now.design acts.now)) }
    ensures ended { SessionDone (setting R.Host.answer R.Host.after built.now texts.now) (R.machine runner.old) (inputs_of built.now.design acts.now) result (mark session.old.out.done (W.told world.old)) (mark session.new.out.done (W.told world.new)) }
{
    match create_files(world, texts, &mut session.out.done) {
        Ok(()) => run_texts(runner, built, texts, text, acts, session, world),
        Err(fault) => Err(fault),
    }
}

/// Runs the acts and writes their texts, each eval's before the next eval begins. `Ok` has the number of evals.
///
/// First all memory of the run is taken: at `NoMemory` nothing was created and nothing written. Then the files that are
/// wanted are created, the call log before the waveform; then the header of the waveform is written, and for each eval its
/// line, its calls, where there are any, and its changes. Each of these is an entry of the run. `World` comes only where the
/// world failed, and tells at which entry and byte. At `NotConverged` the entries of all evals before that one were done.
pub fn run<R: Runner, W: World>(
    alloc: Global,
    runner: &mut R,
    built: &Built,
    acts: &[Act],
    texts: &Texts,
    world: &mut W,
) -> Result<u64, SessionFault>
    requires same { R.built runner.old ≡ built.now }
    requires words { length (R.machine runner.old).outside.words ≡ length built.now.layout.words.items }
    requires calls { IsCreatable (W.told world.old).made CallStream }
    requires vcd { IsCreatable (W.told world.old).made VcdStream }
    requires fits { list_all (act_fits (design_ports built.now.design)) acts.now ≡ true }
    requires few { evals_in acts.now ≤ EVALS }
    ensures ended { RunEnded (setting R.Host.answer R.Host.after built.now texts.now) (R.machine runner.old) (inputs_of built.now.design acts.now) result (W.told world.old) (W.told world.new) }
    ensures machine { OnOk result (R.machine runner.new ≡ after_evals (setting R.Host.answer R.Host.after built.now texts.now) (inputs_of built.now.design acts.now) (R.machine runner.old)) }
    ensures same { R.built runner.new ≡ built.now }
{
    let Ok(mut session) = open(alloc, runner, built, texts) else {
        return Err(SessionFault::NoMemory);
    };
    let Ok(text) = header_if(alloc, &built.design, texts) else {
        return Err(SessionFault::NoMemory);
    };
    match run_session(runner, built, texts, &text, acts, &mut session, world) {
        Ok(()) => Ok(session.number),
        Err(fault) => Err(fault),
    }
}
