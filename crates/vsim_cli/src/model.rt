// The model of the laid out design, and its run.
ghost use Rattle.std.specs.Prelude.{◌≡◌, ◌≤◌, List, length, IfOk, IfErr, OnOk, IfSome};
ghost use Rattle.vs_world.specs.declared.world.Stream.TheVariants.{Calls as CallStream, Vcd as VcdStream};
ghost use Rattle.vs_world.specs.Outside.{IsCreatable};
ghost use Rattle.run_status.specs.Stages.{RefusedBy, Came, Finished};
ghost use Rattle.run_status.specs.Lines.{Text as TextOf};
ghost use Rattle.vsim_cli.specs.Case.{Command as CommandOf, command_by, host_view, bytes_by};
ghost use Rattle.vsim_cli.specs.Refusals.{ending_of};
ghost use Rattle.vsim_cli.specs.Model.{ModelRefused, IsModel};
ghost use Rattle.vsim_cli.specs.Run.{bytes_answer, built_answer};

use crate::command::Command;
use crate::refusal::Refusal;
use dpi_host::{Host, Mode};
use model_build::build;
use plain_runner::PlainRunner;
use plan_types::Built;
use rtl_flat::flatten;
use sim_session::run;
use std::alloc::Global;
use stimulus::read_stim;
use sv_elab::Scopes;
use sv_tree::{Names, SourceTree};
use vs_world::World;

/// The model of the design that is laid out in these scopes.
pub fn model_of<H: Host>(
    alloc: Global,
    mode: Mode,
    names: &Names,
    tree: &SourceTree,
    scopes: &Scopes,
    host: &H,
) -> Result<Built, Refusal>
    ensures model { IfOk result (IsModel mode (host_view (H.id_of (H.fixed host.now)) (H.by_args (H.fixed host.now)) H.answer H.after (H.fixed host.now) (H.state host.now)) names.now tree.now scopes.now.scopes.items) }
    ensures refusal { IfErr result (λ r. (c : CommandOf) → RefusedBy (ending_of c names.now r) (ModelRefused c.files mode (host_view (H.id_of (H.fixed host.now)) (H.by_args (H.fixed host.now)) H.answer H.after (H.fixed host.now) (H.state host.now)) names.now tree.now scopes.now.scopes.items)) }
{
    let Ok(design) = flatten(alloc, tree, names, scopes) else {
        return Err(Refusal::NoMemory);
    };
    match build(alloc, design, mode, host) {
        Ok(built) => Ok(built),
        Err(fault) => Err(Refusal::Model(fault)),
    }
}

// Reads the acts of the stimulus, and runs them on the model.
fn run_stimulus<W: World, H: Host>(
    alloc: Global,
    world: &mut W,
    command: &Command,
    stim: &[u8],
    built: &Built,
    host: H,
) -> Result<(), Refusal>
    requires calls { IsCreatable (W.told world.old).made CallStream }
    requires vcd { IsCreatable (W.told world.old).made VcdStream }
    requires short { length stim.now ≤ 4194304 }
    ensures done { OnOk result (Finished (λ a. a ≡ bytes_answer (command_by command.now) (host_view (H.id_of (H.fixed host)) (H.by_args (H.fixed host)) H.answer H.after (H.fixed host) (H.state host)) built.now stim.now) (W.told world.old) (W.told world.new)) }
    ensures came { IfErr result (λ r. (named table : List TextOf) → Came (λ a. a ≡ bytes_answer (command_by command.now) (host_view (H.id_of (H.fixed host)) (H.by_args (H.fixed host)) H.answer H.after (H.fixed host) (H.state host)) built.now stim.now) named (ending_of (command_by command.now) table r) (W.told world.old) (W.told world.new)) }
{
    let acts = match read_stim(alloc, stim, &built.design) {
        Ok(acts) => acts,
        Err(fault) => return Err(Refusal::Stimulus(fault)),
    };
    let Ok(mut runner) = PlainRunner::open(alloc, built, host) else {
        return Err(Refusal::NoMemory);
    };
    match run(alloc, &mut runner, built, &acts, &command.texts, world) {
        Ok(_) => Ok(()),
        Err(fault) => Err(Refusal::Run(fault)),
    }
}

/// Runs the model, where there is a stimulus.
pub fn run_model<W: World, H: Host>(
    alloc: Global,
    world: &mut W,
    command: &Command,
    stim: &Option<Vec<u8>>,
    built: &Built,
    host: H,
) -> Result<(), Refusal>
    requires calls { IsCreatable (W.told world.old).made CallStream }
    requires vcd { IsCreatable (W.told world.old).made VcdStream }
    requires short { IfSome stim.now (λ s. length s.items ≤ 4194304) }
    ensures done { OnOk result (Finished (λ a. a ≡ built_answer (command_by command.now) (host_view (H.id_of (H.fixed host)) (H.by_args (H.fixed host)) H.answer H.after (H.fixed host) (H.state host)) built.now (bytes_by stim.now)) (W.told world.old) (W.told world.new)) }
    ensures came { IfErr result (λ r. (named table : List TextOf) → Came (λ a. a ≡ built_answer (command_by command.now) (host_view (H.id_of (H.fixed host)) (H.by_args (H.fixed host)) H.answer H.after (H.fixed host) (H.state host)) built.now (bytes_by stim.now)) named (ending_of (command_by command.now) table r) (W.told world.old) (W.told world.new)) }
{
    let Some(bytes) = stim else {
        return Ok(());
    };
    match run_stimulus(alloc, world, command, bytes, built, host) {
        Ok(()) => Ok(()),
        Err(refusal) => Err(refusal),
    }
}
