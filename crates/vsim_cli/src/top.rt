// The whole command.
ghost use Rattle.std.specs.Prelude.{◌≡◌, ◌≤◌, All, List, length, map, IfOk, IfErr, OnOk, string_bytes};
ghost use Rattle.vs_world.specs.declared.world.Stream.TheVariants.{Calls as CallStream, Vcd as VcdStream};
ghost use Rattle.vs_world.specs.Outside.{IsCreatable};
ghost use Rattle.run_status.specs.Answer.{Table};
ghost use Rattle.run_status.specs.Stages.{RefusedBy, Came, Finished};
ghost use Rattle.vsim_words.specs.Settings.{settings_of};
ghost use Rattle.vsim_cli.specs.Case.{command_by, host_view, names_of};
ghost use Rattle.vsim_cli.specs.Refusals.{ending_of};
ghost use Rattle.vsim_cli.specs.Answers.{CheckRefused, IsChecked, IsCommandAnswer, IsAnswer, named_in};

use crate::command::{Command, command_of};
use crate::front::{active_tokens, lay_out, tree_of};
use crate::inputs::read_inputs;
use crate::model::{model_of, run_model};
use crate::refusal::{Refusal, refuse};
use dpi_host::Host;
use fault_text::refuse_words;
use plan_types::Built;
use run_status::{Status, out_of_memory};
use std::alloc::Global;
use std::thread::Threads;
use sv_tree::Names;
use vs_world::World;
use vsim_words::{WordsFault, settings};

// The model of the design in these files: each stage of its check, in order.
fn check<H: Host>(
    alloc: Global,
    command: &Command,
    files: &[Vec<u8>],
    names: &mut Names,
    host: &H,
) -> Result<Built, Refusal>
    requires count { length files.now ≤ 64 }
    requires bytes { All (λ bytes. length bytes.items ≤ 4194304) files.now }
    ensures checked { IfOk result (IsChecked (command_by command.now) (host_view (H.id_of (H.fixed host.now)) (H.by_args (H.fixed host.now)) H.answer H.after (H.fixed host.now) (H.state host.now)) (map (λ f. f.items) files.now)) }
    ensures refusal { IfErr result (λ r. RefusedBy (ending_of (command_by command.now) names.new r) (CheckRefused (command_by command.now) (host_view (H.id_of (H.fixed host.now)) (H.by_args (H.fixed host.now)) H.answer H.after (H.fixed host.now) (H.state host.now)) (map (λ f. f.items) files.now))) }
{
    let tokens = match active_tokens(alloc, files, names) {
        Ok(tokens) => tokens,
        Err(refusal) => return Err(refusal),
    };
    let tree = match tree_of(alloc, names, &tokens) {
        Ok(tree) => tree,
        Err(refusal) => return Err(refusal),
    };
    let scopes = match lay_out(alloc, &command.top, names, &tree) {
        Ok(scopes) => scopes,
        Err(refusal) => return Err(refusal),
    };
    match model_of(alloc, command.mode, names, &tree, &scopes, host) {
        Ok(built) => Ok(built),
        Err(refusal) => Err(refusal),
    }
}

// The stages of a command, in the one order of work and of refusals.
fn stages<W: World, H: Host>(
    alloc: Global,
    world: &mut W,
    command: &Command,
    names: &mut Names,
    host: H,
) -> Result<(), Refusal>
    requires count { length command.now.files.items ≤ 64 }
    requires calls { IsCreatable (W.told world.old).made CallStream }
    requires vcd { IsCreatable (W.told world.old).made VcdStream }
    ensures done { OnOk result (Finished (IsCommandAnswer (command_by command.now) (host_view (H.id_of (H.fixed host)) (H.by_args (H.fixed host)) H.answer H.after (H.fixed host) (H.state host)) (W.told world.old).files) (W.told world.old) (W.told world.new)) }
    ensures came { IfErr result (λ r. Came (IsCommandAnswer (command_by command.now) (host_view (H.id_of (H.fixed host)) (H.by_args (H.fixed host)) H.answer H.after (H.fixed host) (H.state host)) (W.told world.old).files) (names_of (command_by command.now)) (ending_of (command_by command.now) names.new r) (W.told world.old) (W.told world.new)) }
{
    let inputs = match read_inputs(alloc, world, command) {
        Ok(inputs) => inputs,
        Err(refusal) => return Err(refusal),
    };
    let built = match check(alloc, command, inputs.files.as_slice(), names, &host) {
        Ok(built) => built,
        Err(refusal) => return Err(refusal),
    };
    match run_model(alloc, world, command, &inputs.stim, &built, host) {
        Ok(()) => Ok(()),
        Err(refusal) => Err(refusal),
    }
}

// Runs a command, and tells by its line why it ends before all is done.
fn run_command<W: World, H: Host>(
    alloc: Global,
    world: &mut W,
    command: &Command,
    host: H,
) -> Status
    requires count { length command.now.files.items ≤ 64 }
    requires calls { IsCreatable (W.told world.old).made CallStream }
    requires vcd { IsCreatable (W.told world.old).made VcdStream }
    ensures table { Table (IsCommandAnswer (command_by command.now) (host_view (H.id_of (H.fixed host)) (H.by_args (H.fixed host)) H.answer H.after (H.fixed host) (H.state host)) (W.told world.old).files) result (names_of (command_by command.now)) (W.told world.old) (W.told world.new) }
{
    let Ok(mut names) = Names::new(alloc) else {
        return out_of_memory(world);
    };
    match stages(alloc, world, command, &mut names, host) {
        Ok(()) => Status::Done,
        Err(refusal) => refuse(world, command, &names, refusal),
    }
}

/// Runs the command of these words: checks the design in 1 to 64 files (`--lint-only`) or runs it on a stimulus (`--stim`).
///
/// Gives `Done` where nothing is refused and all texts are written; `Refused` where the words, the design or the stimulus
/// are refused, by one line on standard error and nothing else, or where an eval of the run does not converge, by one line
/// after the texts of the evals before; `WorldFault` where reading, creating or writing failed, or a file is not there;
/// `NoMemory` where memory ran out, with nothing written but that line. What each says of the streams and the files is the
/// table of `run_status`. No thread is started yet.
pub fn vsim<T: Threads + Sync, W: World, H: Host>(
    _rt: &T,
    alloc: Global,
    words: &[String],
    world: &mut W,
    host: H,
) -> Status
    requires calls { IsCreatable (W.told world.old).made CallStream }
    requires vcd { IsCreatable (W.told world.old).made VcdStream }
    ensures table { Table (IsAnswer (map string_bytes words.now) (host_view (H.id_of (H.fixed host)) (H.by_args (H.fixed host)) H.answer H.after (H.fixed host) (H.state host)) (W.told world.old).files) result (named_in (settings_of (map string_bytes words.now))) (W.told world.old) (W.told world.new) }
{
    match settings(alloc, words) {
        Ok(options) => run_command(alloc, world, &command_of(options), host),
        Err(WordsFault::Usage) => refuse_words(world),
        Err(WordsFault::NoMemory) => out_of_memory(world),
    }
}
