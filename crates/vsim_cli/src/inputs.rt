// The bytes of the files that the words name.
ghost use Rattle.std.specs.Prelude.{◌≡◌, ◌≤◌, [], length, map, All, IfOk, IfErr, IfSome};
ghost use Rattle.std.proofs.Common.{inr};
ghost use Rattle.run_status.specs.Answer.{Leaves};
ghost use Rattle.vsim_cli.specs.Case.{command_by, bytes_by};
ghost use Rattle.vsim_cli.specs.Inputs.{stim_read, inputs_by, inputs_read, NotInputs, IsNoStimulus};

use crate::command::{Command, Source};
use crate::refusal::Refusal;
use run_input::{Stop, read_files};
use std::alloc::Global;
use vs_base::Text;
use vs_base::limits::FILE_BYTES;
use vs_world::{ReadFault, World, read_all};

/// The bytes of the files of the design, and of the stimulus where there is one.
#[derive(Drop)]
pub struct Inputs {
    pub files: Vec<Vec<u8>>,
    pub stim: Option<Vec<u8>>,
}

// The bytes of the stimulus, where there is one.
fn read_stimulus<W: World>(
    alloc: Global,
    world: &mut W,
    name: &Option<Text>,
) -> Result<Option<Vec<u8>>, ReadFault>
    ensures found { IfOk result (λ v. IfSome (W.told world.old).files (λ files. stim_read files name.now ≡ inr (bytes_by v))) }
    ensures few { IfOk result (λ v. IfSome v (λ bytes. length bytes.items ≤ 4194304)) }
    ensures stop { IfErr result (λ f. IsNoStimulus f name.now (W.told world.old) (W.told world.new)) }
    ensures rest { Leaves [] (W.told world.old) (W.told world.new) }
{
    let Some(name) = name else {
        return Ok(None);
    };
    match read_all(alloc, world, name.as_bytes(), FILE_BYTES) {
        Ok(bytes) => Ok(Some(bytes)),
        Err(fault) => Err(fault),
    }
}

/// The bytes of all files, those of the design and then that of the stimulus; or the first that was not read, and why.
pub fn read_inputs<W: World>(
    alloc: Global,
    world: &mut W,
    command: &Command,
) -> Result<Inputs, Refusal>
    ensures found { IfOk result (λ i. IfSome (W.told world.old).files (λ files. inputs_read files (command_by command.now) ≡ inr (inputs_by i))) }
    ensures few { IfOk result (λ i. All (λ bytes. length bytes.items ≤ 4194304) i.files.items) }
    ensures count { IfOk result (λ i. length i.files.items ≡ length command.now.files.items) }
    ensures short { IfOk result (λ i. IfSome i.stim (λ bytes. length bytes.items ≤ 4194304)) }
    ensures stop { IfErr result (λ r. NotInputs r (command_by command.now) (W.told world.old) (W.told world.new)) }
    ensures rest { Leaves [] (W.told world.old) (W.told world.new) }
{
    let files = match read_files(alloc, world, command.files.as_slice()) {
        Ok(files) => files,
        Err(Stop { at, fault }) => return Err(Refusal::Reading(Source::Design(at), fault)),
    };
    match read_stimulus(alloc, world, &command.stim) {
        Ok(stim) => Ok(Inputs { files, stim }),
        Err(fault) => Err(Refusal::Reading(Source::Stimulus, fault)),
    }
}
