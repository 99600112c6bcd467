//! The files of a run.
ghost use Rattle.std.specs.Prelude.{◌<◌, ◌≤◌, ◌+◌, ◌^◌, OnOk, None};
ghost use Rattle.std.specs.Option.{option_copied};
ghost use Rattle.vs_world.specs.declared.world.Stream.TheVariants.{Calls as CallStream, Vcd as VcdStream};
ghost use Rattle.vs_world.specs.Outside.{IsCreatable};
ghost use Rattle.sim_session.specs.Runs.{creation, creations};
ghost use Rattle.sim_session.specs.Ends.{mark, DoneOrStopped};
ghost use Rattle.sim_session.specs.Ready.{IsOpened};

use crate::fault::SessionFault;
use crate::texts::Texts;
use vs_base::Text;
use vs_world::{Stream, World};

// Creates the file of a stream, where it has a name, and counts it as one entry.
fn create_file<W: World>(
    world: &mut W,
    stream: Stream,
    name: Option<&Text>,
    done: &mut u64,
) -> Result<(), SessionFault>
    requires free { IsCreatable (W.told world.old).made stream }
    requires few { done.old + 1 < 2 ^ 64 }
    ensures created { DoneOrStopped (creation stream (option_copied name.entry)) None result (mark done.old (W.told world.old)) (mark done.new (W.told world.new)) }
    ensures one { done.new ≤ done.old + 1 }
{
    let Some(name) = name else {
        return Ok(());
    };
    match world.create(stream, name.as_bytes()) {
        Ok(()) => {
            *done += 1;
            Ok(())
        }
        Err(_) => Err(SessionFault::World {
            stream,
            pieces: *done,
            bytes: 0,
        }),
    }
}

/// Creates the files that are wanted, the call log before the waveform.
pub fn create_files<W: World>(
    world: &mut W,
    texts: &Texts,
    done: &mut u64,
) -> Result<(), SessionFault>
    requires calls { IsCreatable (W.told world.old).made CallStream }
    requires vcd { IsCreatable (W.told world.old).made VcdStream }
    requires few { done.old + 2 < 2 ^ 64 }
    ensures created { DoneOrStopped (creations texts.now) None result (mark done.old (W.told world.old)) (mark done.new (W.told world.new)) }
    ensures opened { OnOk result (IsOpened texts.now (W.told world.new).made) }
    ensures two { done.new ≤ done.old + 2 }
{
    match create_file(world, Stream::Calls, texts.calls.as_ref(), done) {
        Ok(()) => create_file(world, Stream::Vcd, texts.vcd.as_ref(), done),
        Err(fault) => Err(fault),
    }
}
