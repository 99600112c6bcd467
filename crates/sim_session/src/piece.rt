//! Writing a piece.
ghost use Rattle.std.specs.Prelude.{◌≡◌, ◌<◌, ◌≤◌, ◌+◌, ◌^◌, ◌∷◌, [], None};
ghost use Rattle.vs_world.specs.Outside.{IsOpen};
ghost use Rattle.vs_world.specs.Entries.{Writes};
ghost use Rattle.sim_session.specs.Ends.{mark, DoneOrStopped};

use crate::fault::SessionFault;
use vs_world::{Stream, World, write_all};

/// Writes bytes to a stream, and counts them as one entry.
pub fn write_piece<W: World>(
    world: &mut W,
    stream: Stream,
    bytes: &[u8],
    done: &mut u64,
) -> Result<(), SessionFault>
    requires open { IsOpen (W.told world.old).made stream }
    requires few { done.old + 1 < 2 ^ 64 }
    ensures wrote { DoneOrStopped (Writes stream bytes.now ∷ []) None result (mark done.old (W.told world.old)) (mark done.new (W.told world.new)) }
    ensures made { (W.told world.new).made ≡ (W.told world.old).made }
    ensures one { done.new ≤ done.old + 1 }
{
    match write_all(world, stream, bytes) {
        Ok(()) => {
            *done += 1;
            Ok(())
        }
        Err(sent) => Err(SessionFault::World {
            stream,
            pieces: *done,
            bytes: sent,
        }),
    }
}
