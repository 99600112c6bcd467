// Files and texts whole, over any world.
ghost use Rattle.std.specs.Prelude.{◌≡◌, ◌≤◌, ◌<◌, length, take, IfOk, OnOk, OnErr, IfErr, IsErrOf};
ghost use Rattle.std.specs.Option.{option_map};
ghost use Rattle.vs_world.specs.Outside.{appended, IsOpen, Rose, ReadCause, OnlyReads, OnlyWrites, IsWhole, IsLonger};

use crate::world::{Stream, World};
use std::alloc::Global;
use thiserror::Error;

/// Writes all bytes, or exactly the first n of them where it answers `Err(n)`, which comes only where the outside failed. It takes no
/// memory, and makes no call where there are no bytes.
pub fn write_all<W: World>(world: &mut W, stream: Stream, bytes: &[u8]) -> Result<(), u64>
    requires { IsOpen (W.told world.old).made stream }
    ensures ok { OnOk result ((W.told world.new).written ≡ option_map (appended stream bytes.now) (W.told world.old).written) }
    ensures err { IfErr result (λ n. (n < length bytes.now) × ((W.told world.new).written ≡ option_map (appended stream (take n bytes.now)) (W.told world.old).written)) }
    ensures cause { OnErr result (Rose (W.told world.old).faults (W.told world.new).faults) }
    ensures no_call { length bytes.now ≡ 0 → world.new ≡ world.old }
    ensures rest { OnlyWrites (W.told world.old) (W.told world.new) }
{
    let mut at = 0;
    'pieces: while at < bytes.len() {
        match world.write(stream, &bytes[at..]) {
            Ok(n) => at += n,
            Err(_) => return Err(at as u64),
        }
    }
    Ok(())
}

/// Why a file was not read whole.
#[derive(Clone, Copy, Debug, PartialEq, Eq, Error)]
pub enum ReadFault {
    /// The outside failed, or there is no such file.
    #[error("the file was not read")]
    World,
    /// The file has more bytes than the limit.
    #[error("the file is too long")]
    TooLong,
    /// Want of memory.
    #[error("out of memory")]
    NoMemory,
}

// How many bytes a call of `read` may move.
const CHUNK: usize = 65_536;

/// The file whole, of at most `limit` bytes. Where no read fails and there is memory, `TooLong` comes exactly where the file has more
/// than `limit` bytes. A file that is not there gives `World`.
pub fn read_all<W: World>(
    alloc: Global,
    world: &mut W,
    name: &[u8],
    limit: u64,
) -> Result<Vec<u8>, ReadFault>
    ensures ok { IfOk result (λ v. IsWhole (W.told world.old).files name.now v.items) }
    ensures bound { IfOk result (λ v. length v.items ≤ limit) }
    ensures cause { IsErrOf result ReadFault.World → ReadCause name.now (W.told world.old) (W.told world.new) }
    ensures too_long { IsErrOf result ReadFault.TooLong → IsLonger (W.told world.old).files name.now limit }
    ensures rest { OnlyReads name.now (W.told world.old) (W.told world.new) }
{
    let mut out = Vec::new(alloc);
    let mut chunk = [0u8; CHUNK];
    'turns: loop {
        let n = match world.read(name, out.len() as u64, &mut chunk) {
            Ok(n) => n,
            Err(_) => return Err(ReadFault::World),
        };
        if n == 0 {
            return Ok(out);
        }
        if n as u64 > limit - out.len() as u64 {
            return Err(ReadFault::TooLong);
        }
        if out.extend_from_slice(&chunk[..n]).is_err() {
            return Err(ReadFault::NoMemory);
        }
    }
}
