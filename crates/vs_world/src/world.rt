// The trait: what a program may ask of the outside.
ghost use Rattle.std.specs.Prelude.{◌≡◌, ◌≤◌, ◌<◌, ◌++◌, ◌∷◌, [], length, take, IfOk, OnOk, OnErr, IfSome};
ghost use Rattle.std.specs.Option.{option_map};
ghost use Rattle.vs_world.specs.Outside.{Told, appended, IsOpen, IsCreatable, Rose, ReadsAt, ReadCause, OnlyReads, OnlyWrites, OnlyCreates};

use thiserror::Error;

/// Where bytes may go. `Out` and `Errors` are always open; `Calls` (the call log) and `Vcd` (the waveform) are files to be created.
#[derive(Clone, Copy, Debug, PartialEq, Eq)]
pub enum Stream {
    Out,
    Errors,
    Calls,
    Vcd,
}

/// A call of a world failed.
#[derive(Clone, Copy, Debug, PartialEq, Eq, Error)]
#[error("the outside failed")]
pub struct Fault;

/// The outside of a run. No call changes the files, and a call changes what was written and created only as its clauses say.
pub trait World {
    /// What the world tells: its files, the bytes written to each stream and the created files, each where it can tell them, and two
    /// counts. `faults` counts the calls that failed but for missing files, and `absent` the reads that failed since there was no
    /// such file. Both stand still at 2^64 - 1.
    ghost told: { Self → Told };

    /// Reads bytes of a file from the place `at` (counted from 0) on. `Ok(n)` put n of them first in `buf`, none exactly at or past the
    /// file's end. `Err` comes where the outside failed, and always where there is no such file.
    fn read(&mut self, name: &[u8], at: u64, buf: &mut [u8]) -> Result<usize, Fault>
        requires { 0 < length buf.old }
        ensures bound { IfOk result (λ n. n ≤ length buf.old) }
        ensures bytes { IfOk result (λ n. IfSome (told self.old).files (λ files. ReadsAt files name.now at n buf.new)) }
        ensures cause { OnErr result (ReadCause name.now (told self.old) (told self.new)) }
        ensures rest { OnlyReads name.now (told self.old) (told self.new) };

    /// Creates the file of `Calls` or `Vcd`, which has not been created before. `Err` comes only where the outside failed, and creates nothing.
    fn create(&mut self, stream: Stream, name: &[u8]) -> Result<(), Fault>
        requires { IsCreatable (told self.old).made stream }
        ensures ok { OnOk result ((told self.new).made ≡ option_map (λ made. made ++ (stream, name.now) ∷ []) (told self.old).made) }
        ensures err { OnErr result ((told self.new).made ≡ (told self.old).made) }
        ensures cause { OnErr result (Rose (told self.old).faults (told self.new).faults) }
        ensures rest { OnlyCreates (told self.old) (told self.new) };

    /// Appends the first n bytes, at least one, where it answers `Ok(n)`. `Err` comes only where the outside failed, and appends nothing.
    fn write(&mut self, stream: Stream, bytes: &[u8]) -> Result<usize, Fault>
        requires some { 0 < length bytes.now }
        requires open { IsOpen (told self.old).made stream }
        ensures bound { IfOk result (λ n. (1 ≤ n) × (n ≤ length bytes.now)) }
        ensures ok { IfOk result (λ n. (told self.new).written ≡ option_map (appended stream (take n bytes.now)) (told self.old).written) }
        ensures err { OnErr result ((told self.new).written ≡ (told self.old).written) }
        ensures cause { OnErr result (Rose (told self.old).faults (told self.new).faults) }
        ensures rest { OnlyWrites (told self.old) (told self.new) };
}
