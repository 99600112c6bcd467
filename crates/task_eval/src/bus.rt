//! What a node runs on.
ghost use Rattle.std.specs.Prelude.{◌≡◌, ◌<◌, length, slice_index};
ghost use Rattle.task_eval.specs.Buses.{Outside, store, call, reply};

use dpi_host::Host;

/// The words and the host that a node runs on.
pub trait Bus {
    /// The host that is called.
    type Host: Host;

    /// What it shows: the words, the host, the imports, and the stores and calls made so far.
    ghost outside: { Self → Outside };

    /// The value of a word.
    fn load(&mut self, word: u32) -> u64
        requires { word < length (outside self.old).words }
        ensures value { result ≡ slice_index (outside self.old).words word }
        ensures same { outside self.new ≡ outside self.old };

    /// Gives a word a value.
    fn store(&mut self, word: u32, value: u64)
        requires { word < length (outside self.old).words }
        ensures { outside self.new ≡ store word value (outside self.old) };

    /// Calls an import by its number in the design, and gives the reply, cut to the width of its result.
    fn call(&mut self, import: u32, args: &[u64]) -> u64
        requires { import < length (outside self.old).ids }
        ensures reply { result ≡ reply Self.Host.answer Self.Host.after import args.now (outside self.old) }
        ensures call { outside self.new ≡ call Self.Host.answer Self.Host.after import args.now (outside self.old) };
}
