ghost use Rattle.std.specs.Prelude.{◌≡◌, ◌↔◌, ℕ, List, Bool, IsTrue, Option, IfOk};
ghost use Rattle.dpi_host.specs.HostMachine.{Answer, After, IsByArgs};

use crate::NoMemory;
use std::alloc::Global;
use std::marker::{Send, Sync};

/// The answers of the imports that answer by their arguments alone. Several threads may ask at a
/// time.
pub trait Answers: Send + Sync + Drop {
    /// Whether an import answers by its arguments alone, by its number.
    ghost by_args: { Self → ℕ → Bool };

    /// What it answers to a list of arguments.
    ghost answer: { Self → ℕ → List ℕ → ℕ };

    /// The answer of an import by arguments alone, of 64 bits. A missing argument is read as 0, and
    /// a further one is ignored. Takes no memory.
    fn answer(&self, id: u32, args: &[u64]) -> u64
        requires { IsTrue (by_args self.now id) }
        ensures { result ≡ answer self.now id args.now };
}

/// What a design calls. An import is named by the number that `find` gave; at any other number
/// each call is defined too, and means nothing.
pub trait Host: Send + Drop {
    /// What `share` makes.
    type Shared: Answers;

    /// What no call changes. The functions below take it first.
    ghost fixed: { Self → List (List ℕ) };

    /// What a call may read and change.
    ghost state: { Self → List ℕ };

    /// The number of the import of a name, if there is one.
    ghost id_of: { List (List ℕ) → List ℕ → Option ℕ };

    /// What a call of an import answers in a state to a list of arguments.
    ghost answer: { Answer };

    /// The state that the call leaves.
    ghost after: { After };

    /// Whether an import answers by its arguments alone.
    ghost by_args: { List (List ℕ) → ℕ → Bool };

    /// The number of the import of a name; none where the host has no import of that name. Takes no
    /// memory.
    fn find(&self, name: &[u8]) -> Option<u32>
        ensures { result ≡ id_of (fixed self.now) name.now };

    /// Whether an import answers by its arguments alone: its answer ignores the state, and its call
    /// keeps it. Takes no memory.
    fn by_args(&self, id: u32) -> bool
        ensures { result ≡ by_args (fixed self.now) id };

    /// Calls an import. A missing argument is read as 0, and a further one is ignored. The answer
    /// has 64 bits, and the caller cuts it to the width of the declared result. Takes no memory.
    fn call(&mut self, id: u32, args: &[u64]) -> u64
        ensures answer { result ≡ answer (fixed self.old) (state self.old) id args.now }
        ensures state { state self.new ≡ after (fixed self.old) (state self.old) id args.now }
        ensures fixed { fixed self.new ≡ fixed self.old };

    /// An object for several threads, which answers as the host does wherever an import answers by
    /// its arguments alone. To be called before a run begins. `NoMemory`: there was none left.
    fn share(&self, alloc: Global) -> Result<Self::Shared, NoMemory>
        ensures by_args { IfOk result (λ shared. (id : ℕ) → IsTrue (by_args (fixed self.now) id) → IsTrue (Self.Shared.by_args shared id)) }
        ensures answers { IfOk result (λ shared. (id : ℕ) (args : List ℕ) → IsTrue (by_args (fixed self.now) id) → Self.Shared.answer shared id args ≡ answer (fixed self.now) (state self.now) id args) };

    /// `by_args` holds exactly where the answer ignores the state and the call keeps it.
    ghost lawful: { (fixed : List (List ℕ)) (id : ℕ) → IsTrue (by_args fixed id) ↔ IsByArgs answer after fixed id };
}
