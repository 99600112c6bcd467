//! What runs a model.
ghost use Rattle.std.specs.Prelude.{◌≡◌, ◌<◌, ◌≤◌, length, slice_index, is_ok};
ghost use Rattle.plan_types.specs.declared.built.Built.{Built};
ghost use Rattle.plan_types.specs.Machine.{Machine, evaluated, converges, kept_of, IsInput};
ghost use Rattle.plan_types.specs.Room.{call_room};

use crate::run::RunFault;
use dpi_host::{CallRec, Host};
use vs_base::Bits;

/// What runs a model, eval by eval. A run takes no memory: all that an eval needs is taken when the runner is opened.
pub trait Runner {
    /// The host that is called.
    type Host: Host;

    /// The model that it runs.
    ghost built: { Self → Built };

    /// Its state.
    ghost machine: { Self → Machine };

    /// One eval, with one value for each input port, in port order, of its width. `NotConverged`: a process still fired when the
    /// clocked nodes had run as often as they may; the state is the one at that test.
    fn eval(&mut self, inputs: &[Bits]) -> Result<(), RunFault>
        requires { IsInput (built self.old).design inputs.now }
        ensures machine { machine self.new ≡ evaluated Self.Host.answer Self.Host.after (built self.old) inputs.now (machine self.old) }
        ensures converges { is_ok result ≡ converges Self.Host.answer Self.Host.after (built self.old) inputs.now (machine self.old) }
        ensures built { built self.new ≡ built self.old };

    /// The value of a word.
    fn word(&self, word: u32) -> u64
        requires { word < length (built self.now).layout.words.items }
        ensures { result ≡ slice_index (machine self.now).outside.words word };

    /// The calls of the last eval whose imports are not deemed safe, in order. There are none before the first eval.
    fn calls(&self) -> &[CallRec]
        ensures calls { result.now ≡ kept_of (machine self.now) }
        ensures few { length result.now ≤ call_room (built self.now) };

    /// The greatest number of calls that an eval can keep.
    fn room(&self) -> u32
        ensures { result ≡ call_room (built self.now) };
}
