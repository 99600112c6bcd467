//! The run of a node on a bus.
ghost use Rattle.std.specs.Prelude.{◌≡◌, ◌≤◌, length};
ghost use Rattle.task_eval.specs.Buses.{run};
ghost use Rattle.task_eval.specs.Course.{course_of};
ghost use Rattle.task_eval.specs.Soundness.{IsWithin};
ghost use Rattle.task_eval.specs.Frames.{IsReady};
ghost use Rattle.task_eval.specs.Turns.{Turned};

use crate::bus::Bus;
use crate::code::Code;
use crate::frame::{Ask, Frame};

/// Runs a code on a bus, with a frame that was made for it: its loads, stores and calls, in order, and no others.
pub fn run_node<B: Bus>(code: &Code, bus: &mut B, frame: &mut Frame)
    requires room { code.now.stack ≤ frame.old.room }
    requires within { IsWithin (length (B.outside bus.old).words) (length (B.outside bus.old).ids) code.now.ops }
    ensures run { B.outside bus.new ≡ run B.Host.answer B.Host.after (course_of code.now) (B.outside bus.old) }
    ensures room { frame.new.room ≡ frame.old.room }
{
    frame.start(code);
    'turns: while turn(code, bus, frame) {}
}

// Makes the next load, store or call, and tells whether there was one.
fn turn<B: Bus>(code: &Code, bus: &mut B, frame: &mut Frame) -> bool
    requires ready { IsReady code.now frame.old }
    requires within { IsWithin (length (B.outside bus.old).words) (length (B.outside bus.old).ids) code.now.ops }
    ensures turn { Turned B.Host.answer B.Host.after code.now frame.old frame.new (B.outside bus.old) (B.outside bus.new) result }
    ensures room { frame.new.room ≡ frame.old.room }
{
    match frame.ask(code) {
        Ask::Load(word) => {
            let value = bus.load(word);
            frame.give(value);
            true
        }
        Ask::Store(word, value) => {
            bus.store(word, value);
            true
        }
        Ask::Call(import) => {
            let reply = bus.call(import, frame.args());
            frame.give(reply);
            true
        }
        Ask::Done => false,
    }
}
