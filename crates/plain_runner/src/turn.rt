//! The run of a code.
ghost use Rattle.std.specs.Prelude.{◌≡◌, ◌<◌, ◌≤◌, length, slice_index, slice_set};
ghost use Rattle.task_eval.specs.Course.{course_of};
ghost use Rattle.task_eval.specs.Soundness.{IsWithin};
ghost use Rattle.task_eval.specs.Frames.{IsReady, going};
ghost use Rattle.plain_runner.specs.Seen.{seen_of, env_of, go};
ghost use Rattle.plain_runner.specs.Turns.{Turned};

use crate::call::call;
use crate::callee::Callee;
use crate::live::Live;
use crate::tables::Tables;
use plan_types::Built;
use task_eval::{Ask, Code, Frame};

// Runs a code to its end.
pub(crate) fn run_code<C: Callee>(
    code: &Code,
    built: &Built,
    tables: &Tables,
    frame: &mut Frame,
    live: &mut Live<C>,
)
    requires room { code.now.stack ≤ frame.old.room }
    requires within { IsWithin (length live.old.words.items) (length built.now.ids) code.now.ops }
    requires fits { length (go C.answer C.after (env_of (C.fixed live.old.host) built.now.ids tables.now.widths.items built.now.deemed) (course_of code.now) (seen_of live.old.words.items (C.state live.old.host) live.old.calls.calls)).calls ≤ live.old.calls.room }
    ensures run { seen_of live.new.words.items (C.state live.new.host) live.new.calls.calls ≡ go C.answer C.after (env_of (C.fixed live.old.host) built.now.ids tables.now.widths.items built.now.deemed) (course_of code.now) (seen_of live.old.words.items (C.state live.old.host) live.old.calls.calls) }
    ensures room { frame.new.room ≡ frame.old.room }
    ensures fixed { C.fixed live.new.host ≡ C.fixed live.old.host }
    ensures words { length live.new.words.items ≡ length live.old.words.items }
    ensures place { live.new.calls.room ≡ live.old.calls.room }
{
    frame.start(code);
    'turns: while turn(code, built, tables, frame, live) {}
}

// Makes the next load, store or call, and tells whether there was one.
fn turn<C: Callee>(
    code: &Code,
    built: &Built,
    tables: &Tables,
    frame: &mut Frame,
    live: &mut Live<C>,
) -> bool
    requires ready { IsReady code.now frame.old }
    requires within { IsWithin (length live.old.words.items) (length built.now.ids) code.now.ops }
    requires fits { length (go C.answer C.after (env_of (C.fixed live.old.host) built.now.ids tables.now.widths.items built.now.deemed) (going code.now frame.old) (seen_of live.old.words.items (C.state live.old.host) live.old.calls.calls)).calls ≤ live.old.calls.room }
    ensures turn { Turned C.answer C.after (env_of (C.fixed live.old.host) built.now.ids tables.now.widths.items built.now.deemed) code.now frame.old frame.new (seen_of live.old.words.items (C.state live.old.host) live.old.calls.calls) (seen_of live.new.words.items (C.state live.new.host) live.new.calls.calls) result }
    ensures room { frame.new.room ≡ frame.old.room }
    ensures fixed { C.fixed live.new.host ≡ C.fixed live.old.host }
    ensures words { length live.new.words.items ≡ length live.old.words.items }
    ensures place { live.new.calls.room ≡ live.old.calls.room }
{
    match frame.ask(code) {
        Ask::Load(word) => {
            let value = load(live.words.as_slice(), word);
            frame.give(value);
            true
        }
        Ask::Store(word, value) => {
            store(live.words.as_mut_slice(), word, value);
            true
        }
        Ask::Call(import) => {
            let reply = call(built, tables, import, frame.args(), live);
            frame.give(reply);
            true
        }
        Ask::Done => false,
    }
}

fn load(words: &[u64], word: u32) -> u64
    requires { word < length words.now }
    ensures { result ≡ slice_index words.now word }
{
    words[word as usize]
}

fn store(words: &mut [u64], word: u32, value: u64)
    requires { word < length words.old }
    ensures { words.new ≡ slice_set words.old word value }
{
    words[word as usize] = value;
}
