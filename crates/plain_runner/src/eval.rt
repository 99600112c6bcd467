//! One eval.
ghost use Rattle.std.specs.Prelude.{◌≡◌, ◌≤◌, length};
ghost use Rattle.task_eval.specs.Codes.{deepest};
ghost use Rattle.plan_types.specs.Machine.{IsInput, fired_of, some_fired, evaluated, converges};
ghost use Rattle.plan_types.specs.Room.{call_room};
ghost use Rattle.plain_runner.specs.Seen.{seen_of, seen_end, env_of, machine_of, settled_in, rounds_in};
ghost use Rattle.plain_runner.specs.Tabled.{AreTables};

use crate::callee::Callee;
use crate::edges::fire;
use crate::live::{Live, Past};
use crate::nodes::run_nodes;
use crate::put::put;
use crate::tables::Tables;
use plan_types::{Built, MOST_RUNS};
use task_eval::Frame;
use vs_base::Bits;

// One eval. Tells whether it converged.
pub(crate) fn evaluate<C: Callee>(
    built: &Built,
    tables: &Tables,
    frame: &mut Frame,
    live: &mut Live<C>,
    past: &mut Past,
    inputs: &[Bits],
) -> bool
    requires tables { AreTables built.now tables.now }
    requires room { deepest built.now.codes ≤ frame.old.room }
    requires words { length live.old.words.items ≡ length built.now.layout.words.items }
    requires last { length past.old.last.items ≡ length built.now.layout.words.items }
    requires fired { length past.old.fired.items ≡ length built.now.design.procs }
    requires place { live.old.calls.room ≡ call_room built.now }
    requires inputs { IsInput built.now.design inputs.now }
    ensures eval { machine_of (env_of (C.fixed live.new.host) built.now.ids tables.now.widths.items built.now.deemed) past.new.last.items (seen_of live.new.words.items (C.state live.new.host) live.new.calls.calls) ≡ evaluated C.answer C.after built.now inputs.now (machine_of (env_of (C.fixed live.old.host) built.now.ids tables.now.widths.items built.now.deemed) past.old.last.items (seen_of live.old.words.items (C.state live.old.host) live.old.calls.calls)) }
    ensures converges { result ≡ converges C.answer C.after built.now inputs.now (machine_of (env_of (C.fixed live.old.host) built.now.ids tables.now.widths.items built.now.deemed) past.old.last.items (seen_of live.old.words.items (C.state live.old.host) live.old.calls.calls)) }
    ensures few { length live.new.calls.calls ≤ call_room built.now }
    ensures room { frame.new.room ≡ frame.old.room }
    ensures words { length live.new.words.items ≡ length live.old.words.items }
    ensures last { length past.new.last.items ≡ length past.old.last.items }
    ensures fired { length past.new.fired.items ≡ length past.old.fired.items }
    ensures place { live.new.calls.room ≡ live.old.calls.room }
{
    settle(built, tables, frame, live, inputs);
    rounds(built, tables, frame, live, past, MOST_RUNS)
}

// Puts the inputs and lets the combinational processes settle. No call is kept yet.
fn settle<C: Callee>(
    built: &Built,
    tables: &Tables,
    frame: &mut Frame,
    live: &mut Live<C>,
    inputs: &[Bits],
)
    requires tables { AreTables built.now tables.now }
    requires room { deepest built.now.codes ≤ frame.old.room }
    requires words { length live.old.words.items ≡ length built.now.layout.words.items }
    requires fits { length (settled_in C.answer C.after (env_of (C.fixed live.old.host) built.now.ids tables.now.widths.items built.now.deemed) built.now inputs.now (seen_of live.old.words.items (C.state live.old.host) live.old.calls.calls)).calls ≤ live.old.calls.room }
    ensures run { seen_of live.new.words.items (C.state live.new.host) live.new.calls.calls ≡ settled_in C.answer C.after (env_of (C.fixed live.old.host) built.now.ids tables.now.widths.items built.now.deemed) built.now inputs.now (seen_of live.old.words.items (C.state live.old.host) live.old.calls.calls) }
    ensures room { frame.new.room ≡ frame.old.room }
    ensures fixed { C.fixed live.new.host ≡ C.fixed live.old.host }
    ensures words { length live.new.words.items ≡ length live.old.words.items }
    ensures place { live.new.calls.room ≡ live.old.calls.room }
{
    live.calls.clear();
    put(inputs, tables.inputs.as_slice(), live.words.as_mut_slice());
    let nodes = built.settle.nodes.as_slice();
    let numbers = tables.settle.as_slice();
    run_nodes(built, tables, nodes, numbers, &[], frame, live);
}

// Rounds, with at most so many runs of the clocked nodes. Tells whether nothing fires any more.
fn rounds<C: Callee>(
    built: &Built,
    tables: &Tables,
    frame: &mut Frame,
    live: &mut Live<C>,
    past: &mut Past,
    most: u32,
) -> bool
    requires tables { AreTables built.now tables.now }
    requires room { deepest built.now.codes ≤ frame.old.room }
    requires words { length live.old.words.items ≡ length built.now.layout.words.items }
    requires last { length past.old.last.items ≡ length built.now.layout.words.items }
    requires fired { length past.old.fired.items ≡ length built.now.design.procs }
    requires fits { length (rounds_in C.answer C.after (env_of (C.fixed live.old.host) built.now.ids tables.now.widths.items built.now.deemed) built.now most past.old.last.items (seen_of live.old.words.items (C.state live.old.host) live.old.calls.calls)).seen.calls ≤ live.old.calls.room }
    ensures ends { seen_end result (seen_of live.new.words.items (C.state live.new.host) live.new.calls.calls) ≡ rounds_in C.answer C.after (env_of (C.fixed live.old.host) built.now.ids tables.now.widths.items built.now.deemed) built.now most past.old.last.items (seen_of live.old.words.items (C.state live.old.host) live.old.calls.calls) }
    ensures last { past.new.last.items ≡ live.new.words.items }
    ensures fired { length past.new.fired.items ≡ length past.old.fired.items }
    ensures room { frame.new.room ≡ frame.old.room }
    ensures fixed { C.fixed live.new.host ≡ C.fixed live.old.host }
    ensures words { length live.new.words.items ≡ length live.old.words.items }
    ensures place { live.new.calls.room ≡ live.old.calls.room }
{
    let nodes = built.clocked.nodes.as_slice();
    let numbers = tables.clocked.as_slice();
    for run in 0..most {
        if !test(built, tables, live.words.as_slice(), past) {
            return true;
        }
        let fired = past.fired.as_slice();
        run_nodes(built, tables, nodes, numbers, fired, frame, live);
    }
    !test(built, tables, live.words.as_slice(), past)
}

// Notes which processes fire from the words at the test before to now, and tells whether one does.
fn test(built: &Built, tables: &Tables, now: &[u64], past: &mut Past) -> bool
    requires tables { AreTables built.now tables.now }
    requires last { length past.old.last.items ≡ length now.now }
    requires many { length past.old.fired.items ≡ length built.now.design.procs }
    ensures some { result ≡ some_fired (fired_of built.now.design.procs built.now.layout.words.items past.old.last.items now.now) }
    ensures fired { past.new.fired.items ≡ fired_of built.now.design.procs built.now.layout.words.items past.old.last.items now.now }
    ensures last { past.new.last.items ≡ now.now }
{
    let some = fire(
        built,
        tables.events.as_slice(),
        past.last.as_slice(),
        now,
        past.fired.as_mut_slice(),
    );
    past.last.copy_from_slice(now);
    some
}
