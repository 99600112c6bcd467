//! The run of nodes.
ghost use Rattle.std.specs.Prelude.{◌≡◌, ◌≤◌, length, map, slice_index_or, false};
ghost use Rattle.task_eval.specs.Codes.{deepest};
ghost use Rattle.plan_types.specs.Coded.{code_number};
ghost use Rattle.plan_types.specs.Machine.{is_run as runs, course_at};
ghost use Rattle.plain_runner.specs.Seen.{seen_of, env_of, go, go_nodes};

use crate::callee::Callee;
use crate::live::Live;
use crate::tables::Tables;
use crate::turn::run_code;
use plan_graph::Node;
use plan_types::Built;
use task_eval::Frame;

// Runs nodes one after another, with the numbers of their codes: the combinational ones, and of the others those whose
// process fired.
pub(crate) fn run_nodes<C: Callee>(
    built: &Built,
    tables: &Tables,
    nodes: &[Node],
    numbers: &[usize],
    fired: &[bool],
    frame: &mut Frame,
    live: &mut Live<C>,
)
    requires numbers { numbers.now ≡ map (code_number built.now.design.procs) nodes.now }
    requires room { deepest built.now.codes ≤ frame.old.room }
    requires words { length live.old.words.items ≡ length built.now.layout.words.items }
    requires fits { length (go_nodes C.answer C.after (env_of (C.fixed live.old.host) built.now.ids tables.now.widths.items built.now.deemed) built.now.design.procs built.now.codes fired.now nodes.now (seen_of live.old.words.items (C.state live.old.host) live.old.calls.calls)).calls ≤ live.old.calls.room }
    ensures run { seen_of live.new.words.items (C.state live.new.host) live.new.calls.calls ≡ go_nodes C.answer C.after (env_of (C.fixed live.old.host) built.now.ids tables.now.widths.items built.now.deemed) built.now.design.procs built.now.codes fired.now nodes.now (seen_of live.old.words.items (C.state live.old.host) live.old.calls.calls) }
    ensures room { frame.new.room ≡ frame.old.room }
    ensures fixed { C.fixed live.new.host ≡ C.fixed live.old.host }
    ensures words { length live.new.words.items ≡ length live.old.words.items }
    ensures place { live.new.calls.room ≡ live.old.calls.room }
{
    for place in 0..nodes.len() {
        if is_run(fired, nodes[place]) {
            run_at(built, tables, numbers[place], frame, live);
        }
    }
}

// Runs the code of a number.
fn run_at<C: Callee>(
    built: &Built,
    tables: &Tables,
    number: usize,
    frame: &mut Frame,
    live: &mut Live<C>,
)
    requires room { deepest built.now.codes ≤ frame.old.room }
    requires words { length live.old.words.items ≡ length built.now.layout.words.items }
    requires fits { length (go C.answer C.after (env_of (C.fixed live.old.host) built.now.ids tables.now.widths.items built.now.deemed) (course_at built.now.codes number) (seen_of live.old.words.items (C.state live.old.host) live.old.calls.calls)).calls ≤ live.old.calls.room }
    ensures run { seen_of live.new.words.items (C.state live.new.host) live.new.calls.calls ≡ go C.answer C.after (env_of (C.fixed live.old.host) built.now.ids tables.now.widths.items built.now.deemed) (course_at built.now.codes number) (seen_of live.old.words.items (C.state live.old.host) live.old.calls.calls) }
    ensures room { frame.new.room ≡ frame.old.room }
    ensures fixed { C.fixed live.new.host ≡ C.fixed live.old.host }
    ensures words { length live.new.words.items ≡ length live.old.words.items }
    ensures place { live.new.calls.room ≡ live.old.calls.room }
{
    match built.codes.get(number) {
        Some(code) => run_code(code, built, tables, frame, live),
        None => {}
    }
}

// Whether a node is run.
fn is_run(fired: &[bool], node: Node) -> bool
    ensures { result ≡ runs fired.now node }
{
    match node {
        Node::Comb(_) => true,
        Node::Body(proc) => has_fired(fired, proc),
        Node::Commit(proc) => has_fired(fired, proc),
    }
}

fn has_fired(fired: &[bool], proc: u32) -> bool
    ensures { result ≡ slice_index_or fired.now proc false }
{
    fired.get(proc as usize).copied().unwrap_or(false)
}
