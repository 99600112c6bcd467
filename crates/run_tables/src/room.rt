//! The room of the calls that are kept.
ghost use Rattle.std.specs.Prelude.{◌≡◌, ◌-◌, ◌^◌, min, map, slice_get};
ghost use Rattle.std.specs.List.{count_by, sum_by};
ghost use Rattle.plan_types.specs.Coded.{code_number};
ghost use Rattle.plan_types.specs.Room.{is_kept as kept, calls_if, code_calls, call_room as room_of};

use plan_types::{Built, MOST_RUNS};
use task_eval::Op;

/// The greatest number of calls that an eval of a model can keep, up to what 64 bits hold, by the numbers of the codes of its settle
/// nodes and of its clocked nodes.
pub fn call_room(built: &Built, settle: &[usize], clocked: &[usize]) -> u64
    requires settle { settle.now ≡ map (code_number built.now.design.procs) built.now.settle.nodes }
    requires clocked { clocked.now ≡ map (code_number built.now.design.procs) built.now.clocked.nodes }
    ensures { result ≡ min (room_of built.now) (2 ^ 64 - 1) }
{
    let once = part_calls(built, settle);
    let each = part_calls(built, clocked);
    once.saturating_add(each.saturating_mul(u64::from(MOST_RUNS)))
}

// How many calls these codes keep at most, up to what 64 bits hold.
fn part_calls(built: &Built, codes: &[usize]) -> u64
    ensures { result ≡ min (sum_by (code_calls built.now) codes.now) (2 ^ 64 - 1) }
{
    let mut calls: u64 = 0;
    for code in codes {
        calls = calls.saturating_add(calls_at(built, *code));
    }
    calls
}

fn calls_at(built: &Built, code: usize) -> u64
    ensures { result ≡ code_calls built.now code }
{
    match built.codes.get(code) {
        Some(code) => kept_ops(built.deemed.as_slice(), code.ops()),
        None => 0,
    }
}

// How many of these ops make a call that is kept.
fn kept_ops(deemed: &[bool], ops: &[Op]) -> u64
    ensures { result ≡ count_by (kept deemed.now) ops.now }
{
    let mut calls: u64 = 0;
    for op in ops {
        if is_kept(deemed, *op) {
            calls += 1;
        }
    }
    calls
}

// Whether an op calls an import that is not deemed safe.
fn is_kept(deemed: &[bool], op: Op) -> bool
    ensures { result ≡ kept deemed.now op }
{
    match op {
        Op::Call { import, .. } => !deemed.get(import as usize).copied().unwrap_or(false),
        _ => false,
    }
}
