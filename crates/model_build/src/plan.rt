//! The plans of a design, of one task each.

ghost use Rattle.std.specs.Prelude.{◌≡◌, length, map, nat_lt, true, IfOk};
ghost use Rattle.std.specs.List.{list_all};
ghost use Rattle.std.specs.Option.{option_copied};
ghost use Rattle.plan_types.specs.Coded.{code_number};
ghost use Rattle.plan_types.specs.Settle.{combs_of, clocked_of as clocked_in};
ghost use Rattle.model_build.specs.Plans.{IsPlan};
ghost use Rattle.model_build.specs.Costs as spec;

use crate::settle::{cost_of, is_clocked};
use order_levels::part_nodes;
use plan_graph::{Graph, Node, Part};
use plan_types::ValidPlan;
use rtl_ir::Proc;
use sqlite_items::Items;
use std::alloc::{AllocError, Global};
use task_eval::Code;

/// What the plans of a design stand on: its processes, their codes, of each whether it is clocked, and the settle order of
/// those that are not, numbered among themselves.
#[derive(Clone, Copy)]
pub(crate) struct Serial<'a> {
    pub procs: &'a [Proc],
    pub codes: &'a [Code],
    pub clocked: &'a [bool],
    pub order: &'a [u32],
}

/// The plan of a part that runs its nodes in serial order, as one task on thread 0. So no node has to wait for another, and
/// the graph has no edge.
pub(crate) fn plan_of(
    alloc: Global,
    serial: Serial<'_>,
    part: Part,
) -> Result<ValidPlan, AllocError>
    requires clocked { serial.clocked.now ≡ clocked_in serial.procs.now }
    requires order { list_all (λ k. nat_lt k (length (combs_of serial.procs.now))) serial.order.now ≡ true }
    ensures { IfOk result (λ plan. IsPlan serial.entry.procs.now serial.entry.codes.now serial.entry.order.now part plan) }
{
    // The nodes were counted before.
    let Ok(nodes) = part_nodes(alloc, serial.clocked, serial.order, part) else {
        return Err(AllocError);
    };
    let graph = Graph {
        costs: node_costs(alloc, serial, nodes.as_slice())?,
        edges: Items::new(alloc),
    };
    match ValidPlan::one_task(alloc, Items::from_vec(nodes), graph) {
        Ok(plan) => Ok(plan),
        Err(_) => Err(AllocError),
    }
}

fn node_costs(alloc: Global, serial: Serial<'_>, nodes: &[Node]) -> Result<Items<u32>, AllocError>
    ensures { IfOk result (λ costs. costs ≡ map (spec.node_cost serial.entry.procs.now serial.entry.codes.now) nodes.now) }
{
    let mut costs = Items::new(alloc);
    for node in nodes {
        costs.push(node_cost(serial, *node))?;
    }
    Ok(costs)
}

fn node_cost(serial: Serial<'_>, node: Node) -> u32
    ensures { result ≡ spec.node_cost serial.entry.procs.now serial.entry.codes.now node }
{
    match node {
        Node::Comb(proc) => cost_of(serial.procs, proc),
        Node::Body(proc) => cost_of(serial.procs, proc),
        Node::Commit(proc) => {
            let number = commit_number(serial.procs, proc);
            commit_cost(serial.codes.get(number))
        }
    }
}

/// The number of the code of a commit.
pub(crate) fn commit_number(procs: &[Proc], proc: u32) -> usize
    ensures { result ≡ code_number procs.now (Node.Commit proc) }
{
    let before = procs.get(..proc as usize).unwrap_or(procs);
    procs.len() + before.iter().filter(|p| is_clocked(p)).count()
}

// What a commit costs: 1 for each shadow that it copies by a load and a store, and at least 1.
fn commit_cost(code: Option<&Code>) -> u32
    ensures { result ≡ spec.commit_cost (option_copied code.entry) }
{
    match code {
        Some(code) => u32::try_from(code.ops().len() / 2)
            .unwrap_or(u32::MAX)
            .max(1),
        None => 1,
    }
}
