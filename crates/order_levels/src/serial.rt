ghost use Rattle.std.specs.Prelude.{◌≡◌, ◌<◌, ◌≤◌, ◌+◌, ◌^◌, ◌++◌, ℕ, not, true, nat_lt, IfOk, OnOk, IsErrOf, length, map, if◌then◌else◌};
ghost use Rattle.std.specs.List.{list_all};
ghost use Rattle.order_levels.specs.Serial.{serial_nodes, comb_procs, clocked_procs, settle_nodes, clocked_nodes, node_count};
ghost use Rattle.vs_base.specs.declared.limits.TheConstants.{NODES};

use crate::fault::NodesFault;
use plan_graph::{Node, Part};
use std::alloc::{AllocError, Global};
use vs_base::limits;

/// The nodes of a part in serial order. `clocked` tells of each process whether it is clocked, and `order` is a settle
/// order of the combinational ones, numbered among themselves.
///
/// Settle has the combinational processes in settle order. Clocked has the bodies of the clocked processes, then
/// their commits, both in elaboration order, then what settle has; it has none where no process is clocked.
///
/// [`NodesFault::TooMany`] comes exactly past 4,096 nodes.
#[tactic(auto, using(crate::proofs::SerialLemmas::serial_length))]
pub fn part_nodes(
    alloc: Global,
    clocked: &[bool],
    order: &[u32],
    part: Part,
) -> Result<Vec<Node>, NodesFault>
    requires order { list_all (λ k. nat_lt k (length (comb_procs clocked.now))) order.now ≡ true }
    ensures nodes { IfOk result (λ v. v.items ≡ serial_nodes clocked.now order.now part) }
    ensures within { OnOk result (length (serial_nodes clocked.now order.now part) ≤ NODES) }
    ensures too_many { IsErrOf result NodesFault.TooMany → NODES < length (serial_nodes clocked.now order.now part) }
{
    if too_many(count_clocked(clocked), order.len(), part) {
        return Err(NodesFault::TooMany);
    }
    // The numbers of processes have 32 bits: a list that is longer has no room.
    if clocked.len() >= 1 << 32 {
        return Err(NodesFault::NoMemory);
    }
    let Ok(nodes) = serial(alloc, clocked, order, part) else {
        return Err(NodesFault::NoMemory);
    };
    Ok(nodes)
}

/// Whether a part has more than 4,096 nodes, which can be asked before there is an order.
pub fn has_too_many_nodes(clocked: &[bool], part: Part) -> bool
    ensures { result ≡ nat_lt NODES (node_count (length (clocked_procs clocked.now)) (length (comb_procs clocked.now)) part) }
{
    let procs = count_clocked(clocked);
    too_many(procs, clocked.len() - procs, part)
}

#[tactic(auto, using(crate::proofs::SerialLemmas::numbers_length, crate::proofs::SerialLemmas::both_kinds))]
fn count_clocked(clocked: &[bool]) -> usize
    ensures clocked { result ≡ length (clocked_procs clocked.now) }
    ensures others { result + length (comb_procs clocked.now) ≡ length clocked.now }
{
    clocked.iter().filter(|c| **c).count()
}

fn too_many(procs: usize, settle: usize, part: Part) -> bool
    ensures { result ≡ nat_lt NODES (node_count procs settle part) }
{
    match part {
        Part::Settle => settle > limits::NODES,
        Part::Clocked => procs > 0
            && procs.saturating_add(procs).saturating_add(settle) > limits::NODES,
    }
}

fn serial(
    alloc: Global,
    clocked: &[bool],
    order: &[u32],
    part: Part,
) -> Result<Vec<Node>, AllocError>
    requires order { list_all (λ k. nat_lt k (length (comb_procs clocked.now))) order.now ≡ true }
    requires few { length clocked.now < 2 ^ 32 }
    ensures { IfOk result (λ v. v.items ≡ serial_nodes clocked.now order.now part) }
{
    let combs = numbers_of(alloc, clocked, false)?;
    let settle = settle_part(alloc, combs.as_slice(), order)?;
    if part == Part::Settle {
        return Ok(settle);
    }
    let procs = numbers_of(alloc, clocked, true)?;
    clocked_part(alloc, procs.as_slice(), settle.as_slice())
}

// The numbers of the processes that are clocked, or of those that are not.
#[tactic(auto, using(crate::proofs::SerialLemmas::numbers_push))]
fn numbers_of(alloc: Global, clocked: &[bool], kind: bool) -> Result<Vec<u32>, AllocError>
    requires few { length clocked.now < 2 ^ 32 }
    ensures { IfOk result (λ v. v.items ≡ (if kind then clocked_procs clocked.now else comb_procs clocked.now)) }
{
    let mut numbers = Vec::new(alloc);
    for i in 0..clocked.len() {
        if clocked[i] == kind {
            numbers.push(i as u32)?;
        }
    }
    Ok(numbers)
}

fn settle_part(alloc: Global, combs: &[u32], order: &[u32]) -> Result<Vec<Node>, AllocError>
    requires { list_all (λ k. nat_lt k (length combs.now)) order.now ≡ true }
    ensures { IfOk result (λ v. v.items ≡ settle_nodes combs.now order.now) }
{
    let mut nodes = Vec::with_capacity(alloc, order.len())?;
    for k in order {
        nodes.push(Node::Comb(combs[*k as usize]))?;
    }
    Ok(nodes)
}

fn clocked_part(alloc: Global, procs: &[u32], settle: &[Node]) -> Result<Vec<Node>, AllocError>
    ensures { IfOk result (λ v. v.items ≡ clocked_nodes procs.now settle.now) }
{
    let mut nodes = Vec::new(alloc);
    if procs.len() == 0 {
        return Ok(nodes);
    }
    push_bodies(&mut nodes, procs)?;
    push_commits(&mut nodes, procs)?;
    nodes.extend_from_slice(settle)?;
    Ok(nodes)
}

fn push_bodies(nodes: &mut Vec<Node>, procs: &[u32]) -> Result<(), AllocError>
    ensures { OnOk result (nodes.new.items ≡ nodes.old.items ++ map (λ p. Node.Body p) procs.now) }
{
    for p in procs {
        nodes.push(Node::Body(*p))?;
    }
    Ok(())
}

fn push_commits(nodes: &mut Vec<Node>, procs: &[u32]) -> Result<(), AllocError>
    ensures { OnOk result (nodes.new.items ≡ nodes.old.items ++ map (λ p. Node.Commit p) procs.now) }
{
    for p in procs {
        nodes.push(Node::Commit(*p))?;
    }
    Ok(())
}
