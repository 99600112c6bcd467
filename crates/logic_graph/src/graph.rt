ghost use Rattle.std.specs.Prelude.{◌≡◌, ◌<◌, ◌≤◌, ◌^◌, ◌++◌, IfOk, OnOk, IsErrOf, MatchOption, length, map, true};
ghost use Rattle.std.specs.List.{list_all};
ghost use Rattle.plan_graph.specs.Graphs.{ends_within};
ghost use Rattle.logic_graph.specs.Reading.{edges_of, OneWriter, edge_to};
ghost use Rattle.logic_graph.specs.Noting.{listed};
ghost use Rattle.vs_base.specs.declared.limits.TheConstants.{EDGES};

use crate::fault::GraphFault;
use crate::noted::note_readers;
use crate::ranges::Touched;
use crate::writers::writers_of;
use plan_graph::{Edge, Graph};
use sqlite_items::Items;
use std::alloc::{AllocError, Global};

/// The graph of the combinational processes, whose costs and words are told in elaboration order: an edge leads from
/// each process to each other one that reads a word which it writes.
///
/// [`GraphFault::TooMany`] comes exactly past 65,536 edges.
pub fn graph_of(alloc: Global, costs: Items<u32>, procs: &[Touched]) -> Result<Graph, GraphFault>
    requires costs { length costs ≡ length procs.now }
    requires one_writer { OneWriter procs.now }
    ensures costs { IfOk result (λ g. g.costs ≡ costs) }
    ensures edges { IfOk result (λ g. g.edges ≡ edges_of procs.now) }
    ensures within { OnOk result (length (edges_of procs.now) ≤ EDGES) }
    ensures too_many { IsErrOf result GraphFault.TooMany → EDGES < length (edges_of procs.now) }
{
    // The numbers of nodes have 32 bits: a list that is longer has no room.
    if costs.len() >= 1 << 32 {
        return Err(GraphFault::NoMemory);
    }
    let Ok(found) = edges_between(alloc, procs) else {
        return Err(GraphFault::NoMemory);
    };
    let Some(edges) = found else {
        return Err(GraphFault::TooMany);
    };
    Ok(Graph { costs, edges })
}

// The edges, or nothing where there are too many.
fn edges_between(alloc: Global, procs: &[Touched]) -> Result<Option<Items<Edge>>, AllocError>
    requires few { length procs.now < 2 ^ 32 }
    requires one_writer { OneWriter procs.now }
    ensures edges { IfOk result (λ o. MatchOption o (EDGES < length (edges_of procs.now)) (λ v. v ≡ edges_of procs.now)) }
    ensures within { IfOk result (λ o. MatchOption o (EDGES < length (edges_of procs.now)) (λ v. length (edges_of procs.now) ≤ EDGES)) }
    ensures ends { IfOk result (λ o. MatchOption o (EDGES < length (edges_of procs.now)) (λ v. list_all (ends_within (length procs.now)) v ≡ true)) }
{
    let writers = writers_of(alloc, procs)?;
    let noted = note_readers(alloc, &writers, procs)?;
    let Some(readers) = noted else {
        return Ok(None);
    };
    let edges = list_edges(alloc, readers.as_slice())?;
    Ok(Some(edges))
}

// The edges from each process to those that are noted at it.
fn list_edges(alloc: Global, readers: &[Items<u32>]) -> Result<Items<Edge>, AllocError>
    requires few { length readers.now < 2 ^ 32 }
    ensures { IfOk result (λ v. v ≡ listed 0 readers.now) }
{
    let mut edges = Items::new(alloc);
    for i in 0..readers.len() {
        push_edges(&mut edges, i as u32, readers[i].as_slice())?;
    }
    Ok(edges)
}

fn push_edges(edges: &mut Items<Edge>, from: u32, readers: &[u32]) -> Result<(), AllocError>
    ensures { OnOk result (edges.new ≡ edges.old ++ map (edge_to from) readers.now) }
{
    for to in readers {
        edges.push(Edge { from, to: *to })?;
    }
    Ok(())
}
