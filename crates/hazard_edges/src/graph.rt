ghost use Rattle.std.specs.Prelude.{◌≡◌, ◌<◌, ◌≤◌, ◌^◌, ◌++◌, ◌∷◌, [], ◌&&◌, ◌||◌, not, if◌then◌else◌, IfOk, OnOk, IsErrOf, MatchOption, length, true};
ghost use Rattle.std.specs.List.{list_all};
ghost use Rattle.plan_graph.specs.Graphs.{ends_within};
ghost use Rattle.plan_graph.specs.GraphLaws.{rises};
ghost use Rattle.hazard_edges.specs.Hazards.{hazards, hazards_from, OrdersConflicts};
ghost use Rattle.hazard_edges.specs.Spans.{Cover};
ghost use Rattle.vs_base.specs.declared.limits.TheConstants.{EDGES};

use crate::share::share_at;
use crate::spans::spans_of;
use logic_graph::{GraphFault, Touched, WordRange};
use plan_graph::{Edge, Graph};
use sqlite_items::Items;
use std::alloc::{AllocError, Global};
use vs_base::limits;

/// The graph of the nodes of a part, whose costs, words and calls are told in serial order. `calls` tells of each node
/// whether it calls an import that is not deemed safe. An edge leads from a node to a later one where they share a word
/// that one of them writes, or where both make such calls and no node between them does. Nodes that conflict are joined
/// by a path.
///
/// [`GraphFault::TooMany`] comes exactly past 65,536 edges.
#[tactic(auto, using(crate::proofs::HazardLaws::conflict_has_path, crate::proofs::HazardLaws::hazards_rise))]
pub fn add_hazards(
    alloc: Global,
    costs: Items<u32>,
    touched: &[Touched],
    calls: &[bool],
) -> Result<Graph, GraphFault>
    requires costs { length costs ≡ length touched.now }
    requires calls { length calls.now ≡ length touched.now }
    ensures costs { IfOk result (λ g. g.costs ≡ costs) }
    ensures edges { IfOk result (λ g. g.edges ≡ hazards touched.now calls.now) }
    ensures rising { IfOk result (λ g. list_all rises g.edges ≡ true) }
    ensures orders { IfOk result (λ g. OrdersConflicts touched.now calls.now g.edges) }
    ensures within { OnOk result (length (hazards touched.now calls.now) ≤ EDGES) }
    ensures too_many { IsErrOf result GraphFault.TooMany → EDGES < length (hazards touched.now calls.now) }
{
    // The numbers of nodes have 32 bits: a list that is longer has no room.
    if costs.len() >= 1 << 32 {
        return Err(GraphFault::NoMemory);
    }
    let Ok(found) = hazard_list(alloc, touched, calls) else {
        return Err(GraphFault::NoMemory);
    };
    let Some(edges) = found else {
        return Err(GraphFault::TooMany);
    };
    Ok(Graph { costs, edges })
}

// The edges, or nothing where there are too many.
fn hazard_list(
    alloc: Global,
    touched: &[Touched],
    calls: &[bool],
) -> Result<Option<Items<Edge>>, AllocError>
    requires few { length touched.now < 2 ^ 32 }
    requires calls { length calls.now ≡ length touched.now }
    ensures edges { IfOk result (λ o. MatchOption o (EDGES < length (hazards touched.now calls.now)) (λ v. v ≡ hazards touched.now calls.now)) }
    ensures within { IfOk result (λ o. MatchOption o (EDGES < length (hazards touched.now calls.now)) (λ v. length (hazards touched.now calls.now) ≤ EDGES)) }
    ensures ends { IfOk result (λ o. MatchOption o (EDGES < length (hazards touched.now calls.now)) (λ v. list_all (ends_within (length touched.now)) v ≡ true)) }
{
    let spans = spans_of(alloc, touched)?;
    let mut edges = Items::new(alloc);
    for i in 0..touched.len() {
        push_hazards(&mut edges, touched, spans.as_slice(), calls, i)?;
        if edges.len() > limits::EDGES {
            return Ok(None);
        }
    }
    Ok(Some(edges))
}

// The edges from one node.
fn push_hazards(
    edges: &mut Items<Edge>,
    touched: &[Touched],
    spans: &[WordRange],
    calls: &[bool],
    i: usize,
) -> Result<(), AllocError>
    requires few { length touched.now < 2 ^ 32 }
    requires calls { length calls.now ≡ length touched.now }
    requires spans { Cover touched.now spans.now }
    requires node { i < length touched.now }
    ensures { OnOk result (edges.new ≡ edges.old ++ hazards_from touched.now calls.now i) }
{
    // Whether the next node that calls follows this one in the chain of calls.
    let mut next = calls[i];
    for j in i + 1..touched.len() {
        let chained = is_chained(next, calls[j]);
        let shared = share_at(touched, spans, i, j);
        let hazard = either(chained, shared);
        next = is_still_next(next, calls[j]);
        let edge = Edge {
            from: i as u32,
            to: j as u32,
        };
        push_if(edges, hazard, edge)?;
    }
    Ok(())
}

// Whether a node is the next that calls.
fn is_chained(next: bool, call: bool) -> bool
    ensures { result ≡ (next && call) }
{
    next && call
}

fn either(chained: bool, shared: bool) -> bool
    ensures { result ≡ (chained || shared) }
{
    chained || shared
}

// Whether none has called yet.
fn is_still_next(next: bool, call: bool) -> bool
    ensures { result ≡ (next && not call) }
{
    next && !call
}

fn push_if(edges: &mut Items<Edge>, hazard: bool, edge: Edge) -> Result<(), AllocError>
    ensures { OnOk result (edges.new ≡ edges.old ++ (if hazard then edge ∷ [] else [])) }
{
    if hazard {
        edges.push(edge)?;
    }
    Ok(())
}
