//! The order in which the combinational processes settle.

ghost use Rattle.std.specs.Prelude.{◌≡◌, ◌<◌, ◌≤◌, ◌^◌, not, true, length, map, IfOk, IfErr, OnOk};
ghost use Rattle.vs_base.specs.declared.limits.TheConstants.{EDGES};
ghost use Rattle.rtl_pieces.specs.Bits.{line_in};
ghost use Rattle.rtl_pieces.specs.Cover.{places_of};
ghost use Rattle.order_levels.specs.Serial.{comb_procs};
ghost use Rattle.order_levels.specs.Sets.{all_below};
ghost use Rattle.order_levels.specs.Settling.{settling, InOrder};
ghost use Rattle.logic_graph.specs.Reading.{edges_of, OneWriter};
ghost use Rattle.plan_types.specs.Coded.{is_clocked as is_clocked_in};
ghost use Rattle.plan_types.specs.Settle as shared;
ghost use Rattle.model_build.specs.Settle as spec;
ghost use Rattle.plan_types.specs.Drivers.{OneDriver};
ghost use Rattle.plan_types.specs.Cuts.{IsCut};
ghost use Rattle.task_code.specs.Compiled.{Each};
ghost use Rattle.model_build.specs.Touching.{IsTouched};

use crate::driver::origin_of;
use crate::fault::BuildFault;
use crate::touched::{Ground, all_touched};
use logic_graph::{GraphFault, Touched, graph_of};
use order_levels::{LoopFault, has_too_many_nodes, ready_order};
use plan_graph::{Graph, Part};
use proc_cost::proc_cost;
use rtl_ir::{Design, Proc, ProcKind};
use rtl_pieces::{BitLine, Layout, word_places};
use sqlite_items::Items;
use std::alloc::{AllocError, Global};
use vs_base::Origin;
use vs_base::limits::Kind;

/// Of each process whether it is clocked.
pub(crate) fn clocked_of(alloc: Global, procs: &[Proc]) -> Result<Vec<bool>, AllocError>
    ensures { IfOk result (λ marks. marks.items ≡ shared.clocked_of procs.now) }
{
    let mut marks = Vec::new(alloc);
    for process in procs {
        marks.push(is_clocked(process))?;
    }
    Ok(marks)
}

pub(crate) fn is_clocked(process: &Proc) -> bool
    ensures { result ≡ is_clocked_in process.now }
{
    matches!(process.kind, ProcKind::Clocked(_))
}

/// The numbers of the processes that are not clocked.
pub(crate) fn combs_of(alloc: Global, clocked: &[bool]) -> Result<Vec<u32>, AllocError>
    requires { length clocked.now < 2 ^ 32 }
    ensures { IfOk result (λ combs. combs.items ≡ comb_procs clocked.now) }
{
    let mut combs = Vec::new(alloc);
    let mut number: u32 = 0;
    let mut rest = clocked;
    'procs: while let [is_clocked, more @ ..] = rest {
        if !*is_clocked {
            combs.push(number)?;
        }
        number += 1;
        rest = more;
    }
    Ok(combs)
}

/// The order in which the combinational processes settle, numbered among themselves.
#[tactic(auto, using(crate::proofs::Stages::many_nodes, crate::proofs::Stages::few_nodes, crate::proofs::Stages::graph_refused, crate::proofs::Stages::loop_refused))]
pub(crate) fn settle_order(
    alloc: Global,
    design: &Design,
    layout: &Layout,
    clocked: &[bool],
) -> Result<Vec<u32>, BuildFault>
    requires marks { clocked.now ≡ shared.clocked_of design.now.procs }
    requires few { length design.now.procs < 2 ^ 32 }
    requires one_driver { OneDriver design.now }
    requires layout { IsCut design.now layout.now.words.items }
    ensures order { IfOk result (λ order. spec.Settles design.now order.items) }
    ensures refused { IfErr result (spec.OrderFault design.now) }
{
    if has_too_many_nodes(clocked, Part::Settle) || has_too_many_nodes(clocked, Part::Clocked) {
        return Err(BuildFault::TooMany(Kind::Nodes));
    }
    let combs = combs_of(alloc, clocked)?;
    let graph = read_graph(alloc, design, layout, combs.as_slice())?;
    order_in(alloc, design.procs.as_slice(), combs.as_slice(), &graph)
}

/// The graph of the combinational processes.
pub(crate) fn read_graph(
    alloc: Global,
    design: &Design,
    layout: &Layout,
    combs: &[u32],
) -> Result<Graph, BuildFault>
    requires combs { combs.now ≡ shared.combs_of design.now.procs }
    requires one_driver { OneDriver design.now }
    requires layout { IsCut design.now layout.now.words.items }
    ensures nodes { IfOk result (λ graph. length graph.costs ≡ length combs.now) }
    ensures edges { IfOk result (λ graph. graph.edges ≡ shared.read_edges design.now) }
    ensures few { OnOk result (length (shared.read_edges design.now) ≤ EDGES) }
    ensures refused { IfErr result (spec.GraphRefusal (shared.read_edges design.now)) }
{
    let touched = words_touched(alloc, design, layout, combs)?;
    let costs = costs_of(alloc, design.procs.as_slice(), combs)?;
    graph(alloc, costs, touched.as_slice())
}

fn words_touched(
    alloc: Global,
    design: &Design,
    layout: &Layout,
    combs: &[u32],
) -> Result<Vec<Touched>, AllocError>
    requires { length layout.now.words.items < 2 ^ 31 }
    ensures { IfOk result (λ all. Each (IsTouched (line_in design.now) design.now.procs (places_of 0 layout.now.words.items)) combs.now all.items) }
{
    let line = BitLine::new(alloc, design)?;
    let places = word_places(alloc, layout)?;
    let ground = Ground {
        design,
        line: &line,
        places: places.as_slice(),
    };
    all_touched(alloc, ground, combs)
}

fn graph(alloc: Global, costs: Items<u32>, touched: &[Touched]) -> Result<Graph, BuildFault>
    requires costs { length costs ≡ length touched.now }
    requires one_writer { OneWriter touched.now }
    ensures costs { IfOk result (λ graph. graph.costs ≡ costs) }
    ensures edges { IfOk result (λ graph. graph.edges ≡ edges_of touched.now) }
    ensures few { OnOk result (length (edges_of touched.now) ≤ EDGES) }
    ensures refused { IfErr result (spec.GraphRefusal (edges_of touched.now)) }
{
    match graph_of(alloc, costs, touched) {
        Ok(graph) => Ok(graph),
        Err(GraphFault::NoMemory) => Err(BuildFault::NoMemory(AllocError)),
        Err(GraphFault::TooMany) => Err(BuildFault::TooMany(Kind::Edges)),
    }
}

// What processes cost, each at least 1.
fn costs_of(alloc: Global, procs: &[Proc], combs: &[u32]) -> Result<Items<u32>, AllocError>
    ensures { IfOk result (λ costs. costs ≡ map (spec.cost_of procs.now) combs.now) }
{
    let mut costs = Items::new(alloc);
    for proc in combs {
        costs.push(cost_of(procs, *proc))?;
    }
    Ok(costs)
}

/// What a process costs, at least 1.
pub(crate) fn cost_of(procs: &[Proc], proc: u32) -> u32
    ensures { result ≡ spec.cost_of procs.now proc }
{
    match procs.get(proc as usize) {
        Some(process) => proc_cost(process).max(1),
        None => 1,
    }
}

fn order_in(
    alloc: Global,
    procs: &[Proc],
    combs: &[u32],
    graph: &Graph,
) -> Result<Vec<u32>, BuildFault>
    ensures order { IfOk result (λ order. settling (length graph.now.costs) graph.now.edges ≡ InOrder order.items) }
    ensures within { IfOk result (λ order. all_below (length graph.now.costs) order.items ≡ true) }
    ensures refused { IfErr result (spec.LoopRefusal procs.now combs.now (settling (length graph.now.costs) graph.now.edges)) }
{
    match ready_order(alloc, graph) {
        Ok(order) => Ok(order),
        Err(LoopFault::NoMemory) => Err(BuildFault::NoMemory(AllocError)),
        Err(LoopFault::Loop(list)) => Err(BuildFault::Loop(origins(
            alloc,
            procs,
            combs,
            list.as_slice(),
        )?)),
    }
}

// The places of processes, which are told by their numbers among some.
fn origins(
    alloc: Global,
    procs: &[Proc],
    combs: &[u32],
    list: &[u32],
) -> Result<Items<Origin>, AllocError>
    ensures { IfOk result (λ places. places ≡ map (spec.origin_among procs.now combs.now) list.now) }
{
    let mut places = Items::new(alloc);
    for number in list {
        places.push(origin_among(procs, combs, *number))?;
    }
    Ok(places)
}

fn origin_among(procs: &[Proc], combs: &[u32], number: u32) -> Origin
    ensures { result ≡ spec.origin_among procs.now combs.now number }
{
    match combs.get(number as usize) {
        Some(proc) => origin_of(procs, *proc),
        None => origin_of(procs, 0),
    }
}
