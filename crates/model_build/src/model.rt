//! From a design to a model.

ghost use Rattle.std.specs.Prelude.{◌≡◌, ◌≤◌, ◌<◌, ◌^◌, ◌||◌, ℕ, List, nat_le, length, take, drop, map, true, false, unwrap_or, IfOk, IfErr, OnOk};
ghost use Rattle.std.specs.List.{list_all};
ghost use Rattle.rtl_pieces.specs.Bits.{line_in, writes};
ghost use Rattle.rtl_pieces.specs.Line.{place_of};
ghost use Rattle.plan_graph.specs.declared.node.Part.TheVariants as part;
ghost use Rattle.order_levels.specs.Serial.{serial_nodes};
ghost use Rattle.task_code.specs.Compiled.{Each, IsBody, IsCommit, clocked_from};
ghost use Rattle.plan_types.specs.OneTask.{groups_of, lists_of};
ghost use Rattle.plan_types.specs.Coded.{AllWithin, code_count};
ghost use Rattle.model_build.specs.Answer.{IsAccepted, IsFault, LayFault, WordsFault, FewWords};
ghost use Rattle.model_build.specs.Imports as imports;
ghost use Rattle.plan_types.specs.Drivers.{OneDriver, FreeInputs};
ghost use Rattle.plan_types.specs.Touches.{keeps_to_its_own};
ghost use Rattle.plan_types.specs.Cuts.{IsCut, words_of};
ghost use Rattle.plan_types.specs.Settle.{clocked_of as clocked_in};
ghost use Rattle.model_build.specs.Settle.{OrderFault, Settles};
ghost use Rattle.model_build.specs.Costs.{node_cost};
ghost use Rattle.model_build.specs.Plans.{IsPlan};

use crate::code::codes_of;
use crate::driver::check_drivers;
use crate::fault::BuildFault;
use crate::import::{ImportUse, check_uses, deemed_of, ids_of, uses_of};
use crate::plan::{Serial, plan_of};
use crate::reach::{Ground, called_of, check_touch};
use crate::settle::{clocked_of, settle_order};
use dpi_host::{Host, Mode};
use plan_graph::Part;
use plan_types::{Built, ValidPlan};
use rtl_ir::Design;
use rtl_pieces::{BitLine, CutFault, Layout, cut};
use sqlite_items::Items;
use std::alloc::{AllocError, Global};
use task_eval::Code;
use vs_base::limits::Kind;

/// The model of a design that runs on one thread.
///
/// `mode` tells which imports are deemed safe, and `host` which imports there are; it is only asked.
///
/// A fault comes exactly where it holds and none before it does, in the order of [`BuildFault`], where too many words
/// come before too many nodes and these before too many edges.
#[tactic(auto, using(crate::proofs::Stages::lay_refused))]
pub fn build<H: Host>(
    alloc: Global,
    design: Design,
    mode: Mode,
    host: &H,
) -> Result<Built, BuildFault>
    ensures refused { IfErr result (IsFault design (imports.uses_of (H.id_of (H.fixed host.now)) (H.by_args (H.fixed host.now)) mode design)) }
    ensures accepted { OnOk result (IsAccepted design (imports.uses_of (H.id_of (H.fixed host.now)) (H.by_args (H.fixed host.now)) mode design)) }
    ensures design { IfOk result (λ built. built.design ≡ design) }
    ensures words { IfOk result (λ built. IsCut design built.layout.words.items) }
    ensures bodies { IfOk result (λ built. Each (IsBody built.layout.words.items) design.procs (take (length design.procs) built.codes)) }
    ensures commits { IfOk result (λ built. Each (λ p. IsCommit built.layout.words.items (λ word. writes (line_in design) design.procs p (place_of (line_in design) word.holds))) (clocked_from 0 design.procs) (drop (length design.procs) built.codes)) }
    ensures settle { IfOk result (λ built. (order : List ℕ) × Settles design order × IsPlan design.procs built.codes order part.Settle built.settle × IsPlan design.procs built.codes order part.Clocked built.clocked) }
    ensures deemed { IfOk result (λ built. built.deemed ≡ imports.deemed_of mode design.imports) }
    ensures ids { IfOk result (λ built. built.ids ≡ imports.ids_of (H.id_of (H.fixed host.now)) (H.by_args (H.fixed host.now)) design.imports) }
{
    let uses = accepted_uses(alloc, &design, mode, host)?;
    let laid = lay_out(alloc, &design)?;
    let parts = tested_parts(alloc, &design, &laid, uses.as_slice())?;
    Ok(Built {
        design,
        layout: laid.layout,
        codes: laid.codes,
        settle: parts.settle,
        clocked: parts.clocked,
        deemed: parts.deemed,
        ids: parts.ids,
    })
}

// How imports are used, where each bit has one driver and no import is refused.
#[tactic(auto, using(crate::proofs::Stages::drivers_refused, crate::proofs::Stages::imports_refused))]
fn accepted_uses<H: Host>(
    alloc: Global,
    design: &Design,
    mode: Mode,
    host: &H,
) -> Result<Vec<ImportUse>, BuildFault>
    ensures uses { IfOk result (λ uses. uses.items ≡ imports.uses_of (H.id_of (H.fixed host.now)) (H.by_args (H.fixed host.now)) mode design.now) }
    ensures accepted { IfOk result (λ uses. IsAccepted design.now uses.items) }
    ensures inputs { OnOk result (FreeInputs design.now) }
    ensures procs { OnOk result (length design.now.procs < 2 ^ 32) }
    ensures vars { OnOk result (length design.now.vars < 2 ^ 32) }
    ensures mems { OnOk result (length design.now.mems < 2 ^ 32) }
    ensures refused { IfErr result (IsFault design.now (imports.uses_of (H.id_of (H.fixed host.now)) (H.by_args (H.fixed host.now)) mode design.now)) }
{
    // Things have numbers of 32 bits: for more there is no room.
    if has_too_many(design) {
        return Err(BuildFault::NoMemory(AllocError));
    }
    check_drivers(alloc, design)?;
    let uses = uses_of(alloc, design, mode, host)?;
    check_uses(alloc, design.imports.as_slice(), uses.as_slice())?;
    Ok(uses)
}

fn has_too_many(design: &Design) -> bool
    ensures { result ≡ ((nat_le (2 ^ 32) (length design.now.procs) || nat_le (2 ^ 32) (length design.now.vars)) || nat_le (2 ^ 32) (length design.now.mems)) }
{
    is_large(design.procs.len()) || is_large(design.vars.len()) || is_large(design.mems.len())
}

fn is_large(many: usize) -> bool
    ensures { result ≡ nat_le (2 ^ 32) many }
{
    many >= 1 << 32
}

// The words of a design, the order of its nodes, and its codes.
#[derive(Drop)]
struct Laid {
    layout: Layout,
    clocked: Vec<bool>,
    order: Vec<u32>,
    codes: Items<Code>,
}

#[tactic(auto, using(crate::proofs::Stages::words_refused, crate::proofs::Stages::order_refused))]
fn lay_out(alloc: Global, design: &Design) -> Result<Laid, BuildFault>
    requires procs { length design.now.procs < 2 ^ 32 }
    requires vars { length design.now.vars < 2 ^ 32 }
    requires mems { length design.now.mems < 2 ^ 32 }
    requires one_driver { OneDriver design.now }
    ensures words { IfOk result (λ laid. IsCut design.now laid.layout.words.items) }
    ensures clocked { IfOk result (λ laid. laid.clocked.items ≡ clocked_in design.now.procs) }
    ensures order { IfOk result (λ laid. Settles design.now laid.order.items) }
    ensures count { IfOk result (λ laid. length laid.codes ≡ code_count design.now.procs) }
    ensures within { IfOk result (λ laid. AllWithin (length laid.layout.words.items) (length design.now.imports) laid.codes) }
    ensures bodies { IfOk result (λ laid. Each (IsBody laid.layout.words.items) design.now.procs (take (length design.now.procs) laid.codes)) }
    ensures commits { IfOk result (λ laid. Each (λ p. IsCommit laid.layout.words.items (λ word. writes (line_in design.now) design.now.procs p (place_of (line_in design.now) word.holds))) (clocked_from 0 design.now.procs) (drop (length design.now.procs) laid.codes)) }
    ensures refused { IfErr result (LayFault design.now) }
{
    let layout = words_of(alloc, design)?;
    let ordered = in_order(alloc, design, &layout)?;
    let codes = codes_of(alloc, design, &layout)?;
    Ok(Laid {
        layout,
        clocked: ordered.clocked,
        order: ordered.order,
        codes,
    })
}

// Of each process whether it is clocked, and the order in which those that are not settle.
#[derive(Drop)]
struct Ordered {
    clocked: Vec<bool>,
    order: Vec<u32>,
}

fn in_order(alloc: Global, design: &Design, layout: &Layout) -> Result<Ordered, BuildFault>
    requires procs { length design.now.procs < 2 ^ 32 }
    requires one_driver { OneDriver design.now }
    requires words { IsCut design.now layout.now.words.items }
    ensures clocked { IfOk result (λ it. it.clocked.items ≡ clocked_in design.now.procs) }
    ensures order { IfOk result (λ it. Settles design.now it.order.items) }
    ensures refused { IfErr result (OrderFault design.now) }
{
    let clocked = clocked_of(alloc, design.procs.as_slice())?;
    let order = settle_order(alloc, design, layout, clocked.as_slice())?;
    Ok(Ordered { clocked, order })
}

pub(crate) fn words_of(alloc: Global, design: &Design) -> Result<Layout, BuildFault>
    requires procs { length design.now.procs < 2 ^ 32 }
    requires vars { length design.now.vars < 2 ^ 32 }
    requires mems { length design.now.mems < 2 ^ 32 }
    ensures words { IfOk result (λ layout. IsCut design.now layout.words.items) }
    ensures refused { IfErr result (WordsFault design.now) }
{
    match cut(alloc, design) {
        Ok(layout) => Ok(layout),
        Err(CutFault::NoMemory(error)) => Err(BuildFault::NoMemory(error)),
        Err(CutFault::TooMany) => Err(BuildFault::TooMany(Kind::Words)),
    }
}

// The plans of both parts, and which imports are deemed safe and what their numbers are.
#[derive(Drop)]
struct Parts {
    settle: ValidPlan,
    clocked: ValidPlan,
    deemed: Items<bool>,
    ids: Items<u32>,
}

fn parts_of(
    alloc: Global,
    design: &Design,
    laid: &Laid,
    uses: &[ImportUse],
) -> Result<Parts, AllocError>
    requires clocked { laid.now.clocked.items ≡ clocked_in design.now.procs }
    requires order { Settles design.now laid.now.order.items }
    ensures settle { IfOk result (λ parts. IsPlan design.now.procs laid.now.codes laid.now.order.items part.Settle parts.settle) }
    ensures clocked { IfOk result (λ parts. IsPlan design.now.procs laid.now.codes laid.now.order.items part.Clocked parts.clocked) }
    ensures deemed { IfOk result (λ parts. parts.deemed ≡ map (λ u. u.deemed) uses.now) }
    ensures ids { IfOk result (λ parts. parts.ids ≡ map (λ u. unwrap_or u.id 0) uses.now) }
{
    let serial = Serial {
        procs: design.procs.as_slice(),
        codes: laid.codes.as_slice(),
        clocked: laid.clocked.as_slice(),
        order: laid.order.as_slice(),
    };
    let settle = plan_of(alloc, serial, Part::Settle)?;
    let clocked = plan_of(alloc, serial, Part::Clocked)?;
    let told = told_of(alloc, uses)?;
    Ok(Parts {
        settle,
        clocked,
        deemed: told.deemed,
        ids: told.ids,
    })
}

// The same, where the code of each node touches only what the node may.
fn tested_parts(
    alloc: Global,
    design: &Design,
    laid: &Laid,
    uses: &[ImportUse],
) -> Result<Parts, AllocError>
    requires clocked { laid.now.clocked.items ≡ clocked_in design.now.procs }
    requires order { Settles design.now laid.now.order.items }
    requires words { IsCut design.now laid.now.layout.words.items }
    ensures settle { IfOk result (λ parts. IsPlan design.now.procs laid.now.codes laid.now.order.items part.Settle parts.settle) }
    ensures clocked { IfOk result (λ parts. IsPlan design.now.procs laid.now.codes laid.now.order.items part.Clocked parts.clocked) }
    ensures deemed { IfOk result (λ parts. parts.deemed ≡ map (λ u. u.deemed) uses.now) }
    ensures ids { IfOk result (λ parts. parts.ids ≡ map (λ u. unwrap_or u.id 0) uses.now) }
    ensures settle_keeps { IfOk result (λ parts. list_all (keeps_to_its_own design.now laid.now.layout.words.items laid.now.codes) parts.settle.nodes ≡ true) }
    ensures clocked_keeps { IfOk result (λ parts. list_all (keeps_to_its_own design.now laid.now.layout.words.items laid.now.codes) parts.clocked.nodes ≡ true) }
{
    let parts = parts_of(alloc, design, laid, uses)?;
    check_parts(alloc, design, laid, &parts)?;
    Ok(parts)
}

fn check_parts(alloc: Global, design: &Design, laid: &Laid, parts: &Parts) -> Result<(), AllocError>
    requires words { IsCut design.now laid.now.layout.words.items }
    ensures settle { OnOk result (list_all (keeps_to_its_own design.now laid.now.layout.words.items laid.now.codes) parts.now.settle.nodes ≡ true) }
    ensures clocked { OnOk result (list_all (keeps_to_its_own design.now laid.now.layout.words.items laid.now.codes) parts.now.clocked.nodes ≡ true) }
{
    let line = BitLine::new(alloc, design)?;
    let called = called_of(alloc, design)?;
    let ground = Ground {
        design,
        codes: laid.codes.as_slice(),
        words: laid.layout.words.as_slice(),
        line: &line,
        called: called.as_slice(),
    };
    check_touch(alloc, &ground, parts.settle.nodes.as_slice())?;
    check_touch(alloc, &ground, parts.clocked.nodes.as_slice())
}

#[derive(Drop)]
struct Told {
    deemed: Items<bool>,
    ids: Items<u32>,
}

fn told_of(alloc: Global, uses: &[ImportUse]) -> Result<Told, AllocError>
    ensures deemed { IfOk result (λ told. told.deemed ≡ map (λ u. u.deemed) uses.now) }
    ensures ids { IfOk result (λ told. told.ids ≡ map (λ u. unwrap_or u.id 0) uses.now) }
{
    let deemed = deemed_of(alloc, uses)?;
    let ids = ids_of(alloc, uses)?;
    Ok(Told { deemed, ids })
}
