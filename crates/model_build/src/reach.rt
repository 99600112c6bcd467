//! That the code of each node touches only what the node may: words with a bit that its process reads or writes, and imports that are
//! called. The codes of a design do, so a code that does not is answered by want of memory, and no model is made of it.

ghost use Rattle.std.specs.Prelude.{◌≡◌, ◌+◌, ◌-◌, ◌*◌, ℕ, true, slice_get, IfOk, OnOk};
ghost use Rattle.std.specs.List.{list_all, list_any};
ghost use Rattle.rtl_pieces.specs.Bits.{line_in};
ghost use Rattle.rtl_pieces.specs.Line.{place_of};
ghost use Rattle.proc_calls.specs.Calls.{is_called};
ghost use Rattle.plan_types.specs.Coded.{code_number};
ghost use Rattle.plan_types.specs.Cuts.{IsCut};
ghost use Rattle.plan_types.specs.Touches as touches;
ghost use Rattle.model_build.specs.Reaching as spec;

use crate::plan::commit_number;
use plan_graph::Node;
use proc_calls::called_imports;
use rtl_ir::{Design, Proc};
use rtl_pieces::{BitLine, BitRange, Word, ranges_read, ranges_written};
use std::alloc::{AllocError, Global};
use task_eval::{Code, Elements, Op};

/// What the nodes of a design are tested by: it and its codes, its words, the line of its bits, and of each import whether it is called.
#[derive(Clone, Copy)]
pub(crate) struct Ground<'a> {
    pub design: &'a Design,
    pub codes: &'a [Code],
    pub words: &'a [Word],
    pub line: &'a BitLine,
    pub called: &'a [bool],
}

/// What a node is tested by: words, their line, which imports are called, and what its process reads and writes.
#[derive(Clone, Copy)]
struct Reach<'a> {
    words: &'a [Word],
    line: &'a BitLine,
    called: &'a [bool],
    read: &'a [BitRange],
    written: &'a [BitRange],
}

/// Tests the codes of nodes.
pub(crate) fn check_touch(
    alloc: Global,
    ground: &Ground<'_>,
    nodes: &[Node],
) -> Result<(), AllocError>
    requires line { ground.now.line.now ≡ line_in ground.now.design.now }
    requires words { IsCut ground.now.design.now ground.now.words.now }
    requires called { (k : ℕ) → spec.called_by ground.now.called.now k ≡ true → is_called ground.now.design.now.procs k ≡ true }
    ensures { OnOk result (list_all (touches.keeps_to_its_own ground.now.design.now ground.now.words.now ground.now.codes.now) nodes.now ≡ true) }
{
    let mut rest = nodes;
    'nodes: while let [node, more @ ..] = rest {
        if !node_keeps(alloc, ground, *node)? {
            return Err(AllocError);
        }
        rest = more;
    }
    Ok(())
}

/// Marks the imports of a design that are called.
pub(crate) fn called_of(alloc: Global, design: &Design) -> Result<Vec<bool>, AllocError>
    ensures { IfOk result (λ marks. (k : ℕ) → spec.called_by marks.items k ≡ true → is_called design.now.procs k ≡ true) }
{
    called_imports(alloc, design)
}

fn node_keeps(alloc: Global, ground: &Ground<'_>, node: Node) -> Result<bool, AllocError>
    requires line { ground.now.line.now ≡ line_in ground.now.design.now }
    requires words { IsCut ground.now.design.now ground.now.words.now }
    requires called { (k : ℕ) → spec.called_by ground.now.called.now k ≡ true → is_called ground.now.design.now.procs k ≡ true }
    ensures { IfOk result (λ keeps. keeps ≡ true → touches.keeps_to_its_own ground.now.design.now ground.now.words.now ground.now.codes.now node ≡ true) }
{
    let proc = proc_of(node);
    let read = ranges_read(alloc, ground.design, ground.line, proc)?;
    let written = ranges_written(alloc, ground.design, ground.line, proc)?;
    let reach = Reach {
        words: ground.words,
        line: ground.line,
        called: ground.called,
        read: read.as_slice(),
        written: written.as_slice(),
    };
    let number = number_of_code(ground.design.procs.as_slice(), node);
    let keeps = code_keeps(alloc, &reach, node, ground.codes, number)?;
    Ok(keeps)
}

/// The process of a node.
fn proc_of(node: Node) -> u32
    ensures { result ≡ spec.proc_of node }
{
    match node {
        Node::Comb(proc) => proc,
        Node::Body(proc) => proc,
        Node::Commit(proc) => proc,
    }
}

fn number_of_code(procs: &[Proc], node: Node) -> usize
    ensures { result ≡ code_number procs.now node }
{
    match node {
        Node::Comb(proc) => proc as usize,
        Node::Body(proc) => proc as usize,
        Node::Commit(proc) => commit_number(procs, proc),
    }
}

fn code_keeps(
    alloc: Global,
    reach: &Reach<'_>,
    node: Node,
    codes: &[Code],
    number: usize,
) -> Result<bool, AllocError>
    ensures { IfOk result (λ keeps. keeps ≡ true → spec.CodeBy reach.now.words.now reach.now.line.now reach.now.called.now reach.now.read.now reach.now.written.now node (slice_get codes.now number)) }
{
    match codes.get(number) {
        Some(code) => all_keep(alloc, reach, node, code.ops()),
        None => Ok(true),
    }
}

fn all_keep(alloc: Global, reach: &Reach<'_>, node: Node, ops: &[Op]) -> Result<bool, AllocError>
    ensures { IfOk result (λ keeps. keeps ≡ true → spec.OpsBy reach.now.words.now reach.now.line.now reach.now.called.now reach.now.read.now reach.now.written.now node ops.now) }
{
    let listed = listed_of(alloc, ops)?;
    Ok(ops_keep(
        reach,
        node,
        listed.loaded.as_slice(),
        listed.stored.as_slice(),
        ops,
    ))
}

/// The elements that ops load, and those that they store.
#[derive(Drop)]
struct Listed {
    loaded: Vec<Elements>,
    stored: Vec<Elements>,
}

/// Lists the elements of ops, those that differ once each.
fn listed_of(alloc: Global, ops: &[Op]) -> Result<Listed, AllocError> {
    let mut loaded = Vec::new(alloc);
    let mut stored = Vec::new(alloc);
    for op in ops {
        match op {
            Op::LoadAt { from, .. } => add_elements(*from, &mut loaded)?,
            Op::StoreAt { to, .. } => add_elements(*to, &mut stored)?,
            _ => {}
        }
    }
    Ok(Listed { loaded, stored })
}

fn add_elements(elements: Elements, listed: &mut Vec<Elements>) -> Result<(), AllocError> {
    if is_listed(listed.as_slice(), &elements) {
        return Ok(());
    }
    listed.push(elements)?;
    Ok(())
}

fn is_listed(listed: &[Elements], elements: &Elements) -> bool
    ensures { result ≡ spec.is_listed listed.now elements.now }
{
    listed.iter().any(|known| {
        known.base == elements.base
            && known.stride == elements.stride
            && known.count == elements.count
    })
}

fn ops_keep(
    reach: &Reach<'_>,
    node: Node,
    loaded: &[Elements],
    stored: &[Elements],
    ops: &[Op],
) -> bool
    ensures { result ≡ spec.ops_by reach.now.words.now reach.now.line.now reach.now.called.now reach.now.read.now reach.now.written.now node loaded.now stored.now ops.now }
{
    each_loads(reach, node, loaded)
        && each_stores(reach, node, stored)
        && each_op(reach, node, loaded, stored, ops)
}

fn each_op(
    reach: &Reach<'_>,
    node: Node,
    loaded: &[Elements],
    stored: &[Elements],
    ops: &[Op],
) -> bool
    ensures { result ≡ list_all (spec.op_by reach.now.words.now reach.now.line.now reach.now.called.now reach.now.read.now reach.now.written.now node loaded.now stored.now) ops.now }
{
    ops.iter()
        .all(|op| op_keeps(reach, node, loaded, stored, op))
}

fn each_loads(reach: &Reach<'_>, node: Node, listed: &[Elements]) -> bool
    ensures { result ≡ list_all (spec.loads_all_by reach.now.words.now reach.now.line.now reach.now.called.now reach.now.read.now reach.now.written.now node) listed.now }
{
    listed
        .iter()
        .all(|elements| loads_all(reach, node, elements))
}

fn each_stores(reach: &Reach<'_>, node: Node, listed: &[Elements]) -> bool
    ensures { result ≡ list_all (spec.stores_all_by reach.now.words.now reach.now.line.now reach.now.called.now reach.now.read.now reach.now.written.now node) listed.now }
{
    listed
        .iter()
        .all(|elements| stores_all(reach, node, elements))
}

fn op_keeps(
    reach: &Reach<'_>,
    node: Node,
    loaded: &[Elements],
    stored: &[Elements],
    op: &Op,
) -> bool
    ensures { result ≡ spec.op_by reach.now.words.now reach.now.line.now reach.now.called.now reach.now.read.now reach.now.written.now node loaded.now stored.now op.now }
{
    match op {
        Op::Load { word, .. } => loads(reach, node, *word as usize),
        Op::LoadAt { from, .. } => is_listed(loaded, from),
        Op::Store { word, .. } => stores(reach, node, *word as usize),
        Op::StoreAt { to, .. } => is_listed(stored, to),
        Op::Call { import, .. } => calls(reach, node, *import),
        _ => true,
    }
}

/// Whether each element may be loaded. A memory that is named whole is found without looking at its elements.
fn loads_all(reach: &Reach<'_>, node: Node, elements: &Elements) -> bool
    ensures { result ≡ spec.loads_all_by reach.now.words.now reach.now.line.now reach.now.called.now reach.now.read.now reach.now.written.now node elements.now }
{
    match node {
        Node::Comb(_) => is_whole(reach, elements) || loads_each(reach, node, elements),
        Node::Body(_) => is_whole(reach, elements) || loads_each(reach, node, elements),
        Node::Commit(_) => loads_each(reach, node, elements),
    }
}

fn is_whole(reach: &Reach<'_>, elements: &Elements) -> bool
    ensures { result ≡ spec.elements_by reach.now.words.now reach.now.line.now reach.now.called.now reach.now.read.now reach.now.written.now elements.now }
{
    elements.base > 0
        && (spans(reach, reach.read, elements) || spans(reach, reach.written, elements))
}

/// Whether the words from that of the first element to that of the last one are in one range.
fn spans(reach: &Reach<'_>, ranges: &[BitRange], elements: &Elements) -> bool
    ensures { result ≡ spec.spans reach.now.line.now ranges.now (slice_get reach.now.words.now elements.now.base) (slice_get reach.now.words.now (elements.now.base + (elements.now.count - 1) * elements.now.stride)) }
{
    let last = element(elements, elements.count.saturating_sub(1));
    match (
        reach.words.get(elements.base as usize),
        reach.words.get(last),
    ) {
        (Some(first), Some(last)) => {
            !first.shadow && (!last.shadow && covers(reach.line, *first, *last, ranges))
        },
        _ => false,
    }
}

/// The word of an element.
fn element(elements: &Elements, number: u32) -> usize
    ensures { result ≡ elements.now.base + number * elements.now.stride }
{
    elements.base as usize + number as usize * elements.stride as usize
}

/// Whether a range has the lowest bits of two words, the first one in front of the second.
fn covers(line: &BitLine, first: Word, last: Word, ranges: &[BitRange]) -> bool
    ensures { result ≡ list_any (spec.covers (place_of line.now first.holds) (place_of line.now last.holds)) ranges.now }
{
    let (low, high) = (line.place(first.holds), line.place(last.holds));
    ranges
        .iter()
        .any(|range| range.from <= low && high < range.to)
}

/// Whether each element may be loaded, one after the other.
fn loads_each(reach: &Reach<'_>, node: Node, elements: &Elements) -> bool
    ensures { result ≡ touches.all_below (λ k. (spec.touch_by reach.now.words.now reach.now.line.now reach.now.called.now reach.now.read.now reach.now.written.now node).loads (elements.now.base + k * elements.now.stride)) elements.now.count }
{
    let mut left = elements.count;
    'elements: while left > 0 {
        left -= 1;
        if !loads(reach, node, element(elements, left)) {
            return false;
        }
    }
    true
}

/// Whether each element may be stored.
fn stores_all(reach: &Reach<'_>, node: Node, elements: &Elements) -> bool
    ensures { result ≡ spec.stores_all_by reach.now.words.now reach.now.line.now reach.now.called.now reach.now.read.now reach.now.written.now node elements.now }
{
    let mut left = elements.count;
    'elements: while left > 0 {
        left -= 1;
        if !stores(reach, node, element(elements, left)) {
            return false;
        }
    }
    true
}

fn loads(reach: &Reach<'_>, node: Node, word: usize) -> bool
    ensures { result ≡ (spec.touch_by reach.now.words.now reach.now.line.now reach.now.called.now reach.now.read.now reach.now.written.now node).loads word }
{
    match node {
        Node::Comb(_) => is_named(reach, word),
        Node::Body(_) => is_named(reach, word) || is_shadowed(reach, word),
        Node::Commit(_) => is_shadowed(reach, word),
    }
}

fn stores(reach: &Reach<'_>, node: Node, word: usize) -> bool
    ensures { result ≡ (spec.touch_by reach.now.words.now reach.now.line.now reach.now.called.now reach.now.read.now reach.now.written.now node).stores word }
{
    match node {
        Node::Comb(_) => is_written(reach, word),
        Node::Body(_) => is_shadowed(reach, word),
        Node::Commit(_) => is_written(reach, word),
    }
}

fn calls(reach: &Reach<'_>, node: Node, import: u32) -> bool
    ensures { result ≡ (spec.touch_by reach.now.words.now reach.now.line.now reach.now.called.now reach.now.read.now reach.now.written.now node).calls import }
{
    match node {
        Node::Comb(_) => is_called_by(reach.called, import),
        Node::Body(_) => is_called_by(reach.called, import),
        Node::Commit(_) => false,
    }
}

fn is_called_by(called: &[bool], import: u32) -> bool
    ensures { result ≡ spec.called_by called.now import }
{
    called.get(import as usize).copied().unwrap_or(false)
}

/// Whether a word that is no shadow has a bit that the process reads or writes.
fn is_named(reach: &Reach<'_>, word: usize) -> bool
    ensures { result ≡ spec.named_by reach.now.words.now reach.now.line.now reach.now.called.now reach.now.read.now reach.now.written.now word }
{
    is_plain(reach, reach.read, word) || is_plain(reach, reach.written, word)
}

/// Whether a word that is no shadow has a bit that the process writes.
fn is_written(reach: &Reach<'_>, word: usize) -> bool
    ensures { result ≡ spec.written_by reach.now.words.now reach.now.line.now reach.now.called.now reach.now.read.now reach.now.written.now word }
{
    is_plain(reach, reach.written, word)
}

/// Whether a word is the shadow of bits that the process writes.
fn is_shadowed(reach: &Reach<'_>, word: usize) -> bool
    ensures { result ≡ spec.shadowed_by reach.now.words.now reach.now.line.now reach.now.called.now reach.now.read.now reach.now.written.now word }
{
    match reach.words.get(word) {
        Some(word) => word.shadow && is_reached(reach.line, reach.written, *word),
        None => false,
    }
}

fn is_plain(reach: &Reach<'_>, ranges: &[BitRange], word: usize) -> bool
    ensures { result ≡ spec.plain_reached reach.now.line.now ranges.now (slice_get reach.now.words.now word) }
{
    match reach.words.get(word) {
        Some(word) => !word.shadow && is_reached(reach.line, ranges, *word),
        None => false,
    }
}

/// Whether some bit of a word is in ranges.
fn is_reached(line: &BitLine, ranges: &[BitRange], word: Word) -> bool
    ensures { result ≡ spec.word_reached line.now ranges.now word }
{
    let from = line.place(word.holds);
    reaches(from, from.saturating_add(u128::from(word.len)), ranges)
}

/// Whether some of the bits from one place on and before another are in ranges.
pub(crate) fn reaches(from: u128, to: u128, ranges: &[BitRange]) -> bool
    ensures { result ≡ spec.reached from to ranges.now }
{
    ranges
        .iter()
        .any(|range| range.from.max(from) < range.to.min(to))
}
