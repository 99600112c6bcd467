//! Stores of a part of a value to one target.
ghost use Rattle.std.specs.Prelude.{◌≡◌, ◌≤◌, ◌<◌, ◌+◌, OnOk, IfOk};
ghost use Rattle.vs_base.specs.declared.limits.TheConstants.{WORD};

use crate::fault::CodeFault;
use crate::here::{Here, Piece};
use crate::stand::{Part, Stand, part_of, stand_of};
use crate::tail::Tail;
use rtl_ir::{Target, Width};
use task_eval::Index;

/// What is written: so many bits of the value, from a place on. The value stands on so many others.
#[derive(Clone, Copy, Debug, PartialEq, Eq)]
pub(crate) struct Source {
    pub height: u32,
    pub low: u32,
    pub width: Width,
}

/// What is written where. The address and the index that are taken when the code runs stand on so many values; where there
/// is none the number is that of the value.
#[derive(Clone, Copy, Debug, PartialEq, Eq)]
struct Aim {
    stand: Stand,
    part: Part,
    source: Source,
    address: u32,
    index: u32,
}

/// Writes a part of a value to a target. Its indices are the last ones of so many values; gives how many stand before them.
pub(crate) fn write_target(
    target: &Target,
    source: &Source,
    values: u32,
    here: &Here<'_>,
    out: &mut Tail,
) -> Result<u32, CodeFault>
    requires limits { out.old.held.limits ≡ here.now.limits }
    requires below { here.now.limits.to ≤ here.now.limits.words }
    requires value { source.now.height < out.old.depth }
    requires values { values ≤ out.old.depth }
    ensures depth { OnOk result (out.new.depth ≡ out.old.depth) }
    ensures held { OnOk result (out.new.held ≡ out.old.held) }
    ensures values { IfOk result (λ before. before ≤ values) }
{
    let own = here.own(target)?;
    let mut aim = Aim {
        stand: stand_of(target, &own, here)?,
        part: part_of(target, &own),
        source: *source,
        address: source.height,
        index: source.height,
    };
    let mut before = values;
    if matches!(aim.part, Part::Index(_, _)) {
        before = one_below(before)?;
        aim.index = before;
    }
    if matches!(aim.stand, Stand::Element(_, _)) {
        before = one_below(before)?;
        aim.address = before;
    }
    write_pieces(&aim, here, out)?;
    Ok(before)
}

/// One less.
fn one_below(values: u32) -> Result<u32, CodeFault>
    ensures { IfOk result (λ before. before < values) }
{
    match values.checked_sub(1) {
        Some(before) => Ok(before),
        None => Err(CodeFault::DoesNotFit),
    }
}

/// Writes to each word that holds bits which are named.
fn write_pieces(aim: &Aim, here: &Here<'_>, out: &mut Tail) -> Result<(), CodeFault>
    requires limits { out.old.held.limits ≡ here.now.limits }
    requires below { here.now.limits.to ≤ here.now.limits.words }
    requires value { aim.now.source.height < out.old.depth }
    requires address { aim.now.address < out.old.depth }
    requires index { aim.now.index < out.old.depth }
    ensures depth { OnOk result (out.new.depth ≡ out.old.depth) }
    ensures held { OnOk result (out.new.held ≡ out.old.held) }
{
    let (first, count) = match aim.stand {
        Stand::Words(span) => (span.first, span.count),
        Stand::Element(rows, _) => (rows.first, rows.stride),
        Stand::Nowhere => (0, 0),
    };
    for number in 0..count {
        let piece = here.piece(first.saturating_add(number))?;
        write_piece(aim, number, piece, here, out)?;
    }
    Ok(())
}

/// Writes to a word, if it holds bits which are named.
fn write_piece(
    aim: &Aim,
    number: u32,
    piece: Piece,
    here: &Here<'_>,
    out: &mut Tail,
) -> Result<(), CodeFault>
    requires limits { out.old.held.limits ≡ here.now.limits }
    requires below { here.now.limits.to ≤ here.now.limits.words }
    requires some { 1 ≤ piece.len }
    requires most { piece.len ≤ WORD }
    requires value { aim.now.source.height < out.old.depth }
    requires address { aim.now.address < out.old.depth }
    requires index { aim.now.index < out.old.depth }
    ensures depth { OnOk result (out.new.depth ≡ out.old.depth) }
    ensures held { OnOk result (out.new.held ≡ out.old.held) }
{
    let low = i64::from(aim.source.low);
    let bit = i64::from(piece.bit);
    match aim.part {
        Part::All => write_whole(aim, number, piece, low + bit, here, out),
        Part::At(at, width) => {
            let end = at.saturating_add(i64::from(width));
            if bit >= end || at >= bit + i64::from(piece.len) {
                return Ok(());
            }
            if at <= bit && bit + i64::from(piece.len) <= end {
                let from = low.saturating_add(bit.saturating_sub(at));
                return write_whole(aim, number, piece, from, here, out);
            }
            write_within(aim, number, piece, at.saturating_sub(bit), here, out)
        }
        Part::Index(index, _) => {
            let index = Index {
                low: index.low.saturating_add(bit),
                ..index
            };
            write_at(aim, number, piece, index, here, out)
        }
    }
}

/// Writes bits of the value from a place on to a whole word.
fn write_whole(
    aim: &Aim,
    number: u32,
    piece: Piece,
    low: i64,
    here: &Here<'_>,
    out: &mut Tail,
) -> Result<(), CodeFault>
    requires limits { out.old.held.limits ≡ here.now.limits }
    requires below { here.now.limits.to ≤ here.now.limits.words }
    requires some { 1 ≤ piece.len }
    requires most { piece.len ≤ WORD }
    requires value { aim.now.source.height < out.old.depth }
    requires address { aim.now.address < out.old.depth }
    ensures depth { OnOk result (out.new.depth ≡ out.old.depth) }
    ensures held { OnOk result (out.new.held ≡ out.old.held) }
{
    store_piece(aim, number, piece, here, out)?;
    if low != 0 {
        out.slice(low, piece.len)?;
    }
    out.pick(aim.source.height)
}

/// Writes to bits of a word from a place on.
fn write_within(
    aim: &Aim,
    number: u32,
    piece: Piece,
    at: i64,
    here: &Here<'_>,
    out: &mut Tail,
) -> Result<(), CodeFault>
    requires limits { out.old.held.limits ≡ here.now.limits }
    requires below { here.now.limits.to ≤ here.now.limits.words }
    requires some { 1 ≤ piece.len }
    requires most { piece.len ≤ WORD }
    requires value { aim.now.source.height < out.old.depth }
    requires address { aim.now.address < out.old.depth }
    ensures depth { OnOk result (out.new.depth ≡ out.old.depth) }
    ensures held { OnOk result (out.new.held ≡ out.old.held) }
{
    store_piece(aim, number, piece, here, out)?;
    out.place(at)?;
    push_part(&aim.source, out)?;
    load_piece(aim, number, piece, here, out)
}

/// Writes to bits of a word from the place that an index names on.
fn write_at(
    aim: &Aim,
    number: u32,
    piece: Piece,
    index: Index,
    here: &Here<'_>,
    out: &mut Tail,
) -> Result<(), CodeFault>
    requires limits { out.old.held.limits ≡ here.now.limits }
    requires below { here.now.limits.to ≤ here.now.limits.words }
    requires some { 1 ≤ piece.len }
    requires most { piece.len ≤ WORD }
    requires value { aim.now.source.height < out.old.depth }
    requires address { aim.now.address < out.old.depth }
    requires index { aim.now.index < out.old.depth }
    ensures depth { OnOk result (out.new.depth ≡ out.old.depth) }
    ensures held { OnOk result (out.new.held ≡ out.old.held) }
{
    store_piece(aim, number, piece, here, out)?;
    put_at(aim, index, out)?;
    load_piece(aim, number, piece, here, out)
}

/// Takes a word, and pushes it with a part of the value put at the place that an index names.
fn put_at(aim: &Aim, index: Index, out: &mut Tail) -> Result<(), CodeFault>
    requires deep { 1 ≤ out.old.depth }
    requires value { aim.now.source.height + 2 ≤ out.old.depth }
    requires index { aim.now.index + 2 ≤ out.old.depth }
    ensures depth { OnOk result (out.new.depth ≡ out.old.depth) }
    ensures held { OnOk result (out.new.held ≡ out.old.held) }
{
    out.place_at(index)?;
    out.pick(aim.index)?;
    push_part(&aim.source, out)
}

/// Pushes a part of the value.
fn push_part(source: &Source, out: &mut Tail) -> Result<(), CodeFault>
    requires value { source.now.height + 2 ≤ out.old.depth }
    ensures depth { OnOk result (out.new.depth + 1 ≡ out.old.depth) }
    ensures held { OnOk result (out.new.held ≡ out.old.held) }
{
    out.slice(i64::from(source.low), source.width.bits())?;
    out.pick(source.height)
}

/// Takes a value, and stores it in a word.
fn store_piece(
    aim: &Aim,
    number: u32,
    piece: Piece,
    here: &Here<'_>,
    out: &mut Tail,
) -> Result<(), CodeFault>
    requires limits { out.old.held.limits ≡ here.now.limits }
    requires below { here.now.limits.to ≤ here.now.limits.words }
    requires some { 1 ≤ piece.len }
    requires most { piece.len ≤ WORD }
    requires address { aim.now.address < out.old.depth }
    ensures depth { OnOk result (out.new.depth ≡ out.old.depth + 1) }
    ensures held { OnOk result (out.new.held ≡ out.old.held) }
{
    if let Stand::Element(rows, by) = aim.stand {
        let column = here.stored_column(rows, number, by)?;
        out.store_at(column, piece.len)?;
        return out.pick(aim.address);
    }
    let word = here.stored(piece.word)?;
    out.store(word, piece.len)
}

/// Pushes a word, as it is stored.
fn load_piece(
    aim: &Aim,
    number: u32,
    piece: Piece,
    here: &Here<'_>,
    out: &mut Tail,
) -> Result<(), CodeFault>
    requires limits { out.old.held.limits ≡ here.now.limits }
    requires below { here.now.limits.to ≤ here.now.limits.words }
    requires some { 1 ≤ piece.len }
    requires most { piece.len ≤ WORD }
    requires address { aim.now.address + 2 ≤ out.old.depth }
    ensures depth { OnOk result (out.new.depth + 1 ≡ out.old.depth) }
    ensures held { OnOk result (out.new.held ≡ out.old.held) }
{
    if let Stand::Element(rows, by) = aim.stand {
        let column = here.stored_column(rows, number, by)?;
        out.load_at(column, piece.len)?;
        return out.pick(aim.address);
    }
    let word = here.stored(piece.word)?;
    out.load(word, piece.len)
}
