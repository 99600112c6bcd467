//! Where the elements of a variable or a memory are cut.

ghost use Rattle.std.specs.Prelude.{◌≡◌, ◌≤◌, ◌<◌, ◌+◌, ◌^◌, ◌++◌, ◌==◌, ◌||◌, ◌&&◌, nat_lt, if◌then◌else◌, length, IfOk, OnOk, ℕ};
ghost use Rattle.rtl_pieces.specs.Words as spec;

use crate::item::Item;
use crate::line::place_in;
use crate::writer::writer_at;
use std::alloc::{AllocError, Global};
use vs_base::limits;

/// Bits of an element that stand side by side.
#[derive(Clone, Copy, Debug, PartialEq, Eq)]
pub struct Piece {
    /// The number of its lowest bit.
    pub bit: u32,
    pub len: u32,
}

/// How many bits of an element directly below the next bit have its writer, where so many directly below a bit have that bit's.
/// The lowest bit of the element stands at a place.
fn same_below_next(first: u128, bit: u32, same: u32, writers: &[Option<u32>]) -> u32
    requires near { first ≤ 2 ^ 126 }
    requires same { same ≡ spec.same_below (spec.noted writers.now) first bit }
    requires few { same ≤ bit }
    requires more { bit + 1 < 2 ^ 32 }
    ensures same { result ≡ spec.same_below (spec.noted writers.now) first (bit + 1) }
    ensures few { result ≤ bit + 1 }
{
    let place = first + u128::from(bit);
    if writer_at(writers, place + 1) != writer_at(writers, place) {
        return 0;
    }
    same + 1
}

/// Marks a bit where it begins a piece.
fn mark(bit: u32, begins: bool, marks: &mut [bool])
    requires within { bit < length marks.old }
    ensures { (b : ℕ) → spec.marked marks.new b ≡ spec.marked marks.old b || ((b == bit) && begins) }
{
    if begins {
        marks[bit as usize] = true;
    }
}

/// Marks the bits of an element at which it is cut. Its lowest bit stands at a place.
fn mark_element(first: u128, width: u32, writers: &[Option<u32>], marks: &mut [bool])
    requires near { first ≤ 2 ^ 126 }
    requires whole { length marks.old ≡ width }
    ensures { (b : ℕ) → spec.marked marks.new b ≡ spec.marked marks.old b || (nat_lt b width && spec.begins (spec.noted writers.now) first b) }
{
    let mut same: u32 = 0;
    for bit in 0..width {
        mark(bit, same % limits::WORD == 0, marks);
        same = same_below_next(first, bit, same, writers);
    }
}

/// Marks the bits at which some element is cut.
fn mark_elements(item: Item, writers: &[Option<u32>], marks: &mut [bool])
    requires near { item.first ≤ 2 ^ 124 }
    requires whole { length marks.old ≡ item.width }
    ensures { (b : ℕ) → spec.marked marks.new b ≡ spec.marked marks.old b || (nat_lt b item.width && spec.is_cut (spec.noted writers.now) item b 0 item.elements) }
{
    for element in 0..item.elements {
        mark_element(place_in(item, element, 0), item.width, writers, marks);
    }
}

/// Whether some element is cut below a bit, for each bit.
fn cuts(alloc: Global, item: Item, writers: &[Option<u32>]) -> Result<Vec<bool>, AllocError>
    requires near { item.first ≤ 2 ^ 124 }
    ensures { IfOk result (λ out. (b : ℕ) → spec.marked out.items b ≡ nat_lt b item.width && spec.is_cut (spec.noted writers.now) item b 0 item.elements) }
{
    let mut marks = vec![in alloc; false; item.width as usize]?;
    mark_elements(item, writers, marks.as_mut_slice());
    Ok(marks)
}

/// Whether a bit is marked.
fn is_marked(marks: &[bool], bit: u32) -> bool
    ensures { result ≡ spec.marked marks.now bit }
{
    match marks.get(bit as usize) {
        Some(mark) => *mark,
        None => false,
    }
}

/// Adds the piece from a bit up to another, where the element is cut there; the bit from which the next piece begins.
fn add_piece(cut: bool, from: u32, bit: u32, pieces: &mut Vec<Piece>) -> Result<u32, AllocError>
    requires above { from < bit }
    ensures pieces { OnOk result (pieces.new.items ≡ pieces.old.items ++ spec.piece_if cut from bit) }
    ensures from { IfOk result (λ next. next ≡ (if cut then bit else from)) }
{
    if !cut {
        return Ok(from);
    }
    pieces.push(Piece {
        bit: from,
        len: bit - from,
    })?;
    Ok(bit)
}

/// The pieces of each element, the lowest first.
pub fn pieces(alloc: Global, item: Item, writers: &[Option<u32>]) -> Result<Vec<Piece>, AllocError>
    requires near { item.first ≤ 2 ^ 124 }
    requires some { 1 ≤ item.width }
    ensures { IfOk result (λ out. out.items ≡ spec.pieces_of (spec.noted writers.now) item) }
{
    let cuts = cuts(alloc, item, writers)?;
    let mut pieces = Vec::new(alloc);
    let mut from: u32 = 0;
    for bit in 1..item.width {
        let cut = is_marked(cuts.as_slice(), bit);
        from = add_piece(cut, from, bit, &mut pieces)?;
    }
    pieces.push(Piece {
        bit: from,
        len: item.width - from,
    })?;
    Ok(pieces)
}
