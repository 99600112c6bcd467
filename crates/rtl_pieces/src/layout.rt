//! The words of a design.

ghost use Rattle.std.specs.Prelude.{◌≡◌, ◌≤◌, ◌<◌, ◌+◌, ◌^◌, ◌++◌, ◌∷◌, [], ℕ, map, length, drop, IfOk, IfErr, OnOk};
ghost use Rattle.std.specs.List.{All};
ghost use Rattle.vs_base.specs.declared.limits.TheConstants.{WORD, WORDS};
ghost use Rattle.rtl_pieces.specs.Bits.{line_in};
ghost use Rattle.rtl_pieces.specs.Line.{place_of};
ghost use Rattle.rtl_pieces.specs.Words as spec;
ghost use Rattle.rtl_pieces.specs.Layouts.{ManyIf};

use crate::bit::BitRef;
use crate::fault::CutFault;
use crate::item::Item;
use crate::line::BitLine;
use crate::pieces::{Piece, pieces};
use crate::writer::{writer_at, writers};
use rtl_ir::{Design, Proc, ProcKind};
use std::alloc::Global;
use vs_base::limits;

/// A word.
#[derive(Clone, Copy, Debug, PartialEq, Eq)]
pub struct Word {
    /// The lowest bit that it holds.
    pub holds: BitRef,
    /// How many bits it holds.
    pub len: u32,
    /// It keeps what a clocked process writes until the process is committed.
    pub shadow: bool,
}

/// The words of a design: word 0, which holds no bit, then the pieces of the variables and of the memories, and then the
/// shadows.
#[derive(Debug, Drop)]
pub struct Layout {
    pub words: Vec<Word>,
}

/// What holds no bit and belongs to the table.
const TABLE_WORD: Word = Word {
    holds: BitRef {
        mem: false,
        item: 0,
        element: 0,
        bit: 0,
    },
    len: 0,
    shadow: false,
};

/// Adds a word.
fn add_word(word: Word, words: &mut Vec<Word>) -> Result<(), CutFault>
    ensures words { OnOk result (words.new.items ≡ words.old.items ++ word ∷ []) }
    ensures few { OnOk result (length words.new.items ≤ WORDS) }
    ensures many { IfErr result (ManyIf (WORDS < length words.old.items + 1)) }
{
    if words.len() >= limits::WORDS {
        return Err(CutFault::TooMany);
    }
    words.push(word)?;
    Ok(())
}

/// Adds the words of an element, of which this is the lowest bit.
fn add_element(lowest: BitRef, pieces: &[Piece], words: &mut Vec<Word>) -> Result<(), CutFault>
    requires few { length words.old.items ≤ WORDS }
    ensures words { OnOk result (words.new.items ≡ words.old.items ++ map (spec.word_of lowest.mem lowest.item lowest.element) pieces.now) }
    ensures few { OnOk result (length words.new.items ≤ WORDS) }
    ensures many { IfErr result (ManyIf (WORDS < length words.old.items + length pieces.now)) }
{
    let mut rest = pieces;
    while let [piece, more @ ..] = rest {
        let holds = BitRef {
            bit: piece.bit,
            ..lowest
        };
        add_word(
            Word {
                holds,
                len: piece.len,
                shadow: false,
            },
            words,
        )?;
        rest = more;
    }
    Ok(())
}

/// Adds the words of so many elements.
fn add_elements(
    lowest: BitRef,
    elements: u32,
    pieces: &[Piece],
    words: &mut Vec<Word>,
) -> Result<(), CutFault>
    requires few { length words.old.items ≤ WORDS }
    ensures words { OnOk result (words.new.items ≡ words.old.items ++ spec.element_words lowest.mem lowest.item pieces.now 0 elements) }
    ensures few { OnOk result (length words.new.items ≤ WORDS) }
    ensures many { IfErr result (ManyIf (WORDS < length words.old.items + length (spec.element_words lowest.mem lowest.item pieces.now 0 elements))) }
{
    for element in 0..elements {
        add_element(BitRef { element, ..lowest }, pieces, words)?;
    }
    Ok(())
}

/// Adds the words of a variable or a memory.
fn add_item(
    alloc: Global,
    number: BitRef,
    item: Item,
    writers: &[Option<u32>],
    words: &mut Vec<Word>,
) -> Result<(), CutFault>
    requires near { item.first ≤ 2 ^ 124 }
    requires some { 1 ≤ item.width }
    requires few { length words.old.items ≤ WORDS }
    ensures words { OnOk result (words.new.items ≡ words.old.items ++ spec.item_words (spec.noted writers.now) number.mem number.item item) }
    ensures few { OnOk result (length words.new.items ≤ WORDS) }
    ensures many { IfErr result (ManyIf (WORDS < length words.old.items + length (spec.item_words (spec.noted writers.now) number.mem number.item item))) }
{
    let pieces = pieces(alloc, item, writers)?;
    add_elements(number, item.elements, pieces.as_slice(), words)
}

/// Adds the words of all variables and memories.
fn add_items(
    alloc: Global,
    line: &BitLine,
    writers: &[Option<u32>],
    words: &mut Vec<Word>,
) -> Result<(), CutFault>
    requires vars { line.now.vars < 2 ^ 32 }
    requires mems { length line.now.items < line.now.vars + 2 ^ 32 }
    requires few { length words.old.items ≤ WORDS }
    ensures words { OnOk result (words.new.items ≡ words.old.items ++ spec.words_from (spec.noted writers.now) line.now.vars 0 line.now.items) }
    ensures few { OnOk result (length words.new.items ≤ WORDS) }
    ensures many { IfErr result (ManyIf (WORDS < length words.old.items + length (spec.words_from (spec.noted writers.now) line.now.vars 0 line.now.items))) }
{
    let mut number: usize = 0;
    let mut rest = line.items();
    while let [item, more @ ..] = rest {
        add_item(alloc, line.first_bit(number), *item, writers, words)?;
        number += 1;
        rest = more;
    }
    Ok(())
}

/// Whether a process is there and clocked.
fn is_clocked(procs: &[Proc], proc: Option<u32>) -> bool
    ensures { result ≡ spec.is_clocked procs.now proc }
{
    let Some(proc) = proc else {
        return false;
    };
    match procs.get(proc as usize) {
        Some(process) => matches!(process.kind, ProcKind::Clocked(_)),
        None => false,
    }
}

/// Adds the shadow of a word whose writer is clocked.
fn add_shadow(
    procs: &[Proc],
    line: &BitLine,
    writers: &[Option<u32>],
    word: Word,
    words: &mut Vec<Word>,
) -> Result<(), CutFault>
    requires few { length words.old.items ≤ WORDS }
    ensures words { OnOk result (words.new.items ≡ words.old.items ++ spec.shadow_if (spec.is_clocked procs.now (spec.noted writers.now (place_of line.now word.holds))) word) }
    ensures few { OnOk result (length words.new.items ≤ WORDS) }
    ensures many { IfErr result (ManyIf (WORDS < length words.old.items + length (spec.shadow_if (spec.is_clocked procs.now (spec.noted writers.now (place_of line.now word.holds))) word))) }
{
    if !is_clocked(procs, writer_at(writers, line.place(word.holds))) {
        return Ok(());
    }
    add_word(
        Word {
            shadow: true,
            ..word
        },
        words,
    )
}

/// Adds a shadow for each of the first words whose writer is clocked.
fn add_shadows(
    procs: &[Proc],
    line: &BitLine,
    writers: &[Option<u32>],
    words: &mut Vec<Word>,
) -> Result<(), CutFault>
    requires few { length words.old.items ≤ WORDS }
    requires writers { (b : ℕ) → spec.noted writers.now b ≡ spec.writer_of line.now procs.now b }
    ensures words { OnOk result (words.new.items ≡ words.old.items ++ spec.shadows_of line.now procs.now (drop 1 words.old.items)) }
    ensures few { OnOk result (length words.new.items ≤ WORDS) }
    ensures many { IfErr result (ManyIf (WORDS < length words.old.items + length (spec.shadows_of line.now procs.now (drop 1 words.old.items)))) }
{
    for number in 1..words.len() {
        add_shadow(procs, line, writers, words[number], words)?;
    }
    Ok(())
}

/// The words of a line, whose bits have these writers.
fn layout_of(
    alloc: Global,
    procs: &[Proc],
    line: &BitLine,
    writers: &[Option<u32>],
) -> Result<Layout, CutFault>
    requires vars { line.now.vars < 2 ^ 32 }
    requires mems { length line.now.items < line.now.vars + 2 ^ 32 }
    requires writers { (b : ℕ) → spec.noted writers.now b ≡ spec.writer_of line.now procs.now b }
    ensures words { IfOk result (λ layout. layout.words.items ≡ spec.words_in line.now procs.now) }
    ensures few { IfOk result (λ layout. length layout.words.items ≤ WORDS) }
    ensures many { IfErr result (ManyIf (WORDS < length (spec.words_in line.now procs.now))) }
{
    let mut words = Vec::new(alloc);
    add_word(TABLE_WORD, &mut words)?;
    add_items(alloc, line, writers, &mut words)?;
    add_shadows(procs, line, writers, &mut words)?;
    Ok(Layout { words })
}

/// The words of a design.
///
/// `TooMany`: there are more than [`limits::WORDS`] of them.
/// `NoMemory`: there was none left.
pub fn cut(alloc: Global, design: &Design) -> Result<Layout, CutFault>
    requires procs { length design.now.procs < 2 ^ 32 }
    requires vars { length design.now.vars < 2 ^ 32 }
    requires mems { length design.now.mems < 2 ^ 32 }
    ensures words { IfOk result (λ layout. layout.words.items ≡ spec.words_in (line_in design.now) design.now.procs) }
    ensures few { IfOk result (λ layout. length layout.words.items ≤ WORDS) }
    ensures many { IfErr result (ManyIf (WORDS < length (spec.words_in (line_in design.now) design.now.procs))) }
    ensures short { IfOk result (λ layout. All (λ word. word.len ≤ WORD) layout.words.items) }
    ensures pieces { IfOk result (λ layout. All (spec.IsPiece (line_in design.now) design.now.procs) (spec.pieces_in (line_in design.now) design.now.procs)) }
    ensures tiles { IfOk result (λ layout. spec.Tiles (line_in design.now) 0 (line_in design.now).bits (spec.pieces_in (line_in design.now) design.now.procs)) }
{
    let line = BitLine::new(alloc, design)?;
    if line.bits() > MOST_BITS {
        return Err(CutFault::TooMany);
    }
    let writers = writers(alloc, design, &line, line.bits() as usize)?;
    layout_of(alloc, design.procs.as_slice(), &line, writers.as_slice())
}

/// More bits than these are more words than [`limits::WORDS`], since a word holds at most [`limits::WORD`] of them.
const MOST_BITS: u128 = 65_535 * 64;
