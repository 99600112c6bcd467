//! Commits: the shadows of what a process writes are copied to their words (IEEE 1800-2017 10.4.2).
ghost use Rattle.std.specs.Prelude.{◌≡◌, ◌≤◌, ◌<◌, ◌+◌, ◌∷◌, [], drop, length, slice_get, Some, false, OnOk, IfOk};
ghost use Rattle.vs_base.specs.declared.limits.TheConstants.{WORD};
ghost use Rattle.task_eval.specs.declared.op.Op.TheVariants as the_op;
ghost use Rattle.task_eval.specs.Soundness.{IsWithin};
ghost use Rattle.rtl_pieces.specs.Line.{has, place_of};
ghost use Rattle.task_code.specs.Compiled.{IsCommit, CopiesFrom, Copied};

use crate::fault::CodeFault;
use crate::table::Table;
use crate::tail::{Limits, Tail};
use rtl_pieces::{BitLine, BitRange, Word};
use std::alloc::Global;
use task_eval::Code;
use vs_base::limits::WORD;

/// What a commit looks at.
#[derive(Clone, Copy)]
pub(crate) struct Written<'a> {
    pub words: &'a [Word],
    pub table: &'a Table,
    pub line: &'a BitLine,
    /// The bits that the process writes.
    pub ranges: &'a [BitRange],
}

/// The commit code of a process, which names and stores only what it may.
pub(crate) fn commit_code(
    alloc: Global,
    written: &Written<'_>,
    limits: Limits,
) -> Result<Code, CodeFault>
    requires words { limits.words ≡ length written.now.words.now }
    requires below { limits.to ≤ limits.words }
    ensures within { IfOk result (λ code. IsWithin limits.words limits.imports code.ops) }
    ensures commit { IfOk result (λ code. IsCommit written.now.words.now (λ word. has (place_of written.now.line.now word.holds) written.now.ranges.now) code) }
{
    let mut out = Tail::new(alloc, limits);
    for number in (0..written.words.len()).rev() {
        add_copy(number, written, &limits, &mut out)?;
    }
    Ok(out.into_code())
}

/// Copies a word to its word, where it is a shadow of bits that the process writes.
fn add_copy(
    number: usize,
    written: &Written<'_>,
    limits: &Limits,
    out: &mut Tail,
) -> Result<(), CodeFault>
    requires there { number < length written.now.words.now }
    requires words { limits.now.words ≡ length written.now.words.now }
    requires below { limits.now.to ≤ limits.now.words }
    requires limits { out.old.held.limits ≡ limits.now }
    requires after { CopiesFrom written.now.words.now (λ word. has (place_of written.now.line.now word.holds) written.now.ranges.now) (number + 1) (drop (number + 1) written.now.words.now) out.old.ops }
    ensures before { OnOk result (CopiesFrom written.now.words.now (λ word. has (place_of written.now.line.now word.holds) written.now.ranges.now) number (drop number written.now.words.now) out.new.ops) }
    ensures depth { OnOk result (out.new.depth ≡ out.old.depth) }
    ensures held { OnOk result (out.new.held ≡ out.old.held) }
{
    let word = written.words[number];
    if word.shadow && is_written(word, written) {
        return copy_shadow(number, word, written, limits, out);
    }
    Ok(())
}

/// Whether a process writes the lowest bit of a word, and so all of them.
fn is_written(word: Word, written: &Written<'_>) -> bool
    ensures { result ≡ has (place_of written.now.line.now word.holds) written.now.ranges.now }
{
    let place = written.line.place(word.holds);
    written
        .ranges
        .iter()
        .any(|range| range.from <= place && place < range.to)
}

/// Copies a shadow to its word.
fn copy_shadow(
    number: usize,
    kept: Word,
    written: &Written<'_>,
    limits: &Limits,
    out: &mut Tail,
) -> Result<(), CodeFault>
    requires there { number < limits.now.words }
    requires below { limits.now.to ≤ limits.now.words }
    requires limits { out.old.held.limits ≡ limits.now }
    ensures copied { OnOk result (Copied written.now.words.now number kept (λ ops. ops ≡ out.old.ops) out.new.ops) }
    ensures depth { OnOk result (out.new.depth ≡ out.old.depth) }
    ensures held { OnOk result (out.new.held ≡ out.old.held) }
{
    let word = word_of(number, kept, written)?;
    if word < limits.from || word >= limits.to || kept.len == 0 || kept.len > WORD {
        return Err(CodeFault::DoesNotFit);
    }
    let Ok(shadow) = u32::try_from(number) else {
        return Err(CodeFault::DoesNotFit);
    };
    out.store(word, kept.len)?;
    out.load(shadow, kept.len)
}

/// The word whose bits a shadow keeps.
fn word_of(number: usize, kept: Word, written: &Written<'_>) -> Result<u32, CodeFault>
    ensures { IfOk result (λ k. slice_get written.now.words.now k ≡ Some (record { holds = kept.holds; len = kept.len; shadow = false })) }
{
    let Some(at) = written.table.words.get(number) else {
        return Err(CodeFault::DoesNotFit);
    };
    let at = *at;
    let Some(word) = written.words.get(at as usize) else {
        return Err(CodeFault::DoesNotFit);
    };
    if word.shadow || word.holds != kept.holds || word.len != kept.len {
        return Err(CodeFault::DoesNotFit);
    }
    Ok(at)
}
