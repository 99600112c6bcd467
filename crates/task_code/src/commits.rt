//! The commit codes of the clocked processes.
ghost use Rattle.std.specs.Prelude.{◌≡◌, ◌≤◌, ◌<◌, ◌+◌, take, length, OnOk, IfOk};
ghost use Rattle.std.specs.List.{All};
ghost use Rattle.task_eval.specs.Soundness.{IsWithin};
ghost use Rattle.rtl_pieces.specs.Bits.{line_in, writes};
ghost use Rattle.rtl_pieces.specs.Line.{place_of};
ghost use Rattle.task_code.specs.Compiled.{Each, IsCommit, clocked_from};

use crate::body::{Base, direct, is_clocked};
use crate::commit::{Written, commit_code};
use crate::fault::CodeFault;
use rtl_pieces::{BitLine, ranges_written};
use std::alloc::Global;
use task_eval::Code;

/// The commit code of each clocked process.
pub(crate) fn commits_of(alloc: Global, base: &Base<'_>) -> Result<Vec<Code>, CodeFault>
    requires words { base.now.sizes.words ≡ length base.now.words.now }
    requires imports { base.now.sizes.imports ≡ length base.now.design.now.imports }
    requires most { base.now.sizes.first ≤ base.now.sizes.words }
    ensures within { IfOk result (λ codes. All (λ code. IsWithin (length base.now.words.now) (length base.now.design.now.imports) code.ops) codes.items) }
    ensures commits { IfOk result (λ codes. Each (λ p. IsCommit base.now.words.now (λ word. writes (line_in base.now.design.now) base.now.design.now.procs p (place_of (line_in base.now.design.now) word.holds))) (clocked_from 0 base.now.design.now.procs) codes.items) }
{
    let line = BitLine::new(alloc, base.design)?;
    let mut codes = Vec::new(alloc);
    for number in 0..base.design.procs.len() {
        add_commit(alloc, number, &line, base, &mut codes)?;
    }
    Ok(codes)
}

/// Adds the commit code of the process of a number, where it is clocked.
fn add_commit(
    alloc: Global,
    number: usize,
    line: &BitLine,
    base: &Base<'_>,
    codes: &mut Vec<Code>,
) -> Result<(), CodeFault>
    requires line { line.now ≡ line_in base.now.design.now }
    requires words { base.now.sizes.words ≡ length base.now.words.now }
    requires imports { base.now.sizes.imports ≡ length base.now.design.now.imports }
    requires most { base.now.sizes.first ≤ base.now.sizes.words }
    requires there { number < length base.now.design.now.procs }
    requires known { All (λ code. IsWithin (length base.now.words.now) (length base.now.design.now.imports) code.ops) codes.old.items }
    requires before { Each (λ p. IsCommit base.now.words.now (λ word. writes (line_in base.now.design.now) base.now.design.now.procs p (place_of (line_in base.now.design.now) word.holds))) (clocked_from 0 (take number base.now.design.now.procs)) codes.old.items }
    ensures within { OnOk result (All (λ code. IsWithin (length base.now.words.now) (length base.now.design.now.imports) code.ops) codes.new.items) }
    ensures after { OnOk result (Each (λ p. IsCommit base.now.words.now (λ word. writes (line_in base.now.design.now) base.now.design.now.procs p (place_of (line_in base.now.design.now) word.holds))) (clocked_from 0 (take (number + 1) base.now.design.now.procs)) codes.new.items) }
{
    let process = &base.design.procs.as_slice()[number];
    if !is_clocked(process) {
        return Ok(());
    }
    let code = commit_of(alloc, number, line, base)?;
    codes.push(code)?;
    Ok(())
}

/// The commit code of the process of a number.
fn commit_of(
    alloc: Global,
    number: usize,
    line: &BitLine,
    base: &Base<'_>,
) -> Result<Code, CodeFault>
    requires line { line.now ≡ line_in base.now.design.now }
    requires words { base.now.sizes.words ≡ length base.now.words.now }
    requires imports { base.now.sizes.imports ≡ length base.now.design.now.imports }
    requires most { base.now.sizes.first ≤ base.now.sizes.words }
    ensures within { IfOk result (λ code. IsWithin (length base.now.words.now) (length base.now.design.now.imports) code.ops) }
    ensures commit { IfOk result (IsCommit base.now.words.now (λ word. writes (line_in base.now.design.now) base.now.design.now.procs number (place_of (line_in base.now.design.now) word.holds))) }
{
    let Ok(process) = u32::try_from(number) else {
        return Err(CodeFault::DoesNotFit);
    };
    let ranges = ranges_written(alloc, base.design, line, process)?;
    let written = Written {
        words: base.words,
        table: base.table,
        line,
        ranges: ranges.as_slice(),
    };
    commit_code(alloc, &written, direct(base.sizes))
}
