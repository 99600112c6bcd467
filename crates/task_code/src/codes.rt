//! The codes of a design.
ghost use Rattle.std.specs.Prelude.{◌≡◌, ℕ, ◌≤◌, ◌<◌, ◌+◌, true, false, take, drop, length, OnOk, IfOk};
ghost use Rattle.std.specs.List.{All};
ghost use Rattle.task_eval.specs.Soundness.{IsWithin};
ghost use Rattle.rtl_pieces.specs.Bits.{line_in, writes};
ghost use Rattle.rtl_pieces.specs.Line.{place_of};
ghost use Rattle.task_code.specs.Compiled.{Each, IsBody, IsCommit, clocked_from};

use crate::body::{Base, bodies_of};
use crate::commits::commits_of;
use crate::fault::CodeFault;
use crate::shadows::sizes_of;
use crate::table::table_of;
use dpi_host::NoMemory;
use rtl_ir::Design;
use rtl_pieces::{Layout, Word};
use std::alloc::Global;
use task_eval::Code;

/// The codes of a design whose words are those of the layout: one for each process, in their order, and then one for each clocked
/// process, in the same order, that copies the shadows of what it writes to their words.
///
/// `NoMemory`: there was none left, or the layout is not that of the design.
pub fn compile(alloc: Global, design: &Design, layout: &Layout) -> Result<Vec<Code>, NoMemory>
    ensures count { IfOk result (λ codes. length codes.items ≡ length design.now.procs + length (clocked_from 0 design.now.procs)) }
    ensures within { IfOk result (λ codes. All (λ code. IsWithin (length layout.now.words.items) (length design.now.imports) code.ops) codes.items) }
    ensures bodies { IfOk result (λ codes. Each (IsBody layout.now.words.items) design.now.procs (take (length design.now.procs) codes.items)) }
    ensures commits { IfOk result (λ codes. Each (λ p. IsCommit layout.now.words.items (λ word. writes (line_in design.now) design.now.procs p (place_of (line_in design.now) word.holds))) (clocked_from 0 design.now.procs) (drop (length design.now.procs) codes.items)) }
{
    match codes_of(alloc, design, layout.words.as_slice()) {
        Ok(codes) => Ok(codes),
        Err(_) => Err(NoMemory),
    }
}

/// The codes of a design with these words.
fn codes_of(alloc: Global, design: &Design, words: &[Word]) -> Result<Vec<Code>, CodeFault>
    ensures count { IfOk result (λ codes. length codes.items ≡ length design.now.procs + length (clocked_from 0 design.now.procs)) }
    ensures within { IfOk result (λ codes. All (λ code. IsWithin (length words.now) (length design.now.imports) code.ops) codes.items) }
    ensures bodies { IfOk result (λ codes. Each (IsBody words.now) design.now.procs (take (length design.now.procs) codes.items)) }
    ensures commits { IfOk result (λ codes. Each (λ p. IsCommit words.now (λ word. writes (line_in design.now) design.now.procs p (place_of (line_in design.now) word.holds))) (clocked_from 0 design.now.procs) (drop (length design.now.procs) codes.items)) }
{
    let sizes = sizes_of(design, words)?;
    let table = table_of(alloc, design.tables(), words, sizes.first)?;
    let base = Base {
        design,
        words,
        table: &table,
        sizes,
    };
    let mut codes = bodies_of(alloc, &base)?;
    let mut commits = commits_of(alloc, &base)?;
    codes.append(&mut commits)?;
    Ok(codes)
}
