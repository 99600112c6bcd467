//! The codes of a design.

ghost use Rattle.std.specs.Prelude.{◌≡◌, length, take, drop, IfOk};
ghost use Rattle.rtl_pieces.specs.Bits.{line_in, writes};
ghost use Rattle.rtl_pieces.specs.Line.{place_of};
ghost use Rattle.task_code.specs.Compiled.{Each, IsBody, IsCommit, clocked_from};
ghost use Rattle.plan_types.specs.Coded.{AllWithin, code_count};

use rtl_ir::Design;
use rtl_pieces::Layout;
use sqlite_items::Items;
use std::alloc::{AllocError, Global};
use task_code::compile;
use task_eval::Code;

/// One code for each process, then a commit for each clocked one.
pub(crate) fn codes_of(
    alloc: Global,
    design: &Design,
    layout: &Layout,
) -> Result<Items<Code>, AllocError>
    ensures count { IfOk result (λ codes. length codes ≡ code_count design.now.procs) }
    ensures within { IfOk result (λ codes. AllWithin (length layout.now.words.items) (length design.now.imports) codes) }
    ensures bodies { IfOk result (λ codes. Each (IsBody layout.now.words.items) design.now.procs (take (length design.now.procs) codes)) }
    ensures commits { IfOk result (λ codes. Each (λ p. IsCommit layout.now.words.items (λ word. writes (line_in design.now) design.now.procs p (place_of (line_in design.now) word.holds))) (clocked_from 0 design.now.procs) (drop (length design.now.procs) codes)) }
{
    match compile(alloc, design, layout) {
        Ok(codes) => Ok(Items::from_vec(codes)),
        Err(_) => Err(AllocError),
    }
}
