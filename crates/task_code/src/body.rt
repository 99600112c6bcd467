//! The codes of the processes.
ghost use Rattle.std.specs.Prelude.{◌≡◌, ℕ, ◌≤◌, ◌<◌, nat_le, length, IfOk};
ghost use Rattle.std.specs.List.{All};
ghost use Rattle.task_eval.specs.Soundness.{IsWithin};
ghost use Rattle.rtl_pieces.specs.Words.{is_clocked_kind};
ghost use Rattle.task_code.specs.Compiled.{Each, IsBody, is_shadow};
ghost use Rattle.task_code.specs.Tails.{AllStoreIn};

use crate::fault::CodeFault;
use crate::here::Here;
use crate::shadows::Sizes;
use crate::statement::statements;
use crate::table::Table;
use crate::tail::{Limits, Tail};
use rtl_ir::{Design, Proc, ProcKind};
use rtl_pieces::Word;
use std::alloc::Global;
use task_eval::Code;

/// What codes are made of.
#[derive(Clone, Copy)]
pub(crate) struct Base<'a> {
    pub design: &'a Design,
    pub words: &'a [Word],
    pub table: &'a Table,
    pub sizes: Sizes,
}

/// What a process may name that stores no shadows.
pub(crate) fn direct(sizes: Sizes) -> Limits
    ensures { result ≡ record { words = sizes.words; imports = sizes.imports; from = 1; to = sizes.first } }
{
    Limits {
        words: sizes.words,
        imports: sizes.imports,
        from: 1,
        to: sizes.first,
    }
}

/// What a process may name that stores shadows alone.
fn kept(sizes: Sizes) -> Limits
    ensures { result ≡ record { words = sizes.words; imports = sizes.imports; from = sizes.first; to = sizes.words } }
{
    Limits {
        words: sizes.words,
        imports: sizes.imports,
        from: sizes.first,
        to: sizes.words,
    }
}

/// The code of each process.
pub(crate) fn bodies_of(alloc: Global, base: &Base<'_>) -> Result<Vec<Code>, CodeFault>
    requires words { base.now.sizes.words ≡ length base.now.words.now }
    requires imports { base.now.sizes.imports ≡ length base.now.design.now.imports }
    requires most { base.now.sizes.first ≤ base.now.sizes.words }
    requires shadows { (k : ℕ) → k < length base.now.words.now → is_shadow base.now.words.now k ≡ nat_le base.now.sizes.first k }
    ensures within { IfOk result (λ codes. All (λ code. IsWithin (length base.now.words.now) (length base.now.design.now.imports) code.ops) codes.items) }
    ensures bodies { IfOk result (λ codes. Each (IsBody base.now.words.now) base.now.design.now.procs codes.items) }
{
    let mut codes = Vec::new(alloc);
    for process in base.design.procs.as_slice() {
        let code = body_code(alloc, process, base)?;
        codes.push(code)?;
    }
    Ok(codes)
}

/// The code of a process.
fn body_code(alloc: Global, process: &Proc, base: &Base<'_>) -> Result<Code, CodeFault>
    requires words { base.now.sizes.words ≡ length base.now.words.now }
    requires imports { base.now.sizes.imports ≡ length base.now.design.now.imports }
    requires most { base.now.sizes.first ≤ base.now.sizes.words }
    requires shadows { (k : ℕ) → k < length base.now.words.now → is_shadow base.now.words.now k ≡ nat_le base.now.sizes.first k }
    ensures within { IfOk result (λ code. IsWithin (length base.now.words.now) (length base.now.design.now.imports) code.ops) }
    ensures body { IfOk result (IsBody base.now.words.now process.now) }
{
    if is_clocked(process) {
        return code_of(alloc, process, true, kept(base.sizes), base);
    }
    code_of(alloc, process, false, direct(base.sizes), base)
}

/// The code of a process that names only what it may.
fn code_of(
    alloc: Global,
    process: &Proc,
    clocked: bool,
    limits: Limits,
    base: &Base<'_>,
) -> Result<Code, CodeFault>
    requires below { limits.to ≤ limits.words }
    ensures within { IfOk result (λ code. IsWithin limits.words limits.imports code.ops) }
    ensures stores { IfOk result (λ code. AllStoreIn limits code.ops) }
{
    let here = Here {
        design: base.design.tables(),
        words: base.words,
        table: base.table,
        limits,
        clocked,
    };
    let mut out = Tail::new(alloc, limits);
    statements(process.body.as_slice(), alloc, &here, &mut out)?;
    Ok(out.into_code())
}

/// Whether a process is clocked.
pub(crate) fn is_clocked(process: &Proc) -> bool
    ensures { result ≡ is_clocked_kind process.now.kind }
{
    match process.kind {
        ProcKind::Comb => false,
        ProcKind::Clocked(_) => true,
    }
}
