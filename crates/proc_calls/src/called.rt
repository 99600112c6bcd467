ghost use Rattle.std.specs.Prelude.{◌≡◌, ◌++◌, ◌==◌, length, slice_index_or, IfOk, OnOk, false, ℕ, ◌<◌};
ghost use Rattle.std.specs.List.{flat_map, list_any};
ghost use Rattle.proc_calls.specs.Calls as spec;

use crate::stmt::add_stmts;
use rtl_ir::{Design, Proc};
use std::alloc::{AllocError, Global};

/// For each import of a design whether some process calls it.
///
/// `AllocError`: there was no memory left.
pub fn called_imports(alloc: Global, design: &Design) -> Result<Vec<bool>, AllocError>
    ensures length { IfOk result (λ marks. length marks.items ≡ length design.now.imports) }
    ensures called { IfOk result (λ marks. (k : ℕ) → k < length design.now.imports → slice_index_or marks.items k false ≡ spec.is_called design.now.procs k) }
{
    let calls = all_calls(alloc, design.procs.as_slice())?;
    marks(alloc, design.imports.len(), calls.as_slice())
}

/// The calls of processes.
fn all_calls(alloc: Global, procs: &[Proc]) -> Result<Vec<u32>, AllocError>
    ensures { IfOk result (λ calls. calls.items ≡ spec.all_calls procs.now) }
{
    let mut calls = Vec::new(alloc);
    for process in procs {
        add_stmts(process.body.as_slice(), &mut calls)?;
    }
    Ok(calls)
}

/// For each of so many imports whether it is among calls.
fn marks(alloc: Global, imports: usize, calls: &[u32]) -> Result<Vec<bool>, AllocError>
    ensures length { IfOk result (λ marks. length marks.items ≡ imports) }
    ensures called { IfOk result (λ marks. (k : ℕ) → k < imports → slice_index_or marks.items k false ≡ list_any (λ n. n == k) calls.now) }
{
    let mut marks = Vec::with_capacity(alloc, imports)?;
    for import in 0..imports {
        marks.push(is_among(calls, import))?;
    }
    Ok(marks)
}

fn is_among(calls: &[u32], import: usize) -> bool
    ensures { result ≡ list_any (λ n. n == import) calls.now }
{
    calls.iter().any(|n| *n as usize == import)
}
