//! The codes of nodes.
ghost use Rattle.std.specs.Prelude.{◌≡◌, ◌<◌, ◌+◌, ℕ, length, take, map, slice_index, IfOk};
ghost use Rattle.std.specs.List.{count_by};
ghost use Rattle.plan_types.specs.Coded.{code_number, code_count, is_clocked as clocked};

use dpi_host::NoMemory;
use plan_graph::Node;
use rtl_ir::{Proc, ProcKind};
use std::alloc::Global;

/// The number of each node's code, where there are so many codes. `NoMemory`: there was none left.
pub fn node_codes(
    alloc: Global,
    procs: &[Proc],
    codes: usize,
    nodes: &[Node],
) -> Result<Vec<usize>, NoMemory>
    requires { code_count procs.now ≡ codes }
    ensures { IfOk result (λ out. out.items ≡ map (code_number procs.now) nodes.now) }
{
    let commits = commit_codes(alloc, procs, codes)?;
    let mut out = Vec::new(alloc);
    for node in nodes {
        let Ok(()) = out.push(node_code(procs, commits.as_slice(), *node)) else {
            return Err(NoMemory);
        };
    }
    Ok(out)
}

// The codes of commits, and one more for a number past the last process.
fn commit_codes(alloc: Global, procs: &[Proc], codes: usize) -> Result<Vec<usize>, NoMemory>
    requires { code_count procs.now ≡ codes }
    ensures many { IfOk result (λ out. length out.items ≡ length procs.now + 1) }
    ensures each { IfOk result (λ out. (p : ℕ) → p < length procs.now + 1 → slice_index out.items p ≡ length procs.now + count_by clocked (take p procs.now)) }
{
    let mut out = Vec::new(alloc);
    let mut code = procs.len();
    for proc in procs {
        let Ok(()) = out.push(code) else {
            return Err(NoMemory);
        };
        if is_clocked(proc) {
            code += 1;
        }
    }
    let Ok(()) = out.push(code) else {
        return Err(NoMemory);
    };
    Ok(out)
}

fn is_clocked(proc: &Proc) -> bool
    ensures { result ≡ clocked proc.now }
{
    matches!(proc.kind, ProcKind::Clocked(_))
}

fn node_code(procs: &[Proc], commits: &[usize], node: Node) -> usize
    requires many { length commits.now ≡ length procs.now + 1 }
    requires each { (p : ℕ) → p < length procs.now + 1 → slice_index commits.now p ≡ length procs.now + count_by clocked (take p procs.now) }
    ensures { result ≡ code_number procs.now node }
{
    match node {
        Node::Comb(proc) => proc as usize,
        Node::Body(proc) => proc as usize,
        Node::Commit(proc) => commits[procs.len().min(proc as usize)],
    }
}
