//! Chains of `if`, made of their parts.

ghost use Rattle.std.specs.Prelude.{◌≡◌, IfOk, IfErr};

use parse_expr::{ParseFault, boxed};
use sqlite_items::Items;
use std::alloc::Global;
use sv_tree::{Branch, Stmt, Test};

/// A chain that ends with a test and its body.
///
/// `NoMemory`: there was none left.
pub fn if_stmt(
    alloc: Global,
    branches: Items<Branch>,
    test: Test,
    body: Stmt,
) -> Result<Stmt, ParseFault>
    ensures made { IfOk result (λ s. s ≡ Stmt.If branches test body) }
    ensures fault { IfErr result (λ f. f ≡ ParseFault.NoMemory) }
{
    let body = boxed(alloc, body)?;
    Ok(Stmt::If {
        branches,
        test,
        body,
    })
}

/// A chain that ends with the body of an `else`.
///
/// `NoMemory`: there was none left.
pub fn if_else_stmt(alloc: Global, branches: Items<Branch>, last: Stmt) -> Result<Stmt, ParseFault>
    ensures made { IfOk result (λ s. s ≡ Stmt.IfElse branches last) }
    ensures fault { IfErr result (λ f. f ≡ ParseFault.NoMemory) }
{
    let last = boxed(alloc, last)?;
    Ok(Stmt::IfElse { branches, last })
}
