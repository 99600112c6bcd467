//! Chains of `if` among items, made of their parts.

ghost use Rattle.std.specs.Prelude.{◌≡◌, IfOk, IfErr};

use parse_expr::{ParseFault, boxed};
use sqlite_items::Items;
use std::alloc::Global;
use sv_tree::{GenBlock, Item, ItemBranch, Test};

/// A chain that ends with a test and its body.
///
/// `NoMemory`: there was none left.
pub fn if_item(
    alloc: Global,
    branches: Items<ItemBranch>,
    test: Test,
    body: GenBlock,
) -> Result<Item, ParseFault>
    ensures made { IfOk result (λ x. x ≡ Item.If branches test body) }
    ensures fault { IfErr result (λ f. f ≡ ParseFault.NoMemory) }
{
    let body = boxed(alloc, body)?;
    Ok(Item::If {
        branches,
        test,
        body,
    })
}

/// A chain that ends with the body of an `else`.
///
/// `NoMemory`: there was none left.
pub fn if_else_item(
    alloc: Global,
    branches: Items<ItemBranch>,
    last: GenBlock,
) -> Result<Item, ParseFault>
    ensures made { IfOk result (λ x. x ≡ Item.IfElse branches last) }
    ensures fault { IfErr result (λ f. f ≡ ParseFault.NoMemory) }
{
    let last = boxed(alloc, last)?;
    Ok(Item::IfElse { branches, last })
}
