//! The block of a generate `if` that is taken (IEEE 1800-2017 27.5).

ghost use Rattle.std.specs.Prelude.{◌≡◌, ◌++◌, List, map, Option, None, Some, Ok, IfSome};
ghost use Rattle.sv_tree.specs.declared.tree.item.GenBlock.{GenBlock as Block};
ghost use Rattle.sv_expr.specs.Environment.{environment};
ghost use Rattle.elab_types.specs.Branch as spec;

use crate::turns::holds;
use sv_expr::{ScopeView, WalkFault};
use sv_tree::{GenBlock, Item, ItemBranch};

/// The block of a generate `if` that is taken: that of the first test that holds, or of the last `else`. A branch
/// that is itself one `if` without `begin` is no block, and then the inner `if` decides. `None`: no block is taken, or the
/// item is no `if`.
///
/// The fault is the first one in the tests up to the ones that decide. The others are not looked at.
#[cycle(branch)]
pub fn block_taken<'t>(
    scope: &ScopeView<'_>,
    item: &'t Item,
) -> Result<Option<&'t GenBlock>, WalkFault>
    ensures { spec.Taken (environment scope.now) (spec.decided_in (environment scope.now) item.now) (spec.answered result) }
{
    match item {
        Item::If {
            branches,
            test,
            body,
        } => match in_branches(scope, branches.as_slice()) {
            Some(answer) => answer,
            None => match holds(scope, &test.test) {
                Ok(true) => block_in(scope, body.get()),
                Ok(false) => Ok(None),
                Err(fault) => Err(fault),
            },
        },
        Item::IfElse { branches, last } => match in_branches(scope, branches.as_slice()) {
            Some(answer) => answer,
            None => block_in(scope, last.get()),
        },
        _ => Ok(None),
    }
}

/// What the tests of the branches decide; `None`: they have no fault and none of them holds.
#[cycle(branch)]
fn in_branches<'t>(
    scope: &ScopeView<'_>,
    branches: &'t [ItemBranch],
) -> Option<Result<Option<&'t GenBlock>, WalkFault>>
    ensures passed { result ≡ None → (more : List spec.Guarded) (last : Option Block) → spec.decided (environment scope.now) (map spec.branch branches.now ++ more) last ≡ spec.decided (environment scope.now) more last }
    ensures decided { IfSome result (λ answer. (more : List spec.Guarded) (last : Option Block) → spec.Taken (environment scope.now) (spec.decided (environment scope.now) (map spec.branch branches.now ++ more) last) (spec.answered answer)) }
{
    for branch in branches {
        match holds(scope, &branch.test.test) {
            Ok(true) => return Some(block_in(scope, &branch.body)),
            Ok(false) => {}
            Err(fault) => return Some(Err(fault)),
        }
    }
    None
}

/// The block that a branch is, or the one that is taken in it where it is itself one `if` without `begin`.
#[cycle(branch)]
fn block_in<'t>(
    scope: &ScopeView<'_>,
    block: &'t GenBlock,
) -> Result<Option<&'t GenBlock>, WalkFault>
    ensures { spec.Taken (environment scope.now) (Ok (Some block.now)) (spec.answered result) }
{
    match block {
        GenBlock::Item(item) => match item.get() {
            Item::If { .. } | Item::IfElse { .. } => block_taken(scope, item.get()),
            _ => Ok(Some(block)),
        },
        GenBlock::Block { .. } => Ok(Some(block)),
    }
}
