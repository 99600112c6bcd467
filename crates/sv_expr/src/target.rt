//! The types of assignments' targets.

ghost use Rattle.std.specs.Prelude.{◌≡◌};
ghost use Rattle.sv_expr.specs.Bound.{IsWidth};
ghost use Rattle.sv_expr.specs.Environment.{environment};
ghost use Rattle.sv_expr.specs.Target as targets;

use crate::bound::bounded;
use crate::combine::join;
use crate::scope::ScopeView;
use crate::typed::Typed;
use crate::walk::named_typed;
use sv_tree::{Lvalue, LvalueStep};
use vs_base::ValueType;

/// The type of a target and its first fault.
#[cycle(target)]
pub fn target_typed(scope: &ScopeView<'_>, target: &Lvalue) -> Typed
    ensures typed { result ≡ targets.target_typed (environment scope.now) target.now }
    ensures width { IsWidth result.kind.width }
{
    match target {
        Lvalue::Name { name, selects } => named_typed(scope, *name, selects.as_slice()),
        Lvalue::Concat {
            open,
            first,
            more,
            ..
        } => {
            let first = target_typed(scope, first.get());
            let parts = targets_typed(scope, first, more.as_slice());
            let kind = ValueType {
                width: parts.kind.width,
                signed: false,
            };
            bounded(open.at, parts.fault, kind)
        }
    }
}

/// The width of targets that stand one beside the other, up to 2^32 - 1, from that of the first one.
#[cycle(target)]
fn targets_typed(scope: &ScopeView<'_>, first: Typed, more: &[LvalueStep]) -> Typed
    ensures { result ≡ targets.targets_joined (environment scope.now) first more.now }
{
    let mut so_far = first;
    for step in more {
        so_far = join(so_far, target_typed(scope, &step.target));
    }
    so_far
}
