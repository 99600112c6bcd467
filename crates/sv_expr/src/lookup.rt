//! Names by what a scope's view tells of them.

ghost use Rattle.std.specs.Prelude.{◌≡◌, false};
ghost use Rattle.sv_expr.specs.Bound.{IsWidth};
ghost use Rattle.sv_expr.specs.Environment.{denotes, environment};
ghost use Rattle.sv_expr.specs.Meaning.{kind_or_bit, fixed_value};
ghost use Rattle.sv_expr.specs.Walk.{whole_by, by_selects as typed_by_selects};

use crate::bound::{BIT, nothing};
use crate::scope::{Denoted, ScopeView, Whole};
use crate::typed::Typed;
use sv_tree::NameId;
use vs_base::{Bits, ValueType, in_context};

/// What a name denotes.
fn denoted(scope: &ScopeView<'_>, name: NameId) -> Denoted
    ensures { result ≡ denotes scope.now name.0 }
{
    scope.table.get(name)
}

/// The whole that a name denotes. What is no constant, variable or memory counts as one bit.
pub fn whole(scope: &ScopeView<'_>, name: NameId) -> Whole
    ensures whole { let env = environment scope.now in result ≡ whole_by (env.constant name.0) (env.variable name.0) (env.memory name.0) }
    ensures width { IsWidth result.kind.width }
{
    match denoted(scope, name) {
        Denoted::Constant(fixed) | Denoted::Turn(fixed) => plain(fixed.kind),
        Denoted::Variable(declared) => plain(declared.kind),
        Denoted::Memory(declared) => Whole {
            kind: declared.kind,
            is_memory: true,
        },
        Denoted::Nothing | Denoted::Import(_) => plain(BIT),
    }
}

/// What is no memory.
fn plain(kind: ValueType) -> Whole
    ensures { result ≡ record { kind = kind; is_memory = false } }
{
    Whole {
        kind,
        is_memory: false,
    }
}

/// The type of a name with so many selects, by the type of the last one.
pub fn by_selects(whole: Whole, count: usize, last: Typed) -> Typed
    requires whole { IsWidth whole.kind.width }
    requires last { IsWidth last.kind.width }
    ensures typed { result ≡ typed_by_selects whole count last }
    ensures width { IsWidth result.kind.width }
{
    if whole.is_memory && count <= 1 {
        return Typed {
            kind: whole.kind,
            fault: last.fault,
        };
    }
    last
}

/// The value of a constant in a context. What is no constant counts as 0.
pub fn constant_value(scope: &ScopeView<'_>, name: NameId, context: ValueType) -> Bits
    requires { IsWidth context.width }
    ensures { result ≡ fixed_value ((environment scope.now).constant name.0) context }
{
    match denoted(scope, name) {
        Denoted::Constant(fixed) | Denoted::Turn(fixed) => in_context(fixed.value, context),
        _ => nothing(context),
    }
}

/// The type of an import's result.
pub fn import_kind(scope: &ScopeView<'_>, name: NameId) -> ValueType
    ensures kind { result ≡ kind_or_bit ((environment scope.now).imported name.0) }
    ensures width { IsWidth result.width }
{
    match denoted(scope, name) {
        Denoted::Import(declared) => declared.kind,
        _ => BIT,
    }
}
