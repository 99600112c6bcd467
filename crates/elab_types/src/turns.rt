//! The turns of loops, among items and among statements: the values that a loop's variable takes, from the start and by the step, while the condition holds
//! (IEEE 1800-2017 12.7.1 and 27.4).

ghost use Rattle.std.specs.Prelude.{◌≡◌, IfOk};
ghost use Rattle.sv_expr.specs.Bound.{fault_in};
ghost use Rattle.sv_expr.specs.Environment.{environment};
ghost use Rattle.sv_expr.specs.Meaning.{FirstFault};
ghost use Rattle.elab_types.specs.Turns as turns;
ghost use Rattle.elab_types.specs.Value.{assigned, counted, cut_to, valued};

use crate::value::{COUNTER, counter_value, cut};
use sv_expr::{Fixed, ScopeView, WalkFault, const_value, expr_type, symbol};
use sv_tree::{Expr, LoopHead, LoopStep, Names, Setting, Symbol, Token};
use vs_base::{Bits, in_context, wider};

/// The value of a loop's variable at the start, in the scope round the loop. The fault is the first one in its
/// expression.
pub fn start_value(scope: &ScopeView<'_>, head: &LoopHead) -> Result<Fixed, WalkFault>
    ensures value { IfOk result (λ fixed. valued fixed ≡ counted (assigned (environment scope.now) head.now.start.value 32)) }
    ensures fault { fault_in result ≡ FirstFault (environment scope.now) head.now.start.value }
{
    counter_value(scope, &head.start.value)
}

/// Whether a test holds: its value alone is not 0. Of a loop, in a scope in which the loop's variable is a constant.
/// The fault is the first one in its expression.
pub fn holds(scope: &ScopeView<'_>, test: &Expr) -> Result<bool, WalkFault>
    ensures value { IfOk result (λ holds. holds ≡ turns.holds (environment scope.now) test.now) }
    ensures fault { fault_in result ≡ FirstFault (environment scope.now) test.now }
{
    let kind = match expr_type(scope, test) {
        Ok(kind) => kind,
        Err(fault) => return Err(fault),
    };
    match const_value(scope, test, kind) {
        Ok(value) => Ok(value.is_true()),
        Err(fault) => Err(fault),
    }
}

/// The value of a loop's variable in the next turn, in a scope in which it is a constant with the value of this one.
/// The fault is the first one in the step's expression.
pub fn next_value(scope: &ScopeView<'_>, head: &LoopHead, value: Fixed) -> Result<Fixed, WalkFault>
    ensures value { IfOk result (λ fixed. valued fixed ≡ counted (turns.next (environment scope.now) head.now.step (cut_to 32 value.value))) }
    ensures fault { fault_in result ≡ turns.step_fault (environment scope.now) head.now.step }
{
    let value = cut(value.value, 32);
    match &head.step {
        LoopStep::Set(setting) => set(scope, setting, value),
        LoopStep::After { mark, .. } | LoopStep::Before { mark, .. } => {
            Ok(stepped(scope.names, *mark, value))
        }
    }
}

/// The value after `=`, `+=` or `-=`.
fn set(scope: &ScopeView<'_>, setting: &Setting, value: Bits) -> Result<Fixed, WalkFault>
    requires { value.width ≡ 32 }
    ensures value { IfOk result (λ fixed. valued fixed ≡ counted (turns.set (environment scope.now) setting.now value)) }
    ensures fault { fault_in result ≡ FirstFault (environment scope.now) setting.now.value }
{
    match symbol(scope.names, setting.mark) {
        Symbol::PlusAssign => moved(scope, &setting.value, value, false),
        Symbol::MinusAssign => moved(scope, &setting.value, value, true),
        _ => counter_value(scope, &setting.value),
    }
}

/// The value with that of an expression added, or taken from it: in a context as wide as the wider of both, and with
/// a sign where the expression has one.
fn moved(scope: &ScopeView<'_>, expr: &Expr, value: Bits, down: bool) -> Result<Fixed, WalkFault>
    requires { value.width ≡ 32 }
    ensures value { IfOk result (λ fixed. valued fixed ≡ counted (turns.moved (environment scope.now) expr.now value down)) }
    ensures fault { fault_in result ≡ FirstFault (environment scope.now) expr.now }
{
    let kind = match expr_type(scope, expr) {
        Ok(kind) => kind,
        Err(fault) => return Err(fault),
    };
    let context = wider(COUNTER, kind);
    let by = match const_value(scope, expr, context) {
        Ok(by) => by,
        Err(fault) => return Err(fault),
    };
    let from = in_context(value, context);
    let sum = if down { from.sub(by) } else { from.add(by) };
    Ok(Fixed {
        kind: COUNTER,
        value: cut(sum, 32),
    })
}

/// The value after `++` or `--`.
fn stepped(names: &Names, mark: Token, value: Bits) -> Fixed
    requires { value.width ≡ 32 }
    ensures { valued result ≡ counted (turns.stepped names.now mark value) }
{
    let one = Bits::new(32, 1);
    let value = match symbol(names, mark) {
        Symbol::MinusMinus => value.sub(one),
        _ => value.add(one),
    };
    Fixed {
        kind: COUNTER,
        value,
    }
}
