//! The types and the values of expressions. The two stand in one cycle, since the type of a replication or of a
//! part select depends on the value of its count or its ends.
//!
//! A walk over types goes into every part, so that it finds each fault. A walk over values is given a context, and
//! asks for the type of an operand only where that stands alone.

ghost use Rattle.std.specs.Prelude.{◌≡◌, ◌≤◌, map, IfSome};
ghost use Rattle.vs_base.specs.Number.{reading};
ghost use Rattle.sv_tree.specs.Spelling.{symbol_of};
ghost use Rattle.sv_expr.specs.Bound.{IsWidth};
ghost use Rattle.sv_expr.specs.Environment.{environment};
ghost use Rattle.sv_expr.specs.Meaning.{alone as alone_number, own_reading, symbol as symbol_in, meaning_of, named as named_meaning, select_typed as select_type, args_fault as args_first_fault};
ghost use Rattle.sv_expr.specs.Walk as walks;

use crate::bound::{BIT, fine, first, nothing};
use crate::combine::{
    Own, at_width, choose, combine, join, joined, once, part_typed, prefix_kind, select,
    system_typed, system_value, times_own, times_typed, times_value, truth,
};
use crate::fault::WalkFault;
use crate::literal::{
    based_typed, based_value, decimal_typed, decimal_value, fill_value, sized_typed, sized_value,
};
use crate::lookup::{by_selects, constant_value, import_kind, whole};
use crate::operator::{Class, class_of, compared, operated, shifted};
use crate::prefix::{plain_count, prefixed_all, prefixed_before, prefixed_from};
use crate::scope::ScopeView;
use crate::spelled::{function_of, symbol};
use crate::typed::Typed;
use sv_tree::{Args, Choice, Expr, Names, Select, Step, Token};
use vs_base::{Bits, ValueType, in_context, wider};

/// The left side of a comparison: its type, and its value in that type or a wider one.
#[derive(Clone, Copy)]
pub struct Left {
    pub kind: ValueType,
    pub value: Bits,
}

/// No choice yet: every type is wider.
const NO_CHOICE: Typed = Typed {
    kind: ValueType {
        width: 0,
        signed: true,
    },
    fault: None,
};

/// How the operators of a level take their operands.
fn level_class(names: &Names, more: &[Step]) -> Class
    ensures { result ≡ walks.class_in (symbol_of names.now) more.now }
{
    let [step, ..] = more else {
        return Class::Arithmetic;
    };
    class_of(symbol(names, step.mark))
}

/// The type of an expression and its first fault.
#[cycle(walk)]
pub fn typed(scope: &ScopeView<'_>, expr: &Expr) -> Typed
    ensures typed { result ≡ (meaning_of (environment scope.now) expr.now).typed }
    ensures width { IsWidth result.kind.width }
{
    match expr {
        Expr::Decimal(token) => decimal_typed(token.at, scope.names.text_of(token.name)),
        Expr::Based(token) => based_typed(token.at, scope.names.text_of(token.name)),
        Expr::Sized { size, digits } => sized_typed(
            size.at,
            scope.names.text_of(size.name),
            scope.names.text_of(digits.name),
        ),
        Expr::Fill(_) => fine(BIT),
        Expr::Name { name, selects } => named_typed(scope, *name, selects.as_slice()),
        Expr::Paren { inner, .. } => typed(scope, inner.get()),
        Expr::Concat {
            open,
            first,
            more,
            ..
        } => {
            let parts = parts_typed(scope, typed(scope, first.get()), more.as_slice());
            times_typed(open.at, parts.fault, &once(), parts.kind.width)
        }
        Expr::Repeat {
            open,
            count,
            first: part,
            more,
            ..
        } => {
            let count = own(scope, count.get());
            let parts = parts_typed(scope, typed(scope, part.get()), more.as_slice());
            let earlier = first(count.fault, parts.fault);
            times_typed(open.at, earlier, &count, parts.kind.width)
        }
        Expr::Call { name, args, .. } => Typed {
            kind: import_kind(scope, name.name),
            fault: args_fault(scope, args),
        },
        Expr::System { name, arg, .. } => {
            system_typed(function_of(scope.names, *name), typed(scope, arg.get()))
        }
        Expr::Prefix { operators, operand } => {
            let inner = typed(scope, operand.get());
            Typed {
                kind: prefix_kind(scope.names, operators.as_slice(), inner.kind),
                fault: inner.fault,
            }
        }
        Expr::Level { first, more } => steps_typed(
            scope,
            level_class(scope.names, more.as_slice()),
            typed(scope, first.get()),
            more.as_slice(),
        ),
        Expr::Choose { choices, last } => {
            let choices = choices_typed(scope, choices.as_slice());
            let last = typed(scope, last.get());
            Typed {
                kind: wider(choices.kind, last.kind),
                fault: first(choices.fault, last.fault),
            }
        }
    }
}

/// The type of a name with selects.
#[cycle(walk)]
pub fn named_typed(scope: &ScopeView<'_>, name: Token, selects: &[Select]) -> Typed
    ensures typed { let env = environment scope.now in result ≡ (named_meaning env name (map (select_type env) selects.now)).typed }
    ensures width { IsWidth result.kind.width }
{
    let whole = whole(scope, name.name);
    let last = selects_typed(scope, fine(whole.kind), selects);
    by_selects(whole, selects.len(), last)
}

/// The first fault of arguments.
#[cycle(walk)]
fn args_fault(scope: &ScopeView<'_>, args: &Args) -> Option<WalkFault>
    ensures { result ≡ args_first_fault (environment scope.now) args.now }
{
    match args {
        Args::Empty => None,
        Args::Listed { first, more } => {
            let first = typed(scope, first.get());
            steps_typed(scope, Class::Shift, first, more.as_slice()).fault
        }
    }
}

/// The type of operands of one class, from that of the first one.
#[cycle(walk)]
fn steps_typed(scope: &ScopeView<'_>, class: Class, first: Typed, more: &[Step]) -> Typed
    requires { IsWidth first.kind.width }
    ensures typed { result ≡ walks.steps_typed (environment scope.now) class first more.now }
    ensures width { IsWidth result.kind.width }
{
    let mut so_far = first;
    for step in more {
        so_far = combine(class, so_far, typed(scope, &step.operand));
    }
    so_far
}

/// The width of parts that stand one beside the other, up to 2^32 - 1, from that of the first one.
#[cycle(walk)]
fn parts_typed(scope: &ScopeView<'_>, first: Typed, more: &[Step]) -> Typed
    ensures { result ≡ walks.steps_joined (environment scope.now) first more.now }
{
    let mut so_far = first;
    for step in more {
        so_far = join(so_far, typed(scope, &step.operand));
    }
    so_far
}

/// The type of the values of choices, below which every type is.
#[cycle(walk)]
fn choices_typed(scope: &ScopeView<'_>, choices: &[Choice]) -> Typed
    ensures typed { result ≡ walks.choices_typed (environment scope.now) choices.now }
    ensures most { result.kind.width ≤ 128 }
{
    let mut so_far = NO_CHOICE;
    for choice in choices {
        let test = typed(scope, &choice.test);
        so_far = choose(so_far, test, typed(scope, &choice.value));
    }
    so_far
}

/// The type of the last select, or the whole.
#[cycle(walk)]
fn selects_typed(scope: &ScopeView<'_>, whole: Typed, selects: &[Select]) -> Typed
    requires { IsWidth whole.kind.width }
    ensures typed { result ≡ walks.selects_typed (environment scope.now) whole selects.now }
    ensures width { IsWidth result.kind.width }
{
    let mut so_far = whole;
    for last in selects {
        so_far = select(so_far, select_typed(scope, last));
    }
    so_far
}

/// The type of a select.
#[cycle(walk)]
fn select_typed(scope: &ScopeView<'_>, select: &Select) -> Typed
    ensures typed { result ≡ select_type (environment scope.now) select.now }
    ensures width { IsWidth result.kind.width }
{
    match select {
        Select::Bit { at, .. } => Typed {
            kind: BIT,
            fault: typed(scope, at.get()).fault,
        },
        Select::Part {
            open,
            from,
            mark,
            to,
            ..
        } => {
            let left = own(scope, from.get());
            let right = own(scope, to.get());
            let earlier = first(left.fault, right.fault);
            part_typed(open.at, earlier, symbol(scope.names, *mark), &left, &right)
        }
    }
}

/// The value of an expression in a context.
#[cycle(walk)]
pub fn valued(scope: &ScopeView<'_>, expr: &Expr, context: ValueType) -> Bits
    requires { IsWidth context.width }
    ensures value { result ≡ (meaning_of (environment scope.now) expr.now).value context }
    ensures width { result.width ≡ context.width }
{
    match expr {
        Expr::Decimal(token) => {
            decimal_value(token.at, scope.names.text_of(token.name), context)
        }
        Expr::Based(token) => based_value(token.at, scope.names.text_of(token.name), context),
        Expr::Sized { size, digits } => sized_value(
            size.at,
            scope.names.text_of(size.name),
            scope.names.text_of(digits.name),
            context,
        ),
        Expr::Fill(token) => fill_value(scope.names.text_of(token.name), context),
        Expr::Name { name, .. } => constant_value(scope, name.name, context),
        Expr::Paren { inner, .. } => valued(scope, inner.get(), context),
        Expr::Concat { first, more, .. } => {
            let parts = parts_typed(scope, typed(scope, first.get()), more.as_slice());
            let value = parts_value(scope, alone(scope, first.get()), more.as_slice());
            times_value(&once(), parts.kind.width, value, context)
        }
        Expr::Repeat {
            count,
            first,
            more,
            ..
        } => {
            let count = own(scope, count.get());
            let parts = parts_typed(scope, typed(scope, first.get()), more.as_slice());
            let value = parts_value(scope, alone(scope, first.get()), more.as_slice());
            times_value(&count, parts.kind.width, value, context)
        }
        Expr::Call { .. } => nothing(context),
        Expr::System { name, arg, .. } => {
            let value = system_value(function_of(scope.names, *name), alone(scope, arg.get()));
            in_context(value, context)
        }
        Expr::Prefix { operators, operand } => {
            let marks = operators.as_slice();
            let plain = plain_count(scope.names, marks);
            if plain == marks.len() {
                let value = valued(scope, operand.get(), context);
                return prefixed_all(scope.names, marks, value);
            }
            let own = alone(scope, operand.get());
            let bit = prefixed_from(scope.names, marks, plain, own);
            prefixed_before(scope.names, marks, plain, in_context(bit, context))
        }
        Expr::Level { first, more } => {
            let more = more.as_slice();
            let class = level_class(scope.names, more);
            match class {
                Class::Arithmetic | Class::Shift => {
                    let first = valued(scope, first.get(), context);
                    steps_value(scope, class, context, first, more)
                }
                Class::Comparison => {
                    let kind = typed(scope, first.get()).kind;
                    let common = first_context(scope, kind, more);
                    let value = valued(scope, first.get(), common);
                    in_context(steps_left(scope, Left { kind, value }, more), context)
                }
                Class::Conjunction | Class::Disjunction => {
                    let holds = alone(scope, first.get()).is_true();
                    truth(steps_hold(scope, class, holds, more), context)
                }
            }
        }
        Expr::Choose { choices, last } => {
            match chosen_value(scope, choices.as_slice(), context) {
                Some(value) => value,
                None => valued(scope, last.get(), context),
            }
        }
    }
}

/// The value of an operand taken alone, in its own type.
#[cycle(walk)]
fn alone(scope: &ScopeView<'_>, expr: &Expr) -> Bits
    ensures value { result ≡ alone_number (meaning_of (environment scope.now) expr.now) }
    ensures width { result.width ≡ (meaning_of (environment scope.now) expr.now).typed.kind.width }
    ensures fits { IsWidth result.width }
{
    let kind = typed(scope, expr).kind;
    valued(scope, expr, kind)
}

/// The value of an operand taken alone, with its sign and its first fault. The count of a replication is evaluated once
/// for both the type and the value.
#[cycle(walk)]
pub fn own(scope: &ScopeView<'_>, expr: &Expr) -> Own
    ensures reading { reading result.signed result.value ≡ own_reading (meaning_of (environment scope.now) expr.now) }
    ensures fault { result.fault ≡ (meaning_of (environment scope.now) expr.now).typed.fault }
{
    match expr {
        Expr::Paren { inner, .. } => own(scope, inner.get()),
        Expr::Repeat {
            open,
            count,
            first,
            more,
            ..
        } => {
            let count = own(scope, count.get());
            let parts = parts_typed(scope, typed(scope, first.get()), more.as_slice());
            let value = parts_value(scope, alone(scope, first.get()), more.as_slice());
            times_own(open.at, &count, parts, value)
        }
        _ => {
            let Typed { kind, fault } = typed(scope, expr);
            Own {
                value: valued(scope, expr, kind),
                signed: kind.signed,
                fault,
            }
        }
    }
}

/// The value of operands of one level in a context, from that of the first one.
#[cycle(walk)]
fn steps_value(
    scope: &ScopeView<'_>,
    class: Class,
    context: ValueType,
    first: Bits,
    more: &[Step],
) -> Bits
    requires context { IsWidth context.width }
    requires first { first.width ≡ context.width }
    ensures value { result ≡ walks.steps_number (environment scope.now) class context first more.now }
    ensures width { result.width ≡ context.width }
{
    let mut so_far = first;
    for step in more {
        so_far = next_value(scope, class, context, so_far, step);
    }
    so_far
}

/// The value with a further operand.
#[cycle(walk)]
fn next_value(
    scope: &ScopeView<'_>,
    class: Class,
    context: ValueType,
    left: Bits,
    step: &Step,
) -> Bits
    requires context { IsWidth context.width }
    requires left { left.width ≡ context.width }
    ensures value { result ≡ walks.next_number class context (symbol_in (environment scope.now) step.now.mark) left (meaning_of (environment scope.now) step.now.operand) }
    ensures width { result.width ≡ context.width }
{
    let mark = symbol(scope.names, step.mark);
    match class {
        Class::Shift => shifted(mark, context.signed, left, alone(scope, &step.operand)),
        _ => operated(
            mark,
            context.signed,
            left,
            valued(scope, &step.operand, context),
        ),
    }
}

/// The context of the first comparison of a level.
#[cycle(walk)]
fn first_context(scope: &ScopeView<'_>, kind: ValueType, more: &[Step]) -> ValueType
    requires { IsWidth kind.width }
    ensures context { result ≡ walks.first_context (environment scope.now) kind more.now }
    ensures width { IsWidth result.width }
{
    let [step, ..] = more else {
        return kind;
    };
    wider(kind, typed(scope, &step.operand).kind)
}

/// The value of comparisons of one level, from their left side.
#[cycle(walk)]
fn steps_left(scope: &ScopeView<'_>, left: Left, more: &[Step]) -> Bits
    requires { IsWidth left.kind.width }
    ensures { result ≡ (walks.steps_left (environment scope.now) left more.now).value }
{
    let mut so_far = left;
    for step in more {
        so_far = Left {
            kind: BIT,
            value: next_comparison(scope, so_far, step),
        };
    }
    so_far.value
}

/// A comparison with a further operand.
#[cycle(walk)]
fn next_comparison(scope: &ScopeView<'_>, left: Left, step: &Step) -> Bits
    requires { IsWidth left.kind.width }
    ensures { result ≡ (walks.next_left (symbol_in (environment scope.now) step.now.mark) left (meaning_of (environment scope.now) step.now.operand)).value }
{
    let common = wider(left.kind, typed(scope, &step.operand).kind);
    let right = valued(scope, &step.operand, common);
    compared(
        symbol(scope.names, step.mark),
        common.signed,
        at_width(left.value, common),
        right,
    )
}

/// Whether operands of one level hold, all of them or some, from whether the first one does.
#[cycle(walk)]
fn steps_hold(scope: &ScopeView<'_>, class: Class, first: bool, more: &[Step]) -> bool
    ensures { result ≡ walks.steps_hold (environment scope.now) class first more.now }
{
    let mut so_far = first;
    for step in more {
        so_far = next_holds(scope, class, so_far, step);
    }
    so_far
}

/// Whether operands hold with a further one, which is evaluated only if it decides.
#[cycle(walk)]
fn next_holds(scope: &ScopeView<'_>, class: Class, left: bool, step: &Step) -> bool
    ensures { result ≡ walks.next_holds class left (alone_number (meaning_of (environment scope.now) step.now.operand)) }
{
    match class {
        Class::Conjunction => left && alone(scope, &step.operand).is_true(),
        _ => left || alone(scope, &step.operand).is_true(),
    }
}

/// The value of parts that stand one beside the other, from that of the first one, where they are a width together.
#[cycle(walk)]
fn parts_value(scope: &ScopeView<'_>, first: Bits, more: &[Step]) -> Bits
    ensures { walks.Joins (environment scope.now) first more.now more.now result }
{
    let mut so_far = first;
    for step in more {
        so_far = joined(so_far, alone(scope, &step.operand));
    }
    so_far
}

/// The value of the first choice whose test holds, in a context.
#[cycle(walk)]
fn chosen_value(scope: &ScopeView<'_>, choices: &[Choice], context: ValueType) -> Option<Bits>
    requires { IsWidth context.width }
    ensures value { result ≡ walks.first_chosen (environment scope.now) context choices.now }
    ensures width { IfSome result (λ value. value.width ≡ context.width) }
{
    for choice in choices {
        if alone(scope, &choice.test).is_true() {
            return Some(valued(scope, &choice.value, context));
        }
    }
    None
}
