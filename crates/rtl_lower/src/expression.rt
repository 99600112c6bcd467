//! Expressions with the widths and signs that their contexts give them.

ghost use Rattle.std.specs.Prelude.{◌≡◌, Some, IfOk, IfSome};
ghost use Rattle.rtl_ir.specs.declared.expr.ExprNode.TheVariants as node;
ghost use Rattle.rtl_lower.specs.Kinds.{type_of, type_in, thing_of, thing_denoted};
ghost use Rattle.sv_expr.specs.Environment.{denotes, as_constant};
ghost use Rattle.vs_base.specs.Types.{in_context};

use crate::fault::FlatFault;
use crate::fixed::are_fixed;
use crate::formal::formal_kind;
use crate::here::Here;
use crate::kind::{Kind, assigned, bit, in_kind, kind_of, wider};
use crate::number::{constant, count_of, part_width};
use crate::operator::{binary, unary};
use rtl_ir::{BinaryOp, Call, Class, Expr, ExprNode, Target, UnaryOp, Width};
use sqlite_items::{Boxed, Items};
use sv_expr::{Denoted, Fixed, symbol};
use sv_tree::{Args, Choice, Expr as Tree, Select, Step, Symbol, Token};

/// The conversion to a signed type (IEEE 1800-2017 6.24.1).
const SIGNED: &[u8] = b"$signed";

/// The conversion to an unsigned type.
const UNSIGNED: &[u8] = b"$unsigned";

/// How the operands of a list take their contexts.
#[derive(Clone, Copy)]
pub enum How {
    /// Each its own.
    Alone,
    /// All the same.
    In(Kind),
    /// Further operands of comparisons of one level: each at the wider of its own and of what stands to the left, which is
    /// first of this type, and then one bit.
    Compared(Kind),
    /// Further arguments of this import: each is assigned to its formal.
    Args(u32),
}

/// The context of an operand of a list, which is the one of this number after the first.
fn operand_kind(
    operand: &Tree,
    here: &Here<'_>,
    how: How,
    number: usize,
) -> Result<Kind, FlatFault> {
    match how {
        How::Alone => kind_of(operand, here),
        How::In(kind) => Ok(kind),
        How::Compared(left) => {
            let left = if number == 0 { left } else { bit() };
            let own = kind_of(operand, here)?;
            Ok(wider(left, own))
        }
        How::Args(import) => argument_kind(operand, here, import, number.saturating_add(1)),
    }
}

/// The context of an argument: it is assigned to its formal.
fn argument_kind(
    argument: &Tree,
    here: &Here<'_>,
    import: u32,
    number: usize,
) -> Result<Kind, FlatFault> {
    let formal = formal_kind(here.imports, import, number)?;
    let own = kind_of(argument, here)?;
    Ok(assigned(own, formal.width))
}

/// The context of the first operand of a level, and of the others.
#[derive(Clone, Copy)]
struct Contexts {
    first: Kind,
    rest: How,
}

/// The contexts of the operands of a level.
fn contexts_of(
    first: &Tree,
    more: &[Step],
    here: &Here<'_>,
    class: Class,
    kind: Kind,
) -> Result<Contexts, FlatFault> {
    match class {
        Class::Arithmetic => Ok(Contexts {
            first: kind,
            rest: How::In(kind),
        }),
        Class::Shift => Ok(Contexts {
            first: kind,
            rest: How::Alone,
        }),
        Class::Comparison => {
            let own = kind_of(first, here)?;
            let first = first_compared(own, more, here)?;
            Ok(Contexts {
                first,
                rest: How::Compared(own),
            })
        }
        Class::Logical => Ok(Contexts {
            first: kind_of(first, here)?,
            rest: How::Alone,
        }),
    }
}

/// The contexts of the operands of a level by the class of its operators.
fn level_contexts(
    first: &Tree,
    more: &[Step],
    here: &Here<'_>,
    kind: Kind,
) -> Result<Contexts, FlatFault> {
    let class = class_of(more, here)?;
    contexts_of(first, more, here, class, kind)
}

/// The context of the first of compared operands.
fn first_compared(own: Kind, more: &[Step], here: &Here<'_>) -> Result<Kind, FlatFault> {
    let Some(step) = more.first() else {
        return Ok(own);
    };
    let second = kind_of(&step.operand, here)?;
    Ok(wider(own, second))
}

/// The operator of a step of a level.
fn operator_of(step: &Step, here: &Here<'_>) -> Result<BinaryOp, FlatFault> {
    match binary(here.view.names, step.mark) {
        Some(operator) => Ok(operator),
        None => Err(FlatFault::NotElaborated),
    }
}

/// The class of the operators of a level, which all have one (IEEE 1800-2017 table 11-2).
fn class_of(more: &[Step], here: &Here<'_>) -> Result<Class, FlatFault> {
    let Some(step) = more.first() else {
        return Ok(Class::Arithmetic);
    };
    let class = operator_of(step, here)?.class();
    for step in more {
        if operator_of(step, here)?.class() != class {
            return Err(FlatFault::NotElaborated);
        }
    }
    Ok(class)
}

/// The operators of a level.
fn operators(more: &[Step], here: &Here<'_>) -> Result<Items<BinaryOp>, FlatFault> {
    let mut all = Items::new(here.alloc);
    for step in more {
        all.push(operator_of(step, here)?)?;
    }
    Ok(all)
}

/// The operator of a mark before an operand.
fn prefix_of(mark: Token, here: &Here<'_>) -> Result<UnaryOp, FlatFault> {
    match unary(here.view.names, mark) {
        Some(operator) => Ok(operator),
        None => Err(FlatFault::NotElaborated),
    }
}

/// Operators before an operand, the outermost first.
fn prefixes(marks: &[Token], here: &Here<'_>) -> Result<Items<UnaryOp>, FlatFault> {
    let mut all = Items::new(here.alloc);
    for mark in marks {
        all.push(prefix_of(*mark, here)?)?;
    }
    Ok(all)
}

/// The context of the operand after operators: that of the whole where none of them takes it alone.
fn prefixed_kind(
    marks: &[Token],
    operand: &Tree,
    here: &Here<'_>,
    kind: Kind,
) -> Result<Kind, FlatFault> {
    for mark in marks {
        if prefix_of(*mark, here)?.is_reduction() {
            return kind_of(operand, here);
        }
    }
    Ok(kind)
}

/// An expression of a context.
fn of_kind(kind: Kind, node: ExprNode) -> Expr
    ensures { result ≡ record { width = kind.width; signed = kind.signed; node = node } }
{
    Expr {
        width: kind.width,
        signed: kind.signed,
        node,
    }
}

/// A constant in a context.
fn fixed_in(fixed: Fixed, kind: Kind) -> ExprNode
    ensures { result ≡ node.Const (in_context fixed.value (type_of kind)) }
{
    ExprNode::Const(in_kind(fixed.value, kind))
}

/// Whether a system function gives its argument's bits, with or without a sign.
fn is_conversion(name: Token, here: &Here<'_>) -> bool {
    let text = here.view.names.text_of(name.name);
    text == SIGNED || text == UNSIGNED
}

/// An expression in a context.
#[cycle(lower)]
pub fn lower(expr: &Tree, here: &Here<'_>, kind: Kind) -> Result<Expr, FlatFault>
    ensures { IfOk result (λ e. type_in e ≡ type_of kind) }
{
    let node = match expr {
        Tree::Decimal(_) | Tree::Based(_) | Tree::Sized { .. } | Tree::Fill(_) => {
            ExprNode::Const(constant(expr, here, kind)?)
        }
        Tree::Name { name, selects } => named(selects.as_slice(), *name, here, kind)?,
        Tree::Paren { inner, .. } => return lower(inner.get(), here, kind),
        Tree::Concat { first, more, .. } => {
            let first = lower(first.get(), here, kind_of(first.get(), here)?)?;
            ExprNode::Concat(operands(more.as_slice(), here, first, How::Alone)?)
        }
        Tree::Repeat {
            count,
            first,
            more,
            ..
        } => {
            let count = count_of(count.get(), here)?;
            let first = lower(first.get(), here, kind_of(first.get(), here)?)?;
            ExprNode::Repeat(count, operands(more.as_slice(), here, first, How::Alone)?)
        }
        Tree::Call { name, args, .. } => ExprNode::Call(call(args, *name, here)?),
        Tree::System { name, arg, .. } => {
            if !is_conversion(*name, here) {
                return Ok(of_kind(kind, ExprNode::Const(constant(expr, here, kind)?)));
            }
            let arg = lower(arg.get(), here, kind_of(arg.get(), here)?)?;
            ExprNode::Sign(Boxed::new(here.alloc, arg)?)
        }
        Tree::Prefix { operators, operand } => {
            let inner = prefixed_kind(operators.as_slice(), operand.get(), here, kind)?;
            let marks = prefixes(operators.as_slice(), here)?;
            let operand = lower(operand.get(), here, inner)?;
            ExprNode::Prefix(marks, Boxed::new(here.alloc, operand)?)
        }
        Tree::Level { first, more } => {
            let more = more.as_slice();
            let contexts = level_contexts(first.get(), more, here, kind)?;
            let first = lower(first.get(), here, contexts.first)?;
            ExprNode::Level(
                operands(more, here, first, contexts.rest)?,
                operators(more, here)?,
            )
        }
        Tree::Choose {
            choices: tests,
            last,
        } => {
            let last = lower(last.get(), here, kind)?;
            ExprNode::Choose(
                choices(tests.as_slice(), here, kind)?,
                Boxed::new(here.alloc, last)?,
            )
        }
    };
    Ok(of_kind(kind, node))
}

/// Operands of a list, after the first one.
#[cycle(lower)]
fn operands(
    more: &[Step],
    here: &Here<'_>,
    first: Expr,
    how: How,
) -> Result<Items<Expr>, FlatFault> {
    let mut all = Items::new(here.alloc);
    all.push(first)?;
    for (number, step) in more.iter().enumerate() {
        let kind = operand_kind(&step.operand, here, how, number)?;
        all.push(lower(&step.operand, here, kind)?)?;
    }
    Ok(all)
}

/// The tests of a chain of `?:`, each alone, and their values in a context.
#[cycle(lower)]
fn choices(
    tests: &[Choice],
    here: &Here<'_>,
    kind: Kind,
) -> Result<Items<rtl_ir::Choice>, FlatFault> {
    let mut all = Items::new(here.alloc);
    for choice in tests {
        let test = lower(&choice.test, here, kind_of(&choice.test, here)?)?;
        let value = lower(&choice.value, here, kind)?;
        all.push(rtl_ir::Choice { test, value })?;
    }
    Ok(all)
}

/// The call of an import.
#[cycle(lower)]
pub fn call(args: &Args, name: Token, here: &Here<'_>) -> Result<Call, FlatFault> {
    let Denoted::Import(declared) = here.view.table.get(name.name) else {
        return Err(FlatFault::NotElaborated);
    };
    let import = declared.item;
    let Args::Listed { first, more } = args else {
        return Ok(Call {
            import,
            args: Items::new(here.alloc),
        });
    };
    let kind = argument_kind(first.get(), here, import, 0)?;
    let first = lower(first.get(), here, kind)?;
    let args = operands(more.as_slice(), here, first, How::Args(import))?;
    Ok(Call { import, args })
}

/// A name with its selects in a context.
#[cycle(lower)]
pub fn named(
    selects: &[Select],
    name: Token,
    here: &Here<'_>,
    kind: Kind,
) -> Result<ExprNode, FlatFault>
    ensures { IfOk result (λ e. IfSome (as_constant (denotes here.now.view name.name.0)) (λ fixed. e ≡ node.Const (in_context fixed.value (type_of kind)))) }
{
    match here.view.table.get(name.name) {
        Denoted::Constant(fixed) | Denoted::Turn(fixed) => Ok(fixed_in(fixed, kind)),
        _ => Ok(ExprNode::Read(target(selects, name, here)?)),
    }
}

/// What a name with its selects reads or writes.
#[cycle(lower)]
pub fn target(selects: &[Select], name: Token, here: &Here<'_>) -> Result<Target, FlatFault>
    ensures { IfOk result (λ t. thing_denoted (denotes here.now.view name.name.0) ≡ Some (thing_of t)) }
{
    let fixed = are_fixed(selects, here);
    match (here.view.table.get(name.name), selects) {
        (Denoted::Variable(declared), []) => Ok(Target {
            mem: false,
            item: declared.item,
            element: None,
            select: None,
            whole: true,
        }),
        (Denoted::Variable(declared), [last]) => Ok(Target {
            mem: false,
            item: declared.item,
            element: None,
            select: Some(selected(last, here, fixed)?),
            whole: !fixed,
        }),
        (Denoted::Memory(declared), [element]) => Ok(Target {
            mem: true,
            item: declared.item,
            element: Some(selected(element, here, fixed)?.at),
            select: None,
            whole: !fixed,
        }),
        (Denoted::Memory(declared), [element, last]) => {
            let element = selected(element, here, fixed)?.at;
            Ok(Target {
                mem: true,
                item: declared.item,
                element: Some(element),
                select: Some(selected(last, here, fixed)?),
                whole: !fixed,
            })
        }
        _ => Err(FlatFault::NotElaborated),
    }
}

/// A select (IEEE 1800-2017 11.5.1). Where it is fixed its index is a constant.
#[cycle(lower)]
fn selected(select: &Select, here: &Here<'_>, fixed: bool) -> Result<rtl_ir::Select, FlatFault> {
    match select {
        Select::Bit { at, .. } => {
            let at = index(at.get(), here, fixed)?;
            Ok(rtl_ir::Select {
                at,
                width: Width::new(1),
                down: false,
            })
        }
        Select::Part { from, mark, to, .. } => {
            let mark = symbol(here.view.names, *mark);
            let width = part_width(mark, from.get(), to.get(), here)?;
            if matches!(mark, Symbol::Colon) {
                let at = index(to.get(), here, true)?;
                return Ok(rtl_ir::Select {
                    at,
                    width,
                    down: false,
                });
            }
            let at = index(from.get(), here, fixed)?;
            Ok(rtl_ir::Select {
                at,
                width,
                down: matches!(mark, Symbol::MinusColon),
            })
        }
    }
}

/// An index, taken alone. Where it is fixed it is a constant.
#[cycle(lower)]
fn index(expr: &Tree, here: &Here<'_>, fixed: bool) -> Result<Boxed<Expr>, FlatFault> {
    let kind = kind_of(expr, here)?;
    let at = if fixed {
        of_kind(kind, ExprNode::Const(constant(expr, here, kind)?))
    } else {
        lower(expr, here, kind)?
    };
    Ok(Boxed::new(here.alloc, at)?)
}
