//! How the types and values of parts make those of the whole.

ghost use Rattle.std.specs.Prelude.{◌≡◌, ◌+◌, ◌≤◌, ◌≤ℤ◌, pos, ◌+ℤ◌, ◌-ℤ◌, ◌*ℤ◌, map, true, None};
ghost use Rattle.vs_base.specs.Number.{reading as number_reading};
ghost use Rattle.vs_base.specs.WholeNumber.{nearest};
ghost use Rattle.vs_base.specs.Operators.{joined as bits_joined, repeated as times_repeated, truth as bit_of};
ghost use Rattle.sv_tree.specs.Spelling.{symbol_of};
ghost use Rattle.vs_base.specs.Types.{in_context as number_in_context};
ghost use Rattle.sv_expr.specs.Bound.{IsWidth, is_width as is_type_width, whole_part, ranged as ranged_type};
ghost use Rattle.sv_expr.specs.Meaning.{combined_typed, prefix_kind as prefixed_kind, system_kind, system_value as system_number, part_width};
ghost use Rattle.sv_expr.specs.Walk.{at_width as number_at_width, joined_typed, times_number, times_parts, with_choice, with_select};

use crate::bound::{BIT, first, nothing, ranged};
use crate::fault::WalkFault;
use crate::operator::{Class, Function, combined, is_reduction};
use crate::spelled::symbol;
use crate::typed::Typed;
use sv_tree::{Names, Symbol, Token};
use vs_base::{Bits, Origin, ValueType, Whole, in_context, limits, wider};

/// The type of two operands.
pub fn combine(class: Class, a: Typed, b: Typed) -> Typed
    requires a { IsWidth a.kind.width }
    requires b { IsWidth b.kind.width }
    ensures typed { result ≡ combined_typed class a b }
    ensures width { IsWidth result.kind.width }
{
    Typed {
        kind: combined(class, a.kind, b.kind),
        fault: first(a.fault, b.fault),
    }
}

/// The width of two parts, up to 2^32 - 1.
pub fn join(a: Typed, b: Typed) -> Typed
    ensures { result ≡ joined_typed a b }
{
    Typed {
        kind: ValueType {
            width: a.kind.width.saturating_add(b.kind.width),
            signed: false,
        },
        fault: first(a.fault, b.fault),
    }
}

/// The type of the values of a chain of `?:` with a further test and value.
pub fn choose(so_far: Typed, test: Typed, value: Typed) -> Typed
    ensures { result ≡ with_choice so_far test value }
{
    Typed {
        kind: wider(so_far.kind, value.kind),
        fault: first(first(so_far.fault, test.fault), value.fault),
    }
}

/// The type of a name with a further select.
pub fn select(so_far: Typed, last: Typed) -> Typed
    ensures { result ≡ with_select so_far last }
{
    Typed {
        kind: last.kind,
        fault: first(so_far.fault, last.fault),
    }
}

/// The type of an operand after operators.
pub fn prefix_kind(names: &Names, marks: &[Token], kind: ValueType) -> ValueType
    requires { IsWidth kind.width }
    ensures kind { result ≡ prefixed_kind (map (symbol_of names.now) marks.now) kind }
    ensures width { IsWidth result.width }
{
    let mut rest = marks;
    while let [mark, more @ ..] = rest {
        if is_reduction(symbol(names, *mark)) {
            return BIT;
        }
        rest = more;
    }
    kind
}

/// The type of a system function's result.
pub fn system_typed(function: Function, arg: Typed) -> Typed
    ensures { result ≡ record { kind = system_kind function arg.kind; fault = arg.fault } }
{
    let kind = match function {
        Function::CeilingLog => ValueType {
            width: 32,
            signed: true,
        },
        Function::Signed => ValueType {
            width: arg.kind.width,
            signed: true,
        },
        Function::Unsigned => ValueType {
            width: arg.kind.width,
            signed: false,
        },
    };
    Typed {
        kind,
        fault: arg.fault,
    }
}

/// The value of a system function's result, in its own type.
pub fn system_value(function: Function, arg: Bits) -> Bits
    ensures { result ≡ system_number function arg }
{
    match function {
        Function::CeilingLog => arg.clog2(),
        Function::Signed | Function::Unsigned => arg,
    }
}

/// A value, whether it is read with a sign, and the first fault of its expression.
#[derive(Clone, Copy)]
pub struct Own {
    pub value: Bits,
    pub signed: bool,
    pub fault: Option<WalkFault>,
}

/// The count of what stands once.
pub fn once() -> Own
    ensures reading { number_reading result.signed result.value ≡ pos 1 }
    ensures fault { result.fault ≡ None }
{
    Own {
        value: Bits::new(1, 1),
        signed: false,
        fault: None,
    }
}

/// The number that a value reads, with its own sign.
fn reading(own: &Own) -> Whole
    ensures { result ≡ number_reading own.now.signed own.now.value }
{
    Whole::of(own.value, own.signed)
}

/// The type of a part select, of the values of its ends.
pub fn part_typed(
    at: Origin,
    earlier: Option<WalkFault>,
    mark: Symbol,
    from: &Own,
    to: &Own,
) -> Typed
    ensures typed { result ≡ ranged_type at earlier (part_width mark (number_reading from.now.signed from.now.value) (number_reading to.now.signed to.now.value)) }
    ensures width { IsWidth result.kind.width }
{
    match mark {
        Symbol::Colon => down_typed(at, earlier, reading(from), reading(to)),
        _ => counted_typed(at, earlier, reading(to)),
    }
}

/// The type of the bits from one index down to another.
fn down_typed(at: Origin, earlier: Option<WalkFault>, from: Whole, to: Whole) -> Typed
    ensures typed { result ≡ ranged_type at earlier ((from -ℤ to) +ℤ pos 1) }
    ensures width { IsWidth result.kind.width }
{
    near_down_typed(at, earlier, from, to)
}

/// The same with the nearest difference of 64 bits with a sign.
fn near_down_typed(at: Origin, earlier: Option<WalkFault>, from: Whole, to: Whole) -> Typed
    ensures typed { result ≡ ranged_type at earlier (nearest (from -ℤ to) +ℤ pos 1) }
    ensures width { IsWidth result.kind.width }
{
    let bits = i128::from(from.minus(to)) + 1;
    ranged(at, earlier, bits)
}

/// The type of so many bits.
fn counted_typed(at: Origin, earlier: Option<WalkFault>, count: Whole) -> Typed
    ensures typed { result ≡ ranged_type at earlier count }
    ensures width { IsWidth result.kind.width }
{
    near_counted_typed(at, earlier, count)
}

/// The same with the nearest count of 64 bits with a sign.
fn near_counted_typed(at: Origin, earlier: Option<WalkFault>, count: Whole) -> Typed
    ensures typed { result ≡ ranged_type at earlier (nearest count) }
    ensures width { IsWidth result.kind.width }
{
    let bits = i128::from(count.nearest());
    ranged(at, earlier, bits)
}

/// The type of so many times a width.
pub fn times_typed(at: Origin, earlier: Option<WalkFault>, count: &Own, width: u32) -> Typed
    ensures typed { result ≡ ranged_type at earlier (number_reading count.now.signed count.now.value *ℤ pos width) }
    ensures width { IsWidth result.kind.width }
{
    near_times_typed(at, earlier, reading(count), width)
}

/// The same with the nearest count of 64 bits with a sign.
fn near_times_typed(at: Origin, earlier: Option<WalkFault>, count: Whole, width: u32) -> Typed
    ensures typed { result ≡ ranged_type at earlier (nearest count *ℤ pos width) }
    ensures width { IsWidth result.kind.width }
{
    let bits = times(count, width);
    ranged(at, earlier, bits)
}

/// Whether a type may have so many times a width.
fn times_fits(count: &Own, width: u32) -> bool
    ensures { result ≡ is_type_width (whole_part (number_reading count.now.signed count.now.value *ℤ pos width)) }
{
    near_times_fits(reading(count), width)
}

/// The same with the nearest count of 64 bits with a sign.
fn near_times_fits(count: Whole, width: u32) -> bool
    ensures { result ≡ is_type_width (whole_part (nearest count *ℤ pos width)) }
{
    let bits = times(count, width);
    1 <= bits && bits <= i128::from(limits::WIDTH)
}

/// How many bits so many times a width are; a count of more than 63 bits is taken as the nearest one of these.
fn times(count: Whole, width: u32) -> i128
    ensures { result ≡ nearest count *ℤ pos width }
{
    i128::from(count.nearest()) * i128::from(width)
}

/// The bits of both, those of `low` below. Where they are more than 128 together, `high` alone.
pub fn joined(high: Bits, low: Bits) -> Bits
    ensures { high.width + low.width ≤ 128 → result ≡ bits_joined high low }
{
    if high.width() + low.width() > 128 {
        return high;
    }
    high.join(low)
}

/// So many times the bits, in a context; together they are a width that a type may have.
#[tactic(auto, using(crate::proofs::Ranges::counts))]
fn repeated(value: Bits, count: &Own, context: ValueType) -> Bits
    requires width { is_type_width (whole_part (number_reading count.now.signed count.now.value *ℤ pos value.width)) ≡ true }
    requires context { IsWidth context.width }
    ensures { result ≡ number_in_context (times_repeated (whole_part (number_reading count.now.signed count.now.value)) value) context }
{
    in_context(value.repeat(few(reading(count))), context)
}

/// A number from 1 to 128.
fn few(count: Whole) -> u32
    requires some { pos 1 ≤ℤ count }
    requires most { count ≤ℤ pos 128 }
    ensures { result ≡ whole_part count }
{
    count.nearest() as u32
}

/// So many times the bits of a width, in a context, and 0 where no type may be so wide: there the bits need not be of the width.
pub fn times_value(count: &Own, width: u32, value: Bits, context: ValueType) -> Bits
    requires whole { is_type_width (whole_part (number_reading count.now.signed count.now.value *ℤ pos width)) ≡ true → value.width ≡ width }
    requires context { IsWidth context.width }
    ensures value { result ≡ times_number (number_reading count.now.signed count.now.value) width value context }
    ensures width { result.width ≡ context.width }
{
    if !times_fits(count, width) {
        return nothing(context);
    }
    repeated(value, count, context)
}

/// So many times the bits of parts, taken alone.
pub fn times_own(at: Origin, count: &Own, parts: Typed, value: Bits) -> Own
    requires whole { is_type_width (whole_part (number_reading count.now.signed count.now.value *ℤ pos parts.kind.width)) ≡ true → value.width ≡ parts.kind.width }
    ensures value { result.value ≡ times_number (number_reading count.now.signed count.now.value) parts.kind.width value (times_parts at count.now.fault (number_reading count.now.signed count.now.value) parts).kind }
    ensures signed { result.signed ≡ (times_parts at count.now.fault (number_reading count.now.signed count.now.value) parts).kind.signed }
    ensures fault { result.fault ≡ (times_parts at count.now.fault (number_reading count.now.signed count.now.value) parts).fault }
{
    let earlier = first(count.fault, parts.fault);
    let Typed { kind, fault } = times_typed(at, earlier, count, parts.kind.width);
    Own {
        value: times_value(count, parts.kind.width, value, kind),
        signed: kind.signed,
        fault,
    }
}

/// A value that is as wide as a context already, or is extended to it.
pub fn at_width(value: Bits, context: ValueType) -> Bits
    requires { IsWidth context.width }
    ensures value { result ≡ number_at_width value context }
    ensures width { result.width ≡ context.width }
{
    if value.width() == context.width {
        return value;
    }
    in_context(value, context)
}

/// The bit of an answer, in a context.
pub fn truth(holds: bool, context: ValueType) -> Bits
    requires { IsWidth context.width }
    ensures { result ≡ number_in_context (bit_of holds) context }
{
    in_context(Bits::new(1, u128::from(holds)), context)
}
