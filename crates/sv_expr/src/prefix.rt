//! Operators before an operand, the outermost first.

ghost use Rattle.std.specs.Prelude.{◌≡◌, ◌≤◌, length, map, take, drop};
ghost use Rattle.sv_tree.specs.Spelling.{symbol_of};
ghost use Rattle.sv_expr.specs.Walk.{plain_count as count_of_plain, prefixed_all as number_prefixed};

use crate::operator::{is_reduction, prefixed};
use crate::spelled::symbol;
use sv_tree::{Names, Token};
use vs_base::Bits;

/// How many operators stand before the first one that takes its operand alone.
pub fn plain_count(names: &Names, marks: &[Token]) -> usize
    ensures count { result ≡ count_of_plain (symbol_of names.now) marks.now }
    ensures most { result ≤ length marks.now }
{
    let mut count = 0;
    let mut rest = marks;
    while let [mark, more @ ..] = rest {
        if is_reduction(symbol(names, *mark)) {
            return count;
        }
        count += 1;
        rest = more;
    }
    count
}

/// The value after operators, the innermost first, each at the width that it finds.
pub fn prefixed_all(names: &Names, marks: &[Token], operand: Bits) -> Bits
    ensures { result ≡ number_prefixed (map (symbol_of names.now) marks.now) operand }
{
    let mut value = operand;
    let count = marks.len();
    for done in 0..count {
        value = prefixed(symbol(names, marks[count - 1 - done]), value);
    }
    value
}

/// The value after the operators from a place on.
pub fn prefixed_from(names: &Names, marks: &[Token], place: usize, operand: Bits) -> Bits
    requires { place ≤ length marks.now }
    ensures { result ≡ number_prefixed (map (symbol_of names.now) (drop place marks.now)) operand }
{
    prefixed_all(names, &marks[place..], operand)
}

/// The value after the operators before a place.
pub fn prefixed_before(names: &Names, marks: &[Token], place: usize, operand: Bits) -> Bits
    requires { place ≤ length marks.now }
    ensures { result ≡ number_prefixed (map (symbol_of names.now) (take place marks.now)) operand }
{
    prefixed_all(names, &marks[..place], operand)
}
