//! Each call on values once or a few times.

use std::test::Fail;
use vs_base::{Act, Bits, Text, ValueType, Whole, assignment_context, in_context, limits, wider};

fn of(width: u32, signed: bool) -> ValueType {
    ValueType { width, signed }
}

#[test]
fn values_keep_their_low_bits(rt: HostRuntime) {
    let value = Bits::new(8, 0x1a5);
    assert_eq!(rt; value.width(), 8);
    assert_eq!(rt; value.value(), 0xa5);
    assert_eq!(rt; value.signed_of(), -0x5b);
    assert_eq!(rt; value.extend(16, true), Bits::new(16, 0xffa5));
    assert_eq!(rt; value.extend(4, true), Bits::new(4, 5));
    assert_eq!(rt; value.slice(4, 8), Bits::new(8, 0x0a));
    assert_eq!(rt; value.slice(-4, 8), Bits::new(8, 0x50));
    assert_eq!(rt; value.place(6, Bits::new(4, 8)), Bits::new(8, 0x25));
    assert_eq!(rt; value.hex_digit(1), b'a');
    assert_eq!(rt; value.bin_digit(0), b'1');
    assert_eq!(rt; Bits::new(2, 2).join(Bits::new(3, 5)), Bits::new(5, 0x15));
    assert_eq!(rt; Bits::new(3, 5).repeat(2), Bits::new(6, 0x2d));
    assert_eq!(rt; Bits::new(128, 9).clog2(), Bits::new(32, 4));
}

#[test]
fn values_read_as_whole_numbers(rt: HostRuntime) {
    let most = Whole::of(Bits::new(128, u128::MAX), false);
    let least = Whole::of(Bits::new(128, 1 << 127), true);
    let below = Whole::of(Bits::new(128, u128::MAX - 4), false);
    assert!(rt; least.less(most));
    assert_eq!(rt; most.in_word(), None);
    assert_eq!(rt;
        Whole::of(Bits::new(128, u128::MAX), true).in_word(),
        Some(-1)
    );
    assert_eq!(rt; most.minus(below), 4);
    assert_eq!(rt; least.minus(most), i64::MIN);
    assert_eq!(rt; most.nearest(), i64::MAX);
}

#[test]
fn values_are_reckoned_with(rt: HostRuntime) {
    let left = Bits::new(8, 0xf9);
    let right = Bits::new(8, 2);
    assert_eq!(rt; left.add(right), Bits::new(8, 0xfb));
    assert_eq!(rt; left.sub(right), Bits::new(8, 0xf7));
    assert_eq!(rt; left.neg(), Bits::new(8, 7));
    assert_eq!(rt; left.mul(right), Bits::new(8, 0xf2));
    assert_eq!(rt; left.div(right, true), Bits::new(8, 0xfd));
    assert_eq!(rt; left.div(right, false), Bits::new(8, 0x7c));
    assert_eq!(rt; left.rem(right, true), Bits::new(8, 0xff));
    assert_eq!(rt; left.div(Bits::new(8, 0), true), Bits::new(8, 0));
    assert_eq!(rt; left.shift_left(right), Bits::new(8, 0xe4));
    assert_eq!(rt; left.shift_right(right, true), Bits::new(8, 0xfe));
    assert_eq!(rt; left.shift_right(right, false), Bits::new(8, 0x3e));
    assert_eq!(rt; left.less(right, true), Bits::new(1, 1));
    assert_eq!(rt; left.at_most(right, false), Bits::new(1, 0));
    assert_eq!(rt; left.equal(right), Bits::new(1, 0));
    assert_eq!(rt; left.unequal(right), Bits::new(1, 1));
}

#[test]
fn values_are_lists_of_bits(rt: HostRuntime) {
    let left = Bits::new(4, 5);
    let right = Bits::new(4, 3);
    assert_eq!(rt; left.bit_and(right), Bits::new(4, 1));
    assert_eq!(rt; left.bit_or(right), Bits::new(4, 7));
    assert_eq!(rt; left.bit_xor(right), Bits::new(4, 6));
    assert_eq!(rt; left.bit_xnor(right), Bits::new(4, 9));
    assert_eq!(rt; left.bit_not(), Bits::new(4, 10));
    assert_eq!(rt; left.reduce_and(), Bits::new(1, 0));
    assert_eq!(rt; left.reduce_nand(), Bits::new(1, 1));
    assert_eq!(rt; left.reduce_or(), Bits::new(1, 1));
    assert_eq!(rt; left.reduce_nor(), Bits::new(1, 0));
    assert_eq!(rt; left.reduce_xor(), Bits::new(1, 0));
    assert_eq!(rt; left.reduce_xnor(), Bits::new(1, 1));
    assert!(rt; left.is_true());
    assert_eq!(rt; left.logical_not(), Bits::new(1, 0));
    assert_eq!(rt; left.logical_and(Bits::new(8, 0)), Bits::new(1, 0));
    assert_eq!(rt; left.logical_or(Bits::new(8, 0)), Bits::new(1, 1));
}

#[test]
fn texts_and_acts_are_held(rt: HostRuntime) -> Result<(), Fail> {
    let text = Text::new(b"top.y".to_vec(rt.alloc())?);
    assert_eq!(rt; text.as_bytes(), b"top.y".as_slice());
    assert_eq!(rt; text.into_bytes().as_slice(), b"top.y".as_slice());
    let turns = Act::Clock { port: 1, turns: 2 };
    assert!(rt; turns == turns);
    assert!(rt; turns != Act::Eval);
    assert!(rt; limits::WORDS == 65_536);
    Ok(())
}

#[test]
fn finds_the_types(rt: HostRuntime) {
    for (a, b, operator, assigned) in [
        (of(8, true), of(16, false), of(16, false), of(16, true)),
        (of(16, false), of(8, true), of(16, false), of(16, false)),
        (of(8, true), of(16, true), of(16, true), of(16, true)),
        (of(32, true), of(1, false), of(32, false), of(32, true)),
    ] {
        assert_eq!(rt; wider(a, b), operator);
        assert_eq!(rt; assignment_context(a, b.width), assigned);
    }
}

#[test]
fn extends_operands(rt: HostRuntime) {
    let minus_128 = Bits::new(8, 0x80);
    for (signed, want) in [(true, 0xff80), (false, 0x80)] {
        let context = ValueType { width: 16, signed };
        assert_eq!(rt; in_context(minus_128, context), Bits::new(16, want));
    }
}
