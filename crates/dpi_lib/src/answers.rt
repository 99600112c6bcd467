//! The seven imports that answer by their arguments alone.
ghost use Rattle.std.specs.Prelude.{◌≡◌, ◌%◌, ◌^◌, [], ℕ, List, IsTrue, count_ones, slice_index};
ghost use Rattle.dpi_lib.specs.Library.{reversed, mixed, rotated, answered, import_at, library_by_args, library_answer};

use crate::number;
use dpi_host::{Answers, argument};

/// The answers of the seven imports that answer by their arguments alone, for several threads.
#[derive(Clone, Copy, Debug, PartialEq, Eq)]
pub struct LibAnswers;

impl Answers for LibAnswers {
    ghost by_args = { λ shared id. library_by_args id };

    ghost answer = { λ shared id args. library_answer [] [] id args };

    fn answer(&self, id: u32, args: &[u64]) -> u64 {
        answer_alone(id, args)
    }
}

// The answer of an import by its arguments alone; 0 at a number that no import has.
pub(crate) fn answer_alone(id: u32, args: &[u64]) -> u64
    requires { IsTrue (library_by_args id) }
    ensures { (s : List ℕ) → result ≡ answered (import_at id) s (slice_index args.now 0) (slice_index args.now 1) }
{
    let a = argument(args, 0);
    let b = argument(args, 1);
    match id {
        number::POPCOUNT => popcount(a),
        number::PARITY => parity(a),
        number::REVERSE => reverse(a),
        number::MIX => mix(a, b),
        number::MAX => a.max(b),
        number::MIN => a.min(b),
        number::ROTL => rotl(a, b),
        _ => 0,
    }
}

// The number of one bits.
fn popcount(a: u64) -> u64
    ensures { result ≡ count_ones a }
{
    u64::from(a.count_ones())
}

// Whether the number of one bits is odd.
fn parity(a: u64) -> u64
    ensures { result ≡ count_ones a % 2 }
{
    popcount(a) % 2
}

// The low 32 bits, the lowest of them made the highest.
fn reverse(a: u64) -> u64
    ensures { result ≡ reversed a }
{
    u64::from((low(a) as u32).reverse_bits())
}

// The upper half of a product and a sum laid over its lower half, as a hash does.
fn mix(a: u64, b: u64) -> u64
    ensures { result ≡ mixed a b }
{
    let m = a.wrapping_mul(11400714819323198485).wrapping_add(b);
    m ^ (m >> 32)
}

// The low 32 bits of a, rotated left by n modulo 32.
fn rotl(a: u64, n: u64) -> u64
    ensures { result ≡ rotated a n }
{
    u64::from((low(a) as u32).rotate_left((n % 32) as u32))
}

// The low 32 bits.
fn low(a: u64) -> u64
    ensures { result ≡ a % 2 ^ 32 }
{
    a & 0xffff_ffff
}
