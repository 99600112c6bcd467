//! The import library: the host that the program brings, with twelve imports.
//!
//! | Import | By arguments | Answer, and what changes |
//! |---|---|---|
//! | `vs_popcount(a)` | yes | the number of one bits |
//! | `vs_parity(a)` | yes | that number modulo 2 |
//! | `vs_reverse(a)` | yes | bit i is bit 31 - i of a, for i below 32; other bits 0 |
//! | `vs_mix(a, b)` | yes | m xor (m >> 32), where m = a * 11400714819323198485 + b |
//! | `vs_max(a, b)`, `vs_min(a, b)` | yes | the greater, the lesser, unsigned |
//! | `vs_rotl(a, n)` | yes | the low 32 bits of a, rotated left by n modulo 32 |
//! | `vs_next()` | no | the next number: it grows by 1, and the new one is the answer |
//! | `vs_put(a)` | no | 0; the sum grows by a |
//! | `vs_sum()` | no | the sum |
//! | `vs_peek(i)` | no | cell i modulo 16 |
//! | `vs_poke(i, v)` | no | that cell's old value; the cell becomes v |
//!
//! Arguments are numbers of 64 bits, and all sums are modulo 2^64. The state is the next number, the
//! sum and 16 cells, all 0 at first. An import's number is its place in the table, from 0. At a
//! number that no import has a call answers 0 and changes nothing.
//!
//! The same table stands in `specs/Library.antt` as `imports`, one line an import. Each call of
//! [`LibHost`] is proved to be the row of its number, and an import is told as by arguments alone
//! exactly where its answer ignores the state and it keeps it. [`LibAnswers`] gives the answers of
//! the seven that are so to several threads.
//!
//! No call takes memory, and each takes a fixed number of steps, but [`LibHost`]'s `find`, which
//! looks through the names.
//!
//! ```text
//! let mut library = LibHost::new();
//! library.find(b"vs_rotl")                  // Some(6)
//! library.call(6, &[0x8000_0001, 1])        // 3
//! library.call(7, &[])                      // 1, then 2, 3, ..
//! ```
#![tactic(auto)]

mod answers;
mod host;
mod number;
#[cfg(test)]
mod tests;

pub use answers::LibAnswers;
pub use host::LibHost;
