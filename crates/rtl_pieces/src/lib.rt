//! Which bits the processes of a flat design read and write, whether each bit has one driver, and how the bits are cut into words.
//!
//! # Terms
//!
//! All bits of a design stand in one *line*: those of the variables in list order, then those of the memories in list
//! order, and within one of these by address and by bit number. A bit goes by its *place* in this line, which is how many
//! bits stand before it, and a set of bits goes by *ranges* of places. So a name that counts a whole memory is one range,
//! whatever the memory's size, and the order of bits is that of numbers. A [`BitLine`] holds where each variable and memory begins
//! and is made once for a design; [`BitRef`] is a bit's address.
//!
//! - A process *writes* the bits of the left sides of its assignments. It *reads* the bits that its expressions and the
//!   indices of its selects name, but for those that it writes. A select of constants names its own bits, and none where it is
//!   out of range; any other select names the whole variable or memory.
//! - A bit's *writer* is the first process that writes it. Where [`drivers`] answers `Ok` there is no other.
//! - A *piece* is a run of at most [`vs_base::limits::WORD`] neighbouring bits of a variable, or of an element of a memory, with
//!   the same writer or none, as long as possible from its low end. All elements of one memory are cut at the same places,
//!   namely wherever this rule cuts one of them; the rule is not applied again after that.
//! - The *words* of a [`Layout`] are word 0, which belongs to the table and holds no bit (its length is 0 and its
//!   bit that of place 0); then the pieces in the order of bits; then a *shadow* of each piece that a clocked process writes, in
//!   the same order.
//!
//! # How it is computed
//!
//! - The ranges that a process names are collected by one walk over its statements, sorted by their first places, put together
//!   where they touch, and, for what is read, what is written is taken away. What comes out ascends, with gaps between.
//! - [`drivers`] sorts the ranges of all processes by their first places and sweeps over them with the one that reaches
//!   furthest. The first range that begins below that reach and is of another process begins at the least doubly written bit.
//! - [`cut`] notes the writer of each bit, where there are few enough bits for [`vs_base::limits::WORDS`] words, compares
//!   neighbours, and marks for each item the bits at which some element is cut.
//! - [`words_of`] finds the words that have bits of a range: they stand side by side, since words are in the order of bits.
//!
//! # What is proved
//!
//! `specs/` says what a bit's place is (`Line`), which bits a name with its selects stands for (`Named`), and what expressions,
//! statements and processes read and write (`Reads`, `Writes`, `Bits`), after IEEE 1800-2017 9.2.2.2.1 and 11.5.
//!
//! - [`ranges_read`], [`ranges_written`], [`bits_read`] and [`bits_written`] give just those bits, ascending.
//! - [`drivers`] answers `Ok` only where no two processes write a bit, and its fault names the least bit that two write, and
//!   the first two of them.
//! - [`cut`] gives just the words that `Words` defines. Their pieces stand one behind the other and cover the line, so each bit
//!   of each variable and element is in just one of them; a piece lies in one element, and its bits have one writer or
//!   none; no word has more bits than a word may have. `TooMany` comes only where there are too many.
//! - [`words_of`] gives just the words that have a bit of a range.
//!
//! Only want of memory may come at any time.
//!
//! # Cost
//!
//! What a process names costs its statements and expressions, and n log n for n ranges. [`drivers`] takes n log n for all
//! ranges. [`cut`] takes time and 8 bytes for each bit, at most 4,194,240 of them. [`words_of`] takes the logarithm of
//! the number of words. [`bits_read`] and [`bits_written`] list bit by bit, which no plan needs.
//!
//! ```text
//! y[3:0] = a;  y[6:5] <= a;  y[7] = y[0];        logic [7:0] a, y
//!   a stands at places 0 to 7, y at 8 to 15
//!   writes: 8 to 11 | 13 to 14 | 15              reads: 0 to 7 | 0 to 7 | 8
//!   words: 0 table | 1 a | 2 y[3:0] | 3 y[4] | 4 y[6:5] | 5 y[7] | 6 shadow of y[6:5]
//! ```
#![tactic(auto)]

mod bit;
mod body;
mod cover;
mod expand;
mod fault;
mod item;
mod layout;
mod line;
mod minus;
mod named;
mod normal;
mod owned;
mod pieces;
mod range;
mod reads;
mod sets;
mod shared;
mod writer;
mod writes;

pub use bit::BitRef;
pub use cover::{WordRange, word_places, words_of};
pub use expand::{bits_read, bits_written};
pub use fault::{CutFault, DriverFault};
pub use item::{Item, Part};
pub use layout::{Layout, Word, cut};
pub use line::BitLine;
pub use range::BitRange;
pub use sets::{ranges_read, ranges_written};
pub use shared::drivers;
