//! The tables that a runner makes when it is opened, so that an eval looks nothing up by search.
//!
//! # What stands in it
//!
//! A model (`plan_types`) tells where things are by its lists of words, ports, processes and imports. Its definitions search these
//! lists: the first word with bits of a variable, the input of a variable, how many clocked processes stand before one. Here each
//! such search is made once, for all variables, words or nodes together:
//!
//! - [`input_words`]: the words with bits of an input port, with the place of the input among the input ports and the bits;
//! - [`event_words`]: the first word with bits of each variable;
//! - [`node_codes`]: the number of each node's code;
//! - [`result_widths`]: the width of each import's result;
//! - [`opening_words`]: the words before the first eval.
//!
//! [`call_room`] counts how many calls an eval can keep, so that a runner takes their place when it is opened.
//!
//! [`part`] and [`cut`] take bits of a value as a word.
//!
//! # What is proved
//!
//! Each table is exactly the list of the definitions, or has at each variable what they say of it. The room is that of the definition, up
//! to what 64 bits hold.
//!
//! # Cost
//!
//! Each table takes time and memory linear in the lists that it is made of: one pass over the words, the ports or the processes. The
//! room takes one pass over the ops of each node.
//!
//! ```text
//! words   0 table | 1 a[3:0] | 2 a[7:4] | 3 clk | 4 shadow      ports  clk, a are inputs
//! input_words   (1, input 1, bits 0 to 3) (2, input 1, bits 4 to 7) (3, input 0, bit 0)
//! event_words   a: 1, clk: 3
//! ```
#![tactic(auto)]

mod codes;
mod events;
mod inputs;
mod list;
mod opening;
mod room;
mod slice;
mod widths;

pub use codes::node_codes;
pub use events::event_words;
pub use inputs::input_words;
pub use list::set_at;
pub use opening::opening_words;
pub use room::call_room;
pub use slice::{cut, part};
pub use widths::result_widths;
