//! Reads a stimulus: what is set, when the design is evaluated, and how often it is clocked.
//!
//! In come the bytes of a stimulus and a flat design; out comes the list of its acts, in their order, or the first
//! faulty line with the first of its faults. A stimulus is text in lines. A line ends at a line feed, and the last
//! one may lack it; one carriage return right before a line feed is dropped. The words of a line are separated by
//! spaces and tabs. A line without words does nothing, nor does one whose first word begins with `#`. The others
//! are acts:
//!
//! | Act | What it does |
//! |---|---|
//! | `set NAME HEX` | gives the input `NAME` a value: 1 to 32 hexadecimal digits of either case, below 2^width |
//! | `eval` | evaluates the design |
//! | `clock NAME N` | N times sets the input `NAME` to 1, evaluates, sets it to 0 and evaluates: 1 to 7 decimal digits |
//!
//! A line may have one of four faults, looked for in this order: it is no act (`BadLine`), no input has its name
//! (`UnknownInput`), its value is not below 2^width (`ValueTooWide`), or with it the stimulus has more than
//! 1,000,000 evals (`TooManyEvals`). A `clock` of 0 turns does nothing, but has to name an input; one of an input of
//! several bits sets it to 1 and to 0. A `clock` counts as two evals a turn.
//!
//! # What is proved
//!
//! What a stimulus says is defined on its text alone, over a list of ports with names, widths and directions:
//! `stim_acts` (`specs/Stimulus.antt`, over the lines, words and numbers of `specs/StimulusText.antt`).
//! [`read_stim`] answers exactly that, or `NoMemory`. Beside it its clauses say that each act fits the design
//! (`act_fits`: a set is of an input, with a value of its width; a clock is of an input), and that there are at most
//! 1,000,000 evals. `specs/StimulusLaws.antt` proves this of the definition.
//!
//! # Algorithm and cost
//!
//! The names of the inputs go into a hash table once. Then each line is cut off, cut into words and looked up. Time
//! is linear in the bytes and the ports, with one look-up for each act that names an input; no line takes memory but
//! for its act.
//!
//! ```text
//! module top(input clk, input [7:0] a, output [7:0] y);     ports: clk at place 0, a at 1, y at 2
//!
//! # as wide as it goes
//! set a Fe                                          Set { port: 1, value: 8'hfe }
//! eval                                              Eval
//! clock clk 3                                       Clock { port: 0, turns: 3 }
//! set y 1                                           UnknownInput(5), for line 5
//! ```
#![tactic(auto)]

mod acts;
mod fault;
mod inputs;
mod number;
mod words;

pub use acts::read_stim;
pub use fault::StimFault;
