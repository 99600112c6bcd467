//! A run of a compiled model: the texts that it writes, eval by eval.
//!
//! # What comes in and goes out
//!
//! [`run`] takes whatever runs a model (a `Runner`), the model, the acts of a stimulus, the names of the files that are
//! wanted, and a world. It writes a line an eval to standard output, the calls of imports to the call log, and the
//! changes of the variables to the waveform, and answers how many evals were made.
//!
//! # The texts
//!
//! - The *line* of eval k, counted from 0: the number, and for each output, in the order of the ports, a space, its
//!   name, `=` and its value in hexadecimal, with a quarter of its width, rounded up, as its number of digits.
//! - The *calls* of eval k, a line each, in order, but for those of imports that are deemed safe: the number, a space, the
//!   linkage name, `(`, the arguments at their types' widths with `,` between them, `)`, and where the result is not void
//!   ` = ` and the reply.
//! - The *changes*: the header of `vcd_out`, and then of eval k the change from the values before it, at the time k + 1.
//!
//! # The order
//!
//! First all memory of the run is taken: room for the values, and for the longest texts that an eval may have
//! (`specs/Rooms.antt`). From then on nothing takes memory. Then the files that are wanted are created, the call log before
//! the waveform, and the header is written. Then each eval is made, and its line, its calls, where there are any, and its
//! changes are written, in this order and each by one `write_all`, before the next one begins.
//!
//! What is done is a list of *entries*, creations first and then what is written (`specs/Runs.antt`). A run that ends early
//! has done the first of them, and at a fault of the world a part of the next one, and tells how many and how much. An eval
//! that does not converge ends the run before anything of it is written.
//!
//! # Inputs and values
//!
//! A value is kept for each port, and at first it is 0. A set replaces one. Each turn of a clock sets its port to 1 for an
//! eval, and then to 0 for one. After an eval the values of all variables are put together from the words of the model.
//!
//! # What is proved
//!
//! For every runner that keeps the clauses of its trait, every world and all acts that fit the design (`RunEnded` in
//! `specs/Ends.antt`): at `Ok` exactly the entries of the run were done, in order, every eval converged, and the machine of
//! the runner is that after all of them. At `NoMemory` the world is as it was. At `World` the world failed, so many entries
//! were done whole, and exactly so many bytes of the next one, which is on the stream that is told. At `NotConverged(k)` eval
//! k is the first one that does not converge, and exactly the entries before it were done.
//!
//! A model with 2^32 words or more, or with a word of more than 128 bits, is answered as one for which there is no memory;
//! no layout has such words.
//!
//! # Cost
//!
//! An eval takes time in proportion to the ports, the words, the variables and its texts, and no memory. The room is that of
//! the longest texts: for the call log as many times the longest line as an eval can keep calls.
//!
//! ```text
//! module top(input [7:0] a, output [7:0] y);  assign y = a + 1;     set a ff, eval, set a 1, eval
//!
//! Out           Vcd, after its header
//! 0 y=00        #1            #2
//! 1 y=02        b11111111 !   b00000001 !
//!                             b00000010 "
//! ```
#![tactic(auto)]

mod acts;
mod create;
mod eval;
mod fault;
mod hex;
mod line;
mod log;
mod open;
mod piece;
mod rooms;
mod session;
mod texts;
mod values;
mod whole;

pub use fault::SessionFault;
pub use texts::Texts;
pub use whole::run;
