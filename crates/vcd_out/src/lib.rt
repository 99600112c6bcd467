//! The text of a waveform: a value change dump of a flat design (IEEE 1800-2017 21.7).
//!
//! # What comes in and goes out
//!
//! [`header`] gives the text before the first eval: the scopes and variables of a design, and the values that they have
//! then. [`VcdBuf::change`] gives the text of one eval: its time, and a line for each variable whose value differs from
//! the one before. The texts after one another are the file.
//!
//! # The text
//!
//! - A *scope* has a line `$scope module NAME $end`, or `$scope begin NAME $end` where it is a generate block, with the
//!   last segment of its path; then its variables in their order, then the scopes that stand in it, each whole, in
//!   their order, and at last `$upscope $end`. Memories are not written.
//! - A *variable* has a line `$var wire WIDTH CODE NAME [MSB:LSB] $end`, without the range where it has one bit.
//! - The *code* of the variable before which k variables stand in the text is the character 33 + k modulo 94, and where
//!   k is 94 or more the code of k / 94 - 1 after it.
//! - A *value* is its digit and the code, or where it is wider than a bit `b`, all its digits, a space and the code.
//! - A *time* is `#` and a number. The values before the first eval have time 0, and eval K has K + 1, whether anything
//!   changed or not.
//!
//! The order of variables in the text is not always that of the design, whose scopes need only stand after those round
//! them; so [`VcdBuf`] keeps it as a list.
//!
//! # The algorithm
//!
//! From the last place to the first, each scope is put before the scopes that were found in the same one (`Links`), and
//! each variable before the variables of its scope. So there is for each scope the first one in it and the next one
//! beside it. A walk over these with a list of the scopes that have begun gives the lines of the header, and these the
//! order of the variables.
//!
//! # What is proved
//!
//! Both texts are byte for byte those of `specs/Header.antt` and `specs/Changes.antt`, for every design: the lines of
//! scopes are defined by recursion over the list of scopes (`specs/Layout.antt`), codes and digits by recursion on
//! numbers (`specs/Code.antt`, `specs/Values.antt`). A buffer that was made for a design has room for every change of
//! it, so that `change` takes no memory and cannot fail, and is still one for that design afterwards
//! (`specs/Buffer.antt`).
//!
//! # Cost
//!
//! [`header`] and [`VcdBuf::for_design`] take time and memory in proportion to the scopes, the variables and the text
//! of all their values. A change takes time in proportion to the variables and to its text, and no memory. No call
//! recurses.
//!
//! ```text
//! module top(input [7:0] a, output [7:0] y);    a = 255 in eval 0
//!
//! $timescale 1ns $end              $enddefinitions $end        #1
//! $scope module top $end           #0                          b11111111 !
//! $var wire 8 ! a [7:0] $end       $dumpvars
//! $var wire 8 " y [7:0] $end       b00000000 !
//! $upscope $end                    b00000000 "
//!                                  $end
//! ```
#![tactic(auto)]

mod change;
mod fault;
mod head;
mod layout;
mod links;
mod value;

pub use change::VcdBuf;
pub use fault::NoMemory;
pub use head::header;
