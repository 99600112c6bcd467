//! The texts of all faults, and the refusals by them.
//!
//! A command that is refused writes one line on standard error: `vsim: `, the text of the fault and a line feed. This crate
//! is the one place that turns a fault into its text. What comes in is a world, the names of the files of the command and
//! a fault of a stage: of the words, of a file's length, of lexing, preprocessing, numbers and parsing, of the design, of
//! the model, of the stimulus or of an eval. What goes out is the status with which the command ends ([`Status`](run_status::Status)).
//!
//! A place is written `FILE:LINE:COL`; it has the number of its file among the names. A fault of the model comes in
//! parts (the name of a bit, places, the name of an import), so that this crate does not stand on the one that builds it.
//! Want of memory, which is a fault of most stages, is no refusal: its line is `out of memory` and its status `NoMemory`.
//! Nor is a file that cannot be read: its line is `cannot read FILE` and its status `WorldFault`.
//!
//! `specs/FaultText.antt` has the text of every fault, in the order of docs/FORMATS.md, and
//! `specs/Endings.antt` says which fault is a refusal by it. Proved is that each call writes exactly that line on standard
//! error and nothing else, or a front of it where writing failed, which the status says.
//!
//! Cost: linear in the line, without memory.
//!
//! ```text
//! refuse_lexing(world, files, LexFault::BadChar(at))       // vsim: d.sv:1:9: bad character
//! refuse_design(world, files, names, DesignFault::NoTop)   // vsim: no top module
//! refuse_drivers(world, files, b"top.y[0]", one, two)      // vsim: two drivers of top.y[0]: d.sv:1:45 d.sv:1:62
//! refuse_stimulus(world, StimFault::BadLine(3))            // vsim: stimulus line 3: bad line
//! refuse_eval(world, 12)                                   // vsim: eval 12: not converged
//! ```
#![tactic(auto)]

mod refusal;

pub use refusal::{
    refuse_design, refuse_drivers, refuse_eval, refuse_lexing, refuse_loop,
    refuse_not_by_arguments, refuse_number, refuse_parsing, refuse_preprocessing, refuse_reading,
    refuse_stimulus, refuse_too_many, refuse_unknown_import, refuse_words,
};
