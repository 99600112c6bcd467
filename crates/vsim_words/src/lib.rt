//! The words of the command line, and what they set.
//!
//! In come the words after the program's name, `vsim [OPTIONS] FILES..`; out come the [`Options`] of a run, with the
//! defaults filled in, or [`WordsFault::Usage`] where the words set nothing.
//!
//! | Option | Value | Default | What it sets |
//! |---|---|---|---|
//! | `--lint-only` | none | | the design is checked and nothing is written |
//! | `--stim` | FILE | none | the design is run on that stimulus |
//! | `--top-module` | NAME | none | the module at the top |
//! | `--threads` | N, so far 1 alone | 1 | how many threads run the design |
//! | `--threads-dpi` | `all`, `pure`, `none` | `pure` | which imports are taken as safe to call from several threads |
//! | `--calls` | FILE | none | the calls of imports are written to that file |
//! | `--vcd` | FILE | none | the waveform is written to that file |
//!
//! # Terms and algorithm
//!
//! Words are divided by the crate `clap`, which states the meaning of a simple command as a function: the matches of
//! each argument (`matches_of`) and the faults that it has to tell (`fault_of`). The command is simple: an option
//! with a value takes one text, and each option may stand once; FILES is the last argument and takes any number of
//! words. `--x v` and `--x=v` are the same, options and files may be mixed, and after `--` each word is a file.
//! The order of work is `clap`'s parse, then what stands of each argument (`specs/Given.antt`), then the number,
//! the mode and the tests of what else is refused, then the copy of the texts.
//!
//! The words have no settings, and the answer is `Usage`, exactly where
//! - `clap` refuses them, which it also does at `--help`, `-h` and `--version`;
//! - the number is not one to nine decimal digits or is not 1, or the mode is none of the three words;
//! - the name of a file or of the module at the top is empty or is `-`;
//! - not exactly one of `--stim` and `--lint-only` stands;
//! - no file stands, or more than 64;
//! - `--calls` or `--vcd` stands without `--stim`, or both have the same name.
//!
//! # What is proved
//!
//! `settings_of` of `specs/Settings.antt` is the function above on lists of words: at `Ok` the options are the
//! settings of the words, and at `Usage` the words have none, so that words without settings never give options.
//! A third clause says that 1 to 64 files are named. Want of memory is left open. Which words `clap` divides how is what `clap` states of this one command
//! (`specs/Command.antt`); `proofs/Examples.antt` works out some command lines by it.
//!
//! # Cost
//!
//! Linear in the words, with a few look-ups by name for each. Each name is copied once; a refused command copies none.
//!
//! ```text
//! d.sv --stim s.txt                            run d.sv on s.txt, threads 1, threads_dpi Pure
//! --lint-only a.sv b.sv --top-module=top       check a.sv and b.sv, top at the top
//! --stim=s.txt d.sv --calls c.txt --vcd w.vcd  run, and write the calls and the waveform
//! --lint-only -- -x.sv                         check the file -x.sv
//! --stim=-x d.sv                               run on the file -x
//! d.sv                                         Usage: neither a check nor a run
//! d.sv --lint-only --lint-only                 Usage: an option twice
//! d.sv --stim -                                Usage: - is no name
//! d.sv --lint-only --vcd w.vcd                 Usage: a check has no waveform
//! d.sv --stim s --calls l --vcd l              Usage: two texts into one file
//! ```
#![tactic(auto)]

mod command;
mod fault;
mod given;
mod options;
mod refusals;
mod values;
mod words;

pub use fault::WordsFault;
pub use options::{Action, Options};
pub use words::settings;
