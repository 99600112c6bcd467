//! The command `vsim`: words, a world and a host in, a status out.
//!
//! # What comes in, what goes out
//!
//! [`vsim`] takes the words after the program's name (`vsim_words`), a world with files and streams (`vs_world`), and the
//! host whose imports a design may call (`dpi_host`). It checks the design in the named files and, where a stimulus is
//! named, runs it. It answers one of four statuses (`run_status`).
//!
//! # The stages
//!
//! `top` reads as the list of the stages, which is the one order of work and of refusals. Each stage gives its value or a
//! [`Refusal`](refusal::Refusal). The first refusal ends the command: `refuse` writes its one line on standard error.
//! Where that is not the run's, nothing else was written and no file created.
//!
//! | Stage | Module | Crate |
//! |---|---|---|
//! | the words have settings | `top`, `command` | `vsim_words` |
//! | the files are read, those of the design and then the stimulus | `inputs` | `run_input` |
//! | the bytes of each file are cut into tokens; the active tokens of all files | `lexing`, `front` | `sv_lex`, `sv_pp` |
//! | numbers; what is outside the subset; syntax and depth | `front` | `sv_lex`, `sv_parse` |
//! | the design is laid out from its top module | `front` | `sv_elab` |
//! | the flat design, and its model | `model` | `rtl_flat`, `model_build` |
//! | the stimulus | `model` | `stimulus` |
//! | the run, eval by eval | `model` | `plain_runner`, `sim_session` |
//!
//! A check (`--lint-only`) ends where the model stands. So a design is checked for all that may be refused of it, and
//! nothing is written.
//!
//! # What is proved
//!
//! The contract of [`vsim`] is the table of `run_status` over the answers that the words, the files and the host allow
//! (`specs/Answers.antt`): a refusal by the line of a fault; a named file that is not there; or the entries of the run, which
//! are those of the session (`sim_session`) on the model that was built, from its opening on that host, up to an eval that
//! does not converge, where there is one. Words without settings are refused as usage whatever the world tells.
//! `specs/Front.antt` and `specs/Model.antt` say of each stage what it hands on and for what it refuses, and
//! `specs/Refusals.antt` which line tells each refusal. `specs/CheckLaws.antt` shows that each command line has an answer.
//!
//! Which of several faults of a design comes is said only as far as `sv_elab` says it. That the flat design means what
//! its source does is not said here.
//!
//! # Cost
//!
//! The sum of the stages, which is linear in the bytes, the tokens that are read and the terms that are laid down, but for the
//! settle order of large designs (`order_levels`). The files' bytes, the names and the tree live until the end. A line on
//! standard error takes no memory.
//!
//! ```text
//! vsim fifo.sv --stim fifo.stim --vcd fifo.vcd     // a line an eval on standard output, status 0
//! vsim --lint-only fifo.sv                         // nothing, status 0
//! vsim --lint-only broken.sv                       // vsim: broken.sv:4:3: syntax error, status 1
//! ```
#![tactic(auto)]

mod command;
mod front;
mod inputs;
mod lexing;
mod model;
mod refusal;
mod top;

pub use top::vsim;
