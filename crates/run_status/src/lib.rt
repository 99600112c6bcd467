//! How a command ends: its status, its one line on standard error, and what both say of the streams.
//!
//! A command has one of four statuses ([`Status`]). Where it does not end well it tries one line on standard error,
//! `vsim: ` and a text, by the calls of this crate; they write in pieces and take no memory.
//!
//! `specs/Answer.antt` holds the table of statuses. An answer is a refusal by a line; a named file that is not there; the
//! entries of a run (`vs_world`); or entries and then a line, where a run stops. `Table` says that some allowed answer is
//! what the status tells of the world: at `Done` all entries were done; at `Refused` those before the refusal, none but where
//! a run stops, and then its line; at `WorldFault` those before the entry at which the world failed, of this one so many
//! bytes, and then the line that tells it, or a front of it; at `NoMemory` nothing but the line. Nothing else was written or
//! created. Which answers are allowed for which words and files is no matter of this crate. `specs/Stages.antt` says how far
//! a command came before its line, and the laws beside it lead from there to the table.
//!
//! ```text
//! refuse(world, b"d.sv", b": longer than 4194304 bytes")    // vsim: d.sv: longer than 4194304 bytes    Refused, or WorldFault
//! refuse_at(world, b"d.sv", at, b"unknown macro ", b"W")    // vsim: d.sv:1:9: unknown macro W
//! refuse_listed(world, files, b"loop of ", b"2", places)     // vsim: loop of 2: d.sv:1:33 d.sv:1:47
//! cannot_read(world, b"none.sv")                // vsim: cannot read none.sv    WorldFault
//! cannot_write(world, Stream::Vcd)              // vsim: cannot write vcd    WorldFault
//! ```
#![tactic(auto)]

mod line;
mod status;

pub use line::{
    cannot_create, cannot_read, cannot_write, file_name, out_of_memory, refuse, refuse_about,
    refuse_at, refuse_listed,
};
pub use status::Status;
