//! The program `vsim`: hands the words, the real world and the import library to the command, and ends with its
//! status.
//!
//! A standard stream may be closed when the program starts, and the next file that is opened then gets the stream's number:
//! what is written to the stream would stand in that file. So first a file is opened for reading three times, and kept open.
//! A closed stream then has one of these, and a write to it fails.
#![tactic(auto)]

use dpi_lib::LibHost;
use run_status::{Status, out_of_memory};
use std::io::ErrorKind;
use std::process::ExitCode;
use std::rt::Env;
use std::{env, fs, io};
use vs_world::RealWorld;
use vsim_cli::vsim;

// The words after the program's name. One that is no text in UTF-8 is `InvalidData`.
fn words<R: Env + AllocGlobal>(rt: &R) -> io::Result<Vec<String>> {
    let mut words = Vec::new(rt.alloc());
    for word in env::args(rt)?.skip(1) {
        words.push(word)?;
    }
    Ok(words)
}

// A file that can be read and takes no byte when it is open for reading.
const NOTHING: &str = "/dev/null";

fn main(rt: HostRuntime) -> ExitCode {
    let _kept = [
        fs::open(&rt, NOTHING),
        fs::open(&rt, NOTHING),
        fs::open(&rt, NOTHING),
    ];
    let Ok(files) = rt.clone() else {
        return ExitCode::from(Status::NoMemory.code());
    };
    let mut world = RealWorld::new(files, rt.stdout(), rt.stderr());
    let status = match words(&rt) {
        Ok(words) => vsim(&rt, rt.alloc(), &words, &mut world, LibHost::new()),
        Err(fault) => match fault.kind() {
            ErrorKind::OutOfMemory => out_of_memory(&mut world),
            _ => vsim(&rt, rt.alloc(), &[], &mut world, LibHost::new()),
        },
    };
    ExitCode::from(status.code())
}
