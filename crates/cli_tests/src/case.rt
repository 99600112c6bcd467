//! A command over files that stand in memory, and what must come of it.

ghost use Rattle.std.specs.Prelude.{◌≡◌, [], IfOk};
ghost use Rattle.vs_world.specs.InMemory.{memory_of};

use dpi_lib::LibHost;
use run_status::Status;
use std::alloc::{AllocError, Global};
use std::process::Abort;
use std::thread::Threads;
use vs_world::{MemFile, MemWorld, Planned, Stream};
use vsim_cli::vsim;

/// The files are `d.sv`, `e.sv` and `s.txt`. A call moves at most so many bytes, and some calls fail.
#[derive(Clone, Copy)]
pub struct Case<'a> {
    pub title: &'a str,
    pub words: &'a [&'a str],
    pub design: &'a str,
    pub second: &'a str,
    pub stimulus: &'a str,
    pub most: usize,
    pub fails: Option<Planned>,
    pub also: Option<Planned>,
    pub status: Status,
    pub out: &'a str,
    pub errors: &'a str,
    pub calls: &'a str,
    pub vcd: &'a str,
    pub made: &'a [(Stream, &'a str)],
    pub faults: u64,
    pub absent: u64,
}

/// A run of a design on a stimulus that writes to standard output alone.
pub fn run<'a>(title: &'a str, design: &'a str, stimulus: &'a str, out: &'a str) -> Case<'a> {
    Case {
        title,
        words: &["d.sv", "--stim", "s.txt"],
        design,
        second: "",
        stimulus,
        most: 100_000,
        fails: None,
        also: None,
        status: Status::Done,
        out,
        errors: "",
        calls: "",
        vcd: "",
        made: &[],
        faults: 0,
        absent: 0,
    }
}

/// A command that is refused by a line.
pub fn refused<'a>(
    title: &'a str,
    words: &'a [&'a str],
    design: &'a str,
    stimulus: &'a str,
    errors: &'a str,
) -> Case<'a> {
    Case {
        words,
        status: Status::Refused,
        errors,
        ..run(title, design, stimulus, "")
    }
}

fn file(alloc: Global, name: &str, text: &str) -> Result<MemFile, AllocError> {
    Ok(MemFile {
        name: Vec::from_slice(alloc, name.as_bytes())?,
        bytes: Vec::from_slice(alloc, text.as_bytes())?,
    })
}

fn files(alloc: Global, case: &Case<'_>) -> Result<Vec<MemFile>, AllocError> {
    let mut files = Vec::new(alloc);
    files.push(file(alloc, "d.sv", case.design)?)?;
    files.push(file(alloc, "e.sv", case.second)?)?;
    files.push(file(alloc, "s.txt", case.stimulus)?)?;
    Ok(files)
}

// Nothing is created in it yet.
fn world(alloc: Global, case: &Case<'_>) -> Result<MemWorld, AllocError>
    ensures { IfOk result (λ w. (memory_of w).made ≡ []) }
{
    let files = files(alloc, case)?;
    let mut fails = Vec::new(alloc);
    if let Some(planned) = case.fails {
        fails.push(planned)?;
    }
    if let Some(planned) = case.also {
        fails.push(planned)?;
    }
    MemWorld::new(alloc, files, case.most.max(1), 100_000, fails)
}

fn words(alloc: Global, case: &Case<'_>) -> Result<Vec<String>, AllocError> {
    let mut words = Vec::new(alloc);
    for word in case.words {
        words.push(String::from_str(alloc, word)?)?;
    }
    Ok(words)
}

// The streams and the counts are those of the case.
fn compare<R: Abort>(rt: &R, world: &MemWorld, case: &Case<'_>) {
    let title = case.title;
    let texts = [
        (Stream::Out, case.out),
        (Stream::Errors, case.errors),
        (Stream::Calls, case.calls),
        (Stream::Vcd, case.vcd),
    ];
    for (stream, text) in texts {
        assert_eq!(rt; world.bytes_of(stream), text.as_bytes(), "{title}");
    }
    assert_eq!(rt; world.fault_count(), case.faults, "{title}");
    assert_eq!(rt; world.absent_count(), case.absent, "{title}");
}

// The created files are those of the case, in its order.
fn compare_made<R: Abort>(rt: &R, world: &MemWorld, case: &Case<'_>) {
    let title = case.title;
    let mut at = 0;
    for (stream, name) in case.made {
        let made = world.made_at(at);
        assert_eq!(rt; made, Some((*stream, name.as_bytes())), "{title}");
        at += 1;
    }
    assert_eq!(rt; world.made_at(at), None, "{title}");
}

/// Runs the command, and compares all that came of it.
pub fn try_case<R: Abort + Threads + Sync>(
    rt: &R,
    alloc: Global,
    case: &Case<'_>,
) -> Result<(), AllocError> {
    let words = words(alloc, case)?;
    let mut world = world(alloc, case)?;
    let status = vsim(rt, alloc, &words, &mut world, LibHost::new());
    let title = case.title;
    assert_eq!(rt; status, case.status, "{title}");
    compare(rt, &world, case);
    compare_made(rt, &world, case);
    Ok(())
}
