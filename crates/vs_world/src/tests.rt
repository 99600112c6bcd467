// Worked cases of both worlds, by what the trait and the two types promise.
ghost use Rattle.std.specs.Prelude.{◌≡◌, ◌≤◌, [], IfOk};
ghost use Rattle.vs_world.specs.InMemory.{memory_of};

use crate::memory::{MemFile, MemWorld, Op, Planned};
use crate::real::RealWorld;
use crate::whole::{ReadFault, read_all, write_all};
use crate::world::{Fault, Stream, World};
use std::alloc::{AllocError, Global};
use std::test::Fail;
use std::{env, fs};

fn file(alloc: Global, name: &[u8], bytes: &[u8]) -> Result<MemFile, AllocError> {
    let name = Vec::from_slice(alloc, name)?;
    let bytes = Vec::from_slice(alloc, bytes)?;
    Ok(MemFile { name, bytes })
}

// Two files of one name, and an empty one.
fn files(alloc: Global) -> Result<Vec<MemFile>, AllocError> {
    let mut files = Vec::new(alloc);
    files.push(file(alloc, b"a.sv", b"one")?)?;
    files.push(file(alloc, b"a.sv", b"other")?)?;
    files.push(file(alloc, b"empty", b"")?)?;
    Ok(files)
}

fn world(alloc: Global, most: usize, room: usize, fails: &[Planned]) -> Result<MemWorld, AllocError>
    requires { 1 ≤ most }
    ensures { IfOk result (λ w. (memory_of w).made ≡ []) }
{
    MemWorld::new(
        alloc,
        files(alloc)?,
        most,
        room,
        Vec::from_slice(alloc, fails)?,
    )
}

// Reads a file by calls of each size, of which the first file of that name counts.
#[test]
fn reads_files_whole(rt: HostRuntime) -> Result<(), Fail> {
    let cases: [(&[u8], u64, Option<&[u8]>); 4] = [
        (b"a.sv", 3, Some(b"one")),
        (b"a.sv", 2, None),
        (b"empty", 0, Some(b"")),
        (b"b.sv", 9, None),
    ];
    for (name, limit, want) in cases {
        let mut world = world(rt.alloc(), 2, 10, &[])?;
        let text = read_all(rt.alloc(), &mut world, name, limit).ok();
        assert_eq!(rt; text.as_ref().map(|v| v.as_slice()), want, "at {limit}");
    }
    Ok(())
}

#[test]
fn tells_why_a_read_fails(rt: HostRuntime) -> Result<(), Fail> {
    let fails = [Planned {
        op: Op::Read,
        nth: 2,
    }];
    let mut world = world(rt.alloc(), 1, 10, &fails)?;
    // The second byte is not read, and a missing file is counted apart.
    for (name, limit, want, counts) in [
        (b"a.sv", 9, ReadFault::World, (1, 0)),
        (b"b.sv", 9, ReadFault::World, (1, 1)),
        (b"a.sv", 2, ReadFault::TooLong, (1, 1)),
    ] {
        let fault = read_all(rt.alloc(), &mut world, name, limit).err();
        assert_eq!(rt; fault, Some(want));
        assert_eq!(rt; (world.fault_count(), world.absent_count()), counts);
    }
    Ok(())
}

#[test]
fn fails_where_it_is_planned(rt: HostRuntime) -> Result<(), Fail> {
    let fails = [
        Planned {
            op: Op::Create,
            nth: 1,
        },
        Planned {
            op: Op::Write(Stream::Out),
            nth: 2,
        },
        Planned {
            op: Op::Write(Stream::Errors),
            nth: 3,
        },
    ];
    let mut world = world(rt.alloc(), 1, 10, &fails)?;
    assert_eq!(rt; write_all(&mut world, Stream::Out, b"abc"), Err(1));
    assert_eq!(rt; write_all(&mut world, Stream::Errors, b"xyz"), Err(2));
    assert_eq!(rt; world.create(Stream::Vcd, b"wave"), Err(Fault));
    assert_eq!(rt; world.bytes_of(Stream::Errors), b"xy".as_slice());
    assert_eq!(rt; (world.fault_count(), world.absent_count()), (3, 0));
    Ok(())
}

#[test]
fn keeps_to_its_room(rt: HostRuntime) -> Result<(), Fail> {
    let mut world = world(rt.alloc(), 3, 4, &[])?;
    assert_eq!(rt; write_all(&mut world, Stream::Out, b"abcdef"), Err(4));
    assert_eq!(rt; world.create(Stream::Vcd, b"waves"), Err(Fault));
    assert_eq!(rt; world.bytes_of(Stream::Out), b"abcd".as_slice());
    assert_eq!(rt; world.fault_count(), 2);
    Ok(())
}

#[test]
fn tells_what_was_created(rt: HostRuntime) -> Result<(), Fail> {
    let mut world = world(rt.alloc(), 3, 4, &[])?;
    world.create(Stream::Vcd, b"wave")?;
    world.create(Stream::Calls, b"log")?;
    assert_eq!(rt; world.made_at(0), Some((Stream::Vcd, b"wave".as_slice())));
    assert_eq!(rt; world.made_at(1), Some((Stream::Calls, b"log".as_slice())));
    assert_eq!(rt; world.made_at(2), None);
    Ok(())
}

const LINES: u32 = 9000;

// Writes a file of more bytes than one read moves, and reads it back.
#[test]
fn reaches_real_files(rt: HostRuntime) -> Result<(), Fail> {
    let path = env::temp_dir(&rt)?.join(rt.alloc(), "vs_world_real_test")?;
    let name = path.as_str().as_bytes();
    let mut text = Vec::new(rt.alloc());
    for line in 0..LINES {
        text.extend_from_slice(format!(in rt.alloc(); "{line:09}\n")?.as_bytes())?;
    }
    let mut world = RealWorld::new(rt.clone()?, rt.stdout(), rt.stderr());
    world.create(Stream::Vcd, name)?;
    assert_eq!(rt; write_all(&mut world, Stream::Vcd, &text), Ok(()));
    assert_eq!(rt;
        read_all(rt.alloc(), &mut world, name, 90_000)?.as_slice(),
        text.as_slice()
    );
    assert_eq!(rt;
        read_all(rt.alloc(), &mut world, name, 89_999).err(),
        Some(ReadFault::TooLong)
    );
    fs::remove_file(&rt, path.as_str())?;
    Ok(())
}

// A file that does not open is absent; a folder opens and is no file to read; what was never created takes nothing.
#[test]
fn counts_real_failures(rt: HostRuntime) -> Result<(), Fail> {
    let mut world = RealWorld::new(rt.clone()?, rt.stdout(), rt.stderr());
    let missing = read_all(rt.alloc(), &mut world, b"no/such/file", 9).err();
    assert_eq!(rt; missing, Some(ReadFault::World));
    assert_eq!(rt; (world.fault_count(), world.absent_count()), (0, 1));
    assert_eq!(rt;
        read_all(rt.alloc(), &mut world, b"/", 9).err(),
        Some(ReadFault::World)
    );
    assert_eq!(rt; write_all(&mut world, Stream::Calls, b"x"), Err(0));
    assert_eq!(rt; (world.fault_count(), world.absent_count()), (2, 1));
    Ok(())
}
