// The trusted edge: real files and streams, of which nothing is told but the two counts.
ghost use Rattle.std.specs.Prelude.{◌≡◌, ◌≤◌, ◌<◌, ◌+◌, ◌-◌, ◌^◌, None, min, length, IfSome};

use crate::world::{Fault, Stream, World};
use std::io::{Read, Seek, SeekFrom, Write};
use std::rt::Files;
use std::{fs, str};

/// The files of a file system and two writers, as a program's `main` hands them in. A name that is no UTF-8 text names no file.
/// Each read opens its file anew, so nothing is held open between calls but what was created.
#[derive(Drop)]
pub struct RealWorld<R: Files, O: Write, E: Write> {
    files: R,
    out: O,
    errors: E,
    calls: Option<R::File>,
    vcd: Option<R::File>,
    faults: u64,
    absent: u64,
}

// A write that takes nothing is a fault of what is written to.
fn moved<W: Write>(writer: &mut W, bytes: &[u8]) -> Option<usize>
    requires { 0 < length bytes.now }
    ensures { IfSome result (λ n. (1 ≤ n) × (n ≤ length bytes.now)) }
{
    match writer.write(bytes) {
        Ok(0) => None,
        Ok(n) => Some(n),
        Err(_) => None,
    }
}

fn opened<R: Files>(files: &R, name: &[u8]) -> Option<R::File> {
    let name = str::from_utf8(name).ok()?;
    fs::open(files, name).ok()
}

fn created<R: Files>(files: &R, name: &[u8]) -> Option<R::File> {
    let name = str::from_utf8(name).ok()?;
    fs::create(files, name).ok()
}

fn read_at<F: Read + Seek>(file: &mut F, at: u64, buf: &mut [u8]) -> Option<usize>
    ensures { IfSome result (λ n. n ≤ length buf.old) }
{
    file.seek(SeekFrom::Start(at)).ok()?;
    file.read(buf).ok()
}

impl<R: Files, O: Write, E: Write> RealWorld<R, O, E> {
    /// Nothing is created yet, and both counts are 0.
    pub fn new(files: R, out: O, errors: E) -> RealWorld<R, O, E>
        ensures faults { (⟦<RealWorld<R, O, E> as World>⟧.told result).faults ≡ 0 }
        ensures absent { (⟦<RealWorld<R, O, E> as World>⟧.told result).absent ≡ 0 }
    {
        RealWorld {
            files,
            out,
            errors,
            calls: None,
            vcd: None,
            faults: 0,
            absent: 0,
        }
    }

    /// How many calls failed, but for files that could not be opened for reading.
    pub fn fault_count(&self) -> u64
        ensures { result ≡ (⟦<RealWorld<R, O, E> as World>⟧.told self.now).faults }
    {
        self.faults
    }

    /// How many reads failed since the file could not be opened for reading.
    pub fn absent_count(&self) -> u64
        ensures { result ≡ (⟦<RealWorld<R, O, E> as World>⟧.told self.now).absent }
    {
        self.absent
    }

    // A failure that is no missing file.
    fn failed(&mut self) -> Fault
        ensures later { self.old.faults ≤ self.new.faults }
        ensures fault { self.new ≡ record self.old { faults = min (self.old.faults + 1) (2 ^ 64 - 1) } }
    {
        self.faults = self.faults.saturating_add(1);
        Fault
    }
}

impl<R: Files, O: Write, E: Write> World for RealWorld<R, O, E> {
    ghost told = { λ w. record { files = None; written = None; made = None; faults = w.faults; absent = w.absent } };

    fn read(&mut self, name: &[u8], at: u64, buf: &mut [u8]) -> Result<usize, Fault> {
        let Some(mut file) = opened(&self.files, name) else {
            self.absent = self.absent.saturating_add(1);
            return Err(Fault);
        };
        match read_at(&mut file, at, buf) {
            Some(n) => Ok(n),
            None => Err(self.failed()),
        }
    }

    fn create(&mut self, stream: Stream, name: &[u8]) -> Result<(), Fault> {
        match created(&self.files, name) {
            Some(file) => {
                match stream {
                    Stream::Calls => self.calls = Some(file),
                    _ => self.vcd = Some(file),
                }
                Ok(())
            }
            None => Err(self.failed()),
        }
    }

    fn write(&mut self, stream: Stream, bytes: &[u8]) -> Result<usize, Fault> {
        let moved = match stream {
            Stream::Out => moved(&mut self.out, bytes),
            Stream::Errors => moved(&mut self.errors, bytes),
            Stream::Calls => match &mut self.calls {
                Some(file) => moved(file, bytes),
                None => None,
            },
            Stream::Vcd => match &mut self.vcd {
                Some(file) => moved(file, bytes),
                None => None,
            },
        };
        match moved {
            Some(n) => Ok(n),
            None => Err(self.failed()),
        }
    }
}
