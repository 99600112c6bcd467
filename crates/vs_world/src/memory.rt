// A world in memory, whose calls move few bytes at a time and fail where it is planned.
ghost use Rattle.std.specs.Prelude.{◌≡◌, ◌≤◌, ◌<◌, ◌+◌, ◌-◌, ◌++◌, ◌∷◌, [], Some, min, take, drop, length, vec_len, vec_capacity, slice_get, slice_index, IfOk, OnOk, OnErr, IfSome, IsTrue, IsErr, option_copied, find, ◌↔◌};
ghost use Rattle.std.specs.List.{list_any};
ghost use Rattle.std.specs.Option.{option_map};
ghost use Rattle.std.specs.Str.{bytes_eq};
ghost use Rattle.vs_world.specs.Memory.{kind_of, is_for, file_of};

use crate::world::{Fault, Stream, World};
use std::alloc::{AllocError, Global};

/// A file of a `MemWorld`.
#[derive(Drop)]
pub struct MemFile {
    pub name: Vec<u8>,
    pub bytes: Vec<u8>,
}

/// The kinds of calls of a world. The writes to each stream are a kind of their own.
#[derive(Clone, Copy, Debug, PartialEq, Eq)]
pub enum Op {
    Read,
    Create,
    Write(Stream),
}

/// The call number `nth` of that kind, counted from 1, is to fail.
#[derive(Clone, Copy, Debug, PartialEq, Eq)]
pub struct Planned {
    pub op: Op,
    pub nth: u64,
}

// Which streams were created, in order. None is created twice, so two names are all that is ever kept.
#[derive(Clone, Copy)]
pub enum Order {
    Neither,
    OnlyCalls,
    OnlyVcd,
    CallsThenVcd,
    VcdThenCalls,
}

/// A world in memory, which tells all. `new` takes all its memory.
#[derive(Drop)]
pub struct MemWorld {
    files: Vec<MemFile>,
    most: usize,
    room: usize,
    fails: Vec<Planned>,
    asked: [u64; 6],
    out: Vec<u8>,
    errors: Vec<u8>,
    calls: Vec<u8>,
    vcd: Vec<u8>,
    order: Order,
    calls_name: Vec<u8>,
    vcd_name: Vec<u8>,
    faults: u64,
    absent: u64,
    ghost moves: { 1 ≤ most },
    ghost out_fits: { room ≤ vec_capacity out },
    ghost errors_fits: { room ≤ vec_capacity errors },
    ghost calls_fits: { room ≤ vec_capacity calls },
    ghost vcd_fits: { room ≤ vec_capacity vcd },
    ghost calls_name_fits: { room ≤ vec_capacity calls_name },
    ghost vcd_name_fits: { room ≤ vec_capacity vcd_name },
}

fn kind(op: Op) -> usize
    ensures kind { result ≡ kind_of op }
    ensures below { result < 6 }
{
    match op {
        Op::Read => 0,
        Op::Create => 1,
        Op::Write(Stream::Out) => 2,
        Op::Write(Stream::Errors) => 3,
        Op::Write(Stream::Calls) => 4,
        Op::Write(Stream::Vcd) => 5,
    }
}

fn is_for(plan: &Planned, op: Op, asked: u64) -> bool
    ensures { result ≡ is_for op asked plan.now }
{
    kind(plan.op) == kind(op) && u128::from(plan.nth) == u128::from(asked) + 1
}

fn is_planned(fails: &[Planned], op: Op, asked: u64) -> bool
    ensures { result ≡ list_any (is_for op asked) fails.now }
{
    fails.iter().any(|plan| is_for(plan, op, asked))
}

fn find_file<'a>(files: &'a [MemFile], name: &[u8]) -> Option<&'a [u8]>
    ensures { option_copied result ≡ file_of files.now name.now }
{
    match files.iter().find(|f| f.name.as_slice() == name) {
        Some(file) => Some(&file.bytes),
        None => None,
    }
}

// Moves as many bytes to the end of a stream as there is room for.
fn append(stream: &mut Vec<u8>, bytes: &[u8], most: usize, room: usize) -> usize
    requires { room ≤ vec_capacity stream.old }
    ensures size { result ≡ min (min (length bytes.now) most) (room - length stream.old.items) }
    ensures items { stream.new.items ≡ stream.old.items ++ take result bytes.now }
    ensures capacity { vec_capacity stream.old ≤ vec_capacity stream.new }
{
    let n = bytes.len().min(most).min(room.saturating_sub(stream.len()));
    if n > 0 {
        stream.extend_from_slice(&bytes[..n]).unwrap();
    }
    n
}

// The bytes from a place on, as far as there is room for them.
fn copy(bytes: &[u8], at: u64, buf: &mut [u8], most: usize) -> usize
    ensures size { result ≡ min (min (length buf.old) most) (length bytes.now - at) }
    ensures read { take result buf.new ≡ take result (drop at bytes.now) }
{
    if at >= bytes.len() as u64 {
        return 0;
    }
    let from = at as usize;
    let n = buf.len().min(most).min(bytes.len() - from);
    buf[..n].copy_from_slice(&bytes[from..from + n]);
    n
}

// Keeps a name in the room that was taken for it.
fn keep(kept: &mut Vec<u8>, name: &[u8])
    requires { length name.now ≤ vec_capacity kept.old }
    ensures items { kept.new.items ≡ name.now }
    ensures capacity { vec_capacity kept.old ≤ vec_capacity kept.new }
{
    kept.clear();
    kept.extend_from_slice(name).unwrap();
}

impl Order {
    ghost use Rattle.std.specs.Prelude.{◌≡◌, ◌++◌, ◌∷◌, [], ℕ, List};
    ghost use Rattle.vs_world.specs.declared.world.Stream.TheVariants.{Calls, Vcd};
    ghost use Rattle.vs_world.specs.Outside.{IsMade};
    ghost use Rattle.vs_world.specs.InMemory.{made_of};

    fn then_calls(self) -> Order
        ensures { (old name vcd : List ℕ) → ¬ IsMade Calls (made_of self old vcd) → made_of result name vcd ≡ made_of self old vcd ++ (Calls, name) ∷ [] }
    {
        match self {
            Order::Neither => Order::OnlyCalls,
            Order::OnlyVcd => Order::VcdThenCalls,
            other => other,
        }
    }

    fn then_vcd(self) -> Order
        ensures { (calls old name : List ℕ) → ¬ IsMade Vcd (made_of self calls old) → made_of result calls name ≡ made_of self calls old ++ (Vcd, name) ∷ [] }
    {
        match self {
            Order::Neither => Order::OnlyVcd,
            Order::OnlyCalls => Order::CallsThenVcd,
            other => other,
        }
    }
}

impl MemWorld {
    ghost use Rattle.std.specs.Prelude.{◌≡◌, ◌≤◌, IfOk, slice_get, min};
    ghost use Rattle.std.specs.Option.{option_map};
    ghost use Rattle.vs_world.specs.declared.memory.Op.TheVariants.{Write};
    ghost use Rattle.vs_world.specs.Outside.{stream_bytes};
    ghost use Rattle.vs_world.specs.Memory.{fresh, is_planned, called, faulted, missed};
    ghost use Rattle.vs_world.specs.InMemory.{memory_of};

    /// A world with these files, of which of several with one name the first counts, with nothing written or created and both counts 0.
    /// A call moves at most `most` bytes, at least 1. `room` bytes are taken for each stream and for each of the two names, and no later
    /// call takes memory. `AllocError` comes at want of memory.
    pub fn new(
        alloc: Global,
        files: Vec<MemFile>,
        most: usize,
        room: usize,
        fails: Vec<Planned>,
    ) -> Result<MemWorld, AllocError>
        requires { 1 ≤ most }
        ensures { IfOk result (λ w. memory_of w ≡ fresh files.items most room fails.items) }
    {
        Ok(MemWorld {
            files,
            most,
            room,
            fails,
            asked: [0; 6],
            out: Vec::with_capacity(alloc, room)?,
            errors: Vec::with_capacity(alloc, room)?,
            calls: Vec::with_capacity(alloc, room)?,
            vcd: Vec::with_capacity(alloc, room)?,
            order: Order::Neither,
            calls_name: Vec::with_capacity(alloc, room)?,
            vcd_name: Vec::with_capacity(alloc, room)?,
            faults: 0,
            absent: 0,
        })
    }

    /// The bytes written to a stream so far.
    pub fn bytes_of(&self, stream: Stream) -> &[u8]
        ensures { result.now ≡ stream_bytes stream (memory_of self.now).written }
    {
        match stream {
            Stream::Out => &self.out,
            Stream::Errors => &self.errors,
            Stream::Calls => &self.calls,
            Stream::Vcd => &self.vcd,
        }
    }

    /// The created stream number `k`, counted from 0, with its file's name. None exactly where there is no such pair.
    pub fn made_at(&self, k: usize) -> Option<(Stream, &[u8])>
        ensures { option_map (λ pair. (pair.0, pair.1.now)) result ≡ slice_get (memory_of self.now).made k }
    {
        let calls = (Stream::Calls, self.calls_name.as_slice());
        let vcd = (Stream::Vcd, self.vcd_name.as_slice());
        match (self.order, k) {
            (Order::OnlyCalls, 0) | (Order::CallsThenVcd, 0) | (Order::VcdThenCalls, 1) => {
                Some(calls)
            }
            (Order::OnlyVcd, 0) | (Order::VcdThenCalls, 0) | (Order::CallsThenVcd, 1) => Some(vcd),
            _ => None,
        }
    }

    /// How many calls failed, but for missing files.
    pub fn fault_count(&self) -> u64
        ensures { result ≡ (memory_of self.now).faults }
    {
        self.faults
    }

    /// How many reads failed since there was no such file.
    pub fn absent_count(&self) -> u64
        ensures { result ≡ (memory_of self.now).absent }
    {
        self.absent
    }

    // Counts a call, and tells whether it is to fail.
    fn call(&mut self, op: Op) -> bool
        ensures planned { result ≡ is_planned op (memory_of self.old) }
        ensures after { memory_of self.new ≡ called op (memory_of self.old) }
    {
        let kind = kind(op);
        let asked = self.asked[kind];
        self.asked[kind] = asked.saturating_add(1);
        is_planned(&self.fails, op, asked)
    }

    // A failure that is no missing file.
    fn failed(&mut self) -> Fault
        ensures fault { memory_of self.new ≡ faulted (memory_of self.old) }
        ensures later { (memory_of self.old).faults ≤ (memory_of self.new).faults }
    {
        self.faults = self.faults.saturating_add(1);
        Fault
    }

    // A read of a missing file.
    fn missed(&mut self) -> Fault
        ensures missed { memory_of self.new ≡ missed (memory_of self.old) }
        ensures later { (memory_of self.old).absent ≤ (memory_of self.new).absent }
    {
        self.absent = self.absent.saturating_add(1);
        Fault
    }
}

impl World for MemWorld {
    ghost use Rattle.std.specs.Prelude.{◌≡◌, ◌≤◌, ◌<◌, ◌+◌, ◌++◌, ◌∷◌, [], Some, take, length, IfOk, OnOk, OnErr, IfSome, IsTrue, IsErr, ◌↔◌};
    ghost use Rattle.std.specs.Option.{option_map};
    ghost use Rattle.vs_world.specs.Outside.{appended, IsOpen, IsCreatable, Rose, ReadsAt, ReadCause, OnlyReads, OnlyWrites, OnlyCreates};
    ghost use Rattle.vs_world.specs.Memory.{is_read_failing, read_size, after_read, is_write_failing, write_size, after_write, is_create_failing, after_create};
    ghost use Rattle.vs_world.specs.InMemory.{memory_of, told_by};

    ghost told = { λ w. told_by (memory_of w) };

    fn read(&mut self, name: &[u8], at: u64, buf: &mut [u8]) -> Result<usize, Fault>
        requires { 0 < length buf.old }

        // What it answers, and what it leaves.
        ensures fails { IsErr result ↔ IsTrue (is_read_failing name.now (memory_of self.old)) }
        ensures size { IfOk result (λ n. IfSome ((memory_of self.old).files name.now) (λ bytes. n ≡ read_size bytes at (length buf.old) (memory_of self.old))) }
        ensures after { memory_of self.new ≡ after_read name.now (memory_of self.old) }

        // The same as the trait says it.
        ensures bound { IfOk result (λ n. n ≤ length buf.old) }
        ensures bytes { IfOk result (λ n. ReadsAt (memory_of self.old).files name.now at n buf.new) }
        ensures cause { OnErr result (ReadCause name.now (told_by (memory_of self.old)) (told_by (memory_of self.new))) }
        ensures rest { OnlyReads name.now (told_by (memory_of self.old)) (told_by (memory_of self.new)) }
    {
        if self.call(Op::Read) {
            return Err(self.failed());
        }
        match find_file(&self.files, name) {
            Some(bytes) => Ok(copy(bytes, at, buf, self.most)),
            None => Err(self.missed()),
        }
    }

    fn create(&mut self, stream: Stream, name: &[u8]) -> Result<(), Fault>
        requires { IsCreatable (Some (memory_of self.old).made) stream }

        // What it answers, and what it leaves.
        ensures fails { IsErr result ↔ IsTrue (is_create_failing name.now (memory_of self.old)) }
        ensures after { memory_of self.new ≡ after_create stream name.now (memory_of self.old) }

        // The same as the trait says it.
        ensures ok { OnOk result ((memory_of self.new).made ≡ (memory_of self.old).made ++ (stream, name.now) ∷ []) }
        ensures err { OnErr result ((memory_of self.new).made ≡ (memory_of self.old).made) }
        ensures cause { OnErr result (Rose (memory_of self.old).faults (memory_of self.new).faults) }
        ensures rest { OnlyCreates (told_by (memory_of self.old)) (told_by (memory_of self.new)) }
    {
        if self.call(Op::Create) || name.len() > self.room {
            return Err(self.failed());
        }
        match stream {
            Stream::Calls => {
                keep(&mut self.calls_name, name);
                self.order = self.order.then_calls();
            }
            Stream::Vcd => {
                keep(&mut self.vcd_name, name);
                self.order = self.order.then_vcd();
            }
            _ => unreachable!(),
        }
        Ok(())
    }

    fn write(&mut self, stream: Stream, bytes: &[u8]) -> Result<usize, Fault>
        requires some { 0 < length bytes.now }
        requires open { IsOpen (Some (memory_of self.old).made) stream }

        // What it answers, and what it leaves.
        ensures fails { IsErr result ↔ IsTrue (is_write_failing stream (memory_of self.old)) }
        ensures size { IfOk result (λ n. n ≡ write_size stream (length bytes.now) (memory_of self.old)) }
        ensures after { memory_of self.new ≡ after_write stream bytes.now (memory_of self.old) }

        // The same as the trait says it.
        ensures bound { IfOk result (λ n. (1 ≤ n) × (n ≤ length bytes.now)) }
        ensures ok { IfOk result (λ n. (memory_of self.new).written ≡ appended stream (take n bytes.now) (memory_of self.old).written) }
        ensures err { OnErr result ((memory_of self.new).written ≡ (memory_of self.old).written) }
        ensures cause { OnErr result (Rose (memory_of self.old).faults (memory_of self.new).faults) }
        ensures rest { OnlyWrites (told_by (memory_of self.old)) (told_by (memory_of self.new)) }
    {
        if self.call(Op::Write(stream)) {
            return Err(self.failed());
        }
        let n = match stream {
            Stream::Out => append(&mut self.out, bytes, self.most, self.room),
            Stream::Errors => append(&mut self.errors, bytes, self.most, self.room),
            Stream::Calls => append(&mut self.calls, bytes, self.most, self.room),
            Stream::Vcd => append(&mut self.vcd, bytes, self.most, self.room),
        };
        if n == 0 {
            return Err(self.failed());
        }
        Ok(n)
    }
}
