// The one line on standard error.
ghost use Rattle.std.specs.Prelude.{◌≡◌, ◌≤◌, ◌++◌, [], get_or, codes, decimal, OnOk, OnErr};
ghost use Rattle.std.specs.Option.{option_map};
ghost use Rattle.vs_world.specs.Outside.{appended, IsOpen, Rose, OnlyWrites};
ghost use Rattle.vs_world.specs.Entries.{Did};
ghost use Rattle.vs_world.specs.declared.world.Stream.TheVariants.{Errors as ErrorStream};
ghost use Rattle.run_status.specs.Written.{Said, joined};
ghost use Rattle.run_status.specs.Answer.{error_line, on_errors, CutShort, Refuses, Failing, Wanting, EndsBy};
ghost use Rattle.run_status.specs.Lines.{stream_name, not_read, not_created, not_written, placed_text, listed_place, listed_places, listed_text};

use crate::status::Status;
use itoa::Buffer;
use vs_base::{Origin, Text};
use vs_world::{Stream, World, write_all};

const START: &[u8] = b"vsim: ";

const END: &[u8] = b"\n";

const COLON: &[u8] = b":";

const BLANK: &[u8] = b" ";

// Writes pieces one after another.
fn write_pieces<W: World>(world: &mut W, stream: Stream, pieces: &[&[u8]]) -> Result<(), ()>
    requires { IsOpen (W.told world.old).made stream }
    ensures ok { OnOk result ((W.told world.new).written ≡ option_map (appended stream (joined pieces.now)) (W.told world.old).written) }
    ensures err { OnErr result (Said stream (joined pieces.now) (W.told world.old) (W.told world.new)) }
    ensures cause { OnErr result (Rose (W.told world.old).faults (W.told world.new).faults) }
    ensures rest { OnlyWrites (W.told world.old) (W.told world.new) }
{
    for piece in pieces {
        match write_all(world, stream, piece) {
            Ok(()) => {}
            Err(_) => return Err(()),
        }
    }
    Ok(())
}

// Writes one line on standard error, or as much of it as the world takes; says whether it is whole.
fn tell<W: World>(world: &mut W, start: &[u8], end: &[u8]) -> Result<(), ()>
    ensures ok { OnOk result (Did (on_errors (error_line (start.now ++ end.now))) (W.told world.old) (W.told world.new)) }
    ensures err { OnErr result (CutShort (start.now ++ end.now) (W.told world.old) (W.told world.new)) }
{
    match write_pieces(world, Stream::Errors, &[START, start, end, END]) {
        Ok(()) => Ok(()),
        Err(()) => Err(()),
    }
}

/// Refuses a command by the line `vsim: `, these two texts and a line feed on standard error.
///
/// Gives `Refused` where the line is whole, and `WorldFault` where the write failed.
pub fn refuse<W: World>(world: &mut W, start: &[u8], end: &[u8]) -> Status
    ensures told { Refuses result (start.now ++ end.now) (W.told world.old) (W.told world.new) }
{
    match tell(world, start, end) {
        Ok(()) => Status::Refused,
        Err(()) => Status::WorldFault,
    }
}

// Writes one line with a name in it on standard error, or as much of it as the world takes; says whether it is whole.
fn tell_about<W: World>(world: &mut W, start: &[u8], name: &[u8], end: &[u8]) -> Result<(), ()>
    ensures ok { OnOk result (Did (on_errors (error_line (start.now ++ name.now ++ end.now))) (W.told world.old) (W.told world.new)) }
    ensures err { OnErr result (CutShort (start.now ++ name.now ++ end.now) (W.told world.old) (W.told world.new)) }
{
    match write_pieces(world, Stream::Errors, &[START, start, name, end, END]) {
        Ok(()) => Ok(()),
        Err(()) => Err(()),
    }
}

/// Refuses a command by the line `vsim: `, these three texts and a line feed on standard error.
///
/// Gives `Refused` where the line is whole, and `WorldFault` where the write failed.
pub fn refuse_about<W: World>(world: &mut W, start: &[u8], name: &[u8], end: &[u8]) -> Status
    ensures told { Refuses result (start.now ++ name.now ++ end.now) (W.told world.old) (W.told world.new) }
{
    match tell_about(world, start, name, end) {
        Ok(()) => Status::Refused,
        Err(()) => Status::WorldFault,
    }
}

// Writes one line with a place on standard error, or as much of it as the world takes; says whether it is whole.
fn tell_at<W: World>(
    world: &mut W,
    file: &[u8],
    line: &[u8],
    col: &[u8],
    start: &[u8],
    end: &[u8],
) -> Result<(), ()>
    ensures ok { OnOk result (Did (on_errors (error_line (placed_text file.now line.now col.now (start.now ++ end.now)))) (W.told world.old) (W.told world.new)) }
    ensures err { OnErr result (CutShort (placed_text file.now line.now col.now (start.now ++ end.now)) (W.told world.old) (W.told world.new)) }
{
    let pieces = [
        START, file, COLON, line, COLON, col, COLON, BLANK, start, end, END,
    ];
    match write_pieces(world, Stream::Errors, &pieces) {
        Ok(()) => Ok(()),
        Err(()) => Err(()),
    }
}

/// Refuses a command by the line `vsim: FILE:LINE:COL: `, these two texts and a line feed on standard error, line and
/// column in decimal.
///
/// Gives `Refused` where the line is whole, and `WorldFault` where the write failed.
pub fn refuse_at<W: World>(
    world: &mut W,
    file: &[u8],
    at: Origin,
    start: &[u8],
    end: &[u8],
) -> Status
    ensures told { Refuses result (placed_text file.now (decimal at.line) (decimal at.col) (start.now ++ end.now)) (W.told world.old) (W.told world.new) }
{
    let mut line = Buffer::new();
    let mut col = Buffer::new();
    let line = line.format(at.line).as_bytes();
    let col = col.format(at.col).as_bytes();
    match tell_at(world, file, line, col, start, end) {
        Ok(()) => Status::Refused,
        Err(()) => Status::WorldFault,
    }
}

/// The name of the file of this number, empty where there is none.
pub fn file_name(files: &[Text], number: usize) -> &[u8]
    ensures { result.now ≡ get_or files.now number [] }
{
    match files.get(number) {
        Some(name) => name.as_bytes(),
        None => &[],
    }
}

// Writes a place with a blank before it.
fn write_place<W: World>(world: &mut W, file: &[u8], at: Origin) -> Result<(), ()>
    ensures ok { OnOk result ((W.told world.new).written ≡ option_map (appended ErrorStream (listed_place file.now at)) (W.told world.old).written) }
    ensures err { OnErr result (Said ErrorStream (listed_place file.now at) (W.told world.old) (W.told world.new)) }
    ensures cause { OnErr result (Rose (W.told world.old).faults (W.told world.new).faults) }
    ensures rest { OnlyWrites (W.told world.old) (W.told world.new) }
{
    let mut line = Buffer::new();
    let mut col = Buffer::new();
    let line = line.format(at.line).as_bytes();
    let col = col.format(at.col).as_bytes();
    let pieces = [BLANK, file, COLON, line, COLON, col];
    match write_pieces(world, Stream::Errors, &pieces) {
        Ok(()) => Ok(()),
        Err(()) => Err(()),
    }
}

// Writes places, a blank before each.
fn write_places<W: World>(world: &mut W, files: &[Text], places: &[Origin]) -> Result<(), ()>
    ensures ok { OnOk result ((W.told world.new).written ≡ option_map (appended ErrorStream (listed_places files.now places.now)) (W.told world.old).written) }
    ensures err { OnErr result (Said ErrorStream (listed_places files.now places.now) (W.told world.old) (W.told world.new)) }
    ensures cause { OnErr result (Rose (W.told world.old).faults (W.told world.new).faults) }
    ensures rest { OnlyWrites (W.told world.old) (W.told world.new) }
{
    for place in places {
        match write_place(world, file_name(files, place.file as usize), *place) {
            Ok(()) => {}
            Err(()) => return Err(()),
        }
    }
    Ok(())
}

// Writes places and the end of the line.
fn end_listed<W: World>(world: &mut W, files: &[Text], places: &[Origin]) -> Result<(), ()>
    ensures ok { OnOk result ((W.told world.new).written ≡ option_map (appended ErrorStream (listed_places files.now places.now ++ codes "\n")) (W.told world.old).written) }
    ensures err { OnErr result (Said ErrorStream (listed_places files.now places.now ++ codes "\n") (W.told world.old) (W.told world.new)) }
    ensures cause { OnErr result (Rose (W.told world.old).faults (W.told world.new).faults) }
    ensures rest { OnlyWrites (W.told world.old) (W.told world.new) }
{
    match write_places(world, files, places) {
        Ok(()) => {}
        Err(()) => return Err(()),
    }
    match write_pieces(world, Stream::Errors, &[END]) {
        Ok(()) => Ok(()),
        Err(()) => Err(()),
    }
}

// Writes one line that ends in places on standard error, or as much of it as the world takes; says whether it is whole.
fn tell_listed<W: World>(
    world: &mut W,
    files: &[Text],
    start: &[u8],
    end: &[u8],
    places: &[Origin],
) -> Result<(), ()>
    ensures ok { OnOk result (Did (on_errors (error_line (listed_text files.now (start.now ++ end.now) places.now))) (W.told world.old) (W.told world.new)) }
    ensures err { OnErr result (CutShort (listed_text files.now (start.now ++ end.now) places.now) (W.told world.old) (W.told world.new)) }
{
    match write_pieces(world, Stream::Errors, &[START, start, end, COLON]) {
        Ok(()) => {}
        Err(()) => return Err(()),
    }
    match end_listed(world, files, places) {
        Ok(()) => Ok(()),
        Err(()) => Err(()),
    }
}

/// Refuses a command by the line `vsim: `, these two texts, a colon and for each place ` FILE:LINE:COL`, where a place has
/// the number of its file; a line feed ends it.
///
/// Gives `Refused` where the line is whole, and `WorldFault` where the write failed.
pub fn refuse_listed<W: World>(
    world: &mut W,
    files: &[Text],
    start: &[u8],
    end: &[u8],
    places: &[Origin],
) -> Status
    ensures told { Refuses result (listed_text files.now (start.now ++ end.now) places.now) (W.told world.old) (W.told world.new) }
{
    match tell_listed(world, files, start, end, places) {
        Ok(()) => Status::Refused,
        Err(()) => Status::WorldFault,
    }
}

/// Tries the line `cannot read NAME` after a failing read, and gives `WorldFault`.
pub fn cannot_read<W: World>(world: &mut W, name: &[u8]) -> Status
    ensures told { EndsBy result (Failing (not_read name.now)) (W.told world.old) (W.told world.new) }
{
    match tell(world, b"cannot read ", name) {
        Ok(()) => Status::WorldFault,
        Err(()) => Status::WorldFault,
    }
}

/// Tries the line `cannot create NAME` after a failing creation, and gives `WorldFault`.
pub fn cannot_create<W: World>(world: &mut W, name: &[u8]) -> Status
    ensures told { EndsBy result (Failing (not_created name.now)) (W.told world.old) (W.told world.new) }
{
    match tell(world, b"cannot create ", name) {
        Ok(()) => Status::WorldFault,
        Err(()) => Status::WorldFault,
    }
}

// What a stream is called.
fn name_of(stream: Stream) -> &'static [u8]
    ensures { result.now ≡ stream_name stream }
{
    match stream {
        Stream::Out => b"out",
        Stream::Errors => b"errors",
        Stream::Calls => b"calls",
        Stream::Vcd => b"vcd",
    }
}

/// Tries the line `cannot write STREAM` after a failing write to that stream, and gives `WorldFault`. STREAM is `out`,
/// `calls` or `vcd`.
pub fn cannot_write<W: World>(world: &mut W, stream: Stream) -> Status
    ensures told { EndsBy result (Failing (not_written stream)) (W.told world.old) (W.told world.new) }
{
    match tell(world, b"cannot write ", name_of(stream)) {
        Ok(()) => Status::WorldFault,
        Err(()) => Status::WorldFault,
    }
}

/// Tries the line `out of memory`, and gives `NoMemory` whether it was written or not.
pub fn out_of_memory<W: World>(world: &mut W) -> Status
    ensures told { EndsBy result Wanting (W.told world.old) (W.told world.new) }
{
    match tell(world, b"out of memory", b"") {
        Ok(()) => Status::NoMemory,
        Err(()) => Status::NoMemory,
    }
}
