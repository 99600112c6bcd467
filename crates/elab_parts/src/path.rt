//! The paths of scopes.

ghost use Rattle.std.specs.Prelude.{◌≡◌, [], ◌++◌, IfOk, IfErr, OnOk};
ghost use Rattle.vs_base.specs.Number.{signed_reading};
ghost use Rattle.elab_parts.specs.Paths.{inner_path, turn_name, block_number};

use crate::stop::Stop;
use itoa::Buffer;
use std::alloc::Global;
use sv_expr::Fixed;
use vs_base::Text;

/// A path of one name. There is no fault but want of memory.
pub fn root(alloc: Global, name: &[u8]) -> Result<Text, Stop>
    ensures path { IfOk result (λ path. path ≡ name.now) }
    ensures memory { IfErr result (λ stop. stop ≡ Stop.NoMemory) }
{
    Ok(Text::new(bytes_of(alloc, name)?))
}

/// The bytes of a text.
fn bytes_of(alloc: Global, text: &[u8]) -> Result<Vec<u8>, Stop>
    ensures bytes { IfOk result (λ bytes. bytes.items ≡ text.now) }
    ensures memory { IfErr result (λ stop. stop ≡ Stop.NoMemory) }
{
    match Vec::from_slice(alloc, text) {
        Ok(bytes) => Ok(bytes),
        Err(_) => Err(Stop::NoMemory),
    }
}

/// Adds bytes at the end.
fn put(bytes: &mut Vec<u8>, text: &[u8]) -> Result<(), Stop>
    ensures added { OnOk result (bytes.new.items ≡ bytes.old.items ++ text.now) }
    ensures memory { IfErr result (λ stop. stop ≡ Stop.NoMemory) }
{
    match bytes.extend_from_slice(text) {
        Ok(()) => Ok(()),
        Err(_) => Err(Stop::NoMemory),
    }
}

/// The path of a scope in another: a dot and its segment after the other's path. There is no fault but want of
/// memory.
pub fn inner(alloc: Global, outer: &[u8], segment: &[u8]) -> Result<Text, Stop>
    ensures path { IfOk result (λ path. path ≡ inner_path outer.now segment.now) }
    ensures memory { IfErr result (λ stop. stop ≡ Stop.NoMemory) }
{
    let mut bytes = room(alloc, outer.len(), segment.len())?;
    put(&mut bytes, outer)?;
    put(&mut bytes, b".")?;
    put(&mut bytes, segment)?;
    Ok(Text::new(bytes))
}

/// Room for a path of so many bytes with a dot and a segment of so many after it, and no more: a design may have
/// millions of scopes.
fn room(alloc: Global, outer: usize, segment: usize) -> Result<Vec<u8>, Stop>
    ensures empty { IfOk result (λ bytes. bytes.items ≡ []) }
    ensures memory { IfErr result (λ stop. stop ≡ Stop.NoMemory) }
{
    let len = outer.saturating_add(segment).saturating_add(1);
    match Vec::with_capacity(alloc, len) {
        Ok(bytes) => Ok(bytes),
        Err(_) => Err(Stop::NoMemory),
    }
}

/// The segment of a turn: the block's name and the value of the genvar, `NAME[i]`, read with a sign. There is no fault but want
/// of memory.
pub fn turn_segment(name: Vec<u8>, value: Fixed) -> Result<Vec<u8>, Stop>
    ensures segment { IfOk result (λ segment. segment.items ≡ turn_name name.items (signed_reading value.value)) }
    ensures memory { IfErr result (λ stop. stop ≡ Stop.NoMemory) }
{
    let mut bytes = name;
    let mut buffer = Buffer::new();
    put(&mut bytes, b"[")?;
    put(
        &mut bytes,
        buffer.format(value.value.signed_of()).as_bytes(),
    )?;
    put(&mut bytes, b"]")?;
    Ok(bytes)
}

/// The segment of the block of a construct without a name, with so many zeros before its number: `genblkN`
/// (IEEE 1800-2017 27.6). There is no fault but want of memory.
pub fn numbered_segment(alloc: Global, zeros: usize, number: u32) -> Result<Vec<u8>, Stop>
    ensures segment { IfOk result (λ segment. segment.items ≡ block_number zeros number) }
    ensures memory { IfErr result (λ stop. stop ≡ Stop.NoMemory) }
{
    let mut bytes = bytes_of(alloc, b"genblk")?;
    for _ in 0..zeros {
        put(&mut bytes, b"0")?;
    }
    let mut buffer = Buffer::new();
    put(&mut bytes, buffer.format(number).as_bytes())?;
    Ok(bytes)
}
