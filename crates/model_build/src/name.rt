//! The names of bits.

ghost use Rattle.std.specs.Prelude.{◌≡◌, ◌++◌, OnOk, IfOk, decimal, codes};
ghost use Rattle.std.specs.Option.{option_copied};
ghost use Rattle.std.specs.Fmt.{signed_decimal};
ghost use Rattle.model_build.specs.Names.{in_brackets, text_of_var, text_of_mem, bit_name};

use itoa::Buffer;
use rtl_ir::{Design, Mem, Var};
use rtl_pieces::BitRef;
use std::alloc::{AllocError, Global};
use vs_base::Text;

const OPENING: &[u8] = b"[";

const CLOSING: &[u8] = b"]";

const DOT: &[u8] = b".";

/// The name of a bit: that of its variable or memory, then the declared address of its element, then its declared index.
pub(crate) fn name_of_bit(alloc: Global, design: &Design, bit: BitRef) -> Result<Text, AllocError>
    ensures { IfOk result (λ text. text ≡ bit_name design.now.vars design.now.mems bit) }
{
    let mut text = Vec::new(alloc);
    if bit.mem {
        put_mem(&mut text, design.mems.get(bit.item as usize), bit)?;
    } else {
        put_var(&mut text, design.vars.get(bit.item as usize), bit)?;
    }
    Ok(Text::new(text))
}

// Adds the name of a bit of a variable, if there is one.
fn put_var(text: &mut Vec<u8>, var: Option<&Var>, bit: BitRef) -> Result<(), AllocError>
    ensures { OnOk result (text.new.items ≡ text.old.items ++ text_of_var bit (option_copied var.entry)) }
{
    let Some(var) = var else {
        return Ok(());
    };
    put_scoped(text, var.path.as_bytes(), var.name.as_bytes())?;
    put_index(text, u64::from(var.lsb) + u64::from(bit.bit))
}

// Adds the name of a bit of a memory, if there is one.
fn put_mem(text: &mut Vec<u8>, mem: Option<&Mem>, bit: BitRef) -> Result<(), AllocError>
    ensures { OnOk result (text.new.items ≡ text.old.items ++ text_of_mem bit (option_copied mem.entry)) }
{
    let Some(mem) = mem else {
        return Ok(());
    };
    text.extend_from_slice(mem.path.as_bytes())?;
    put_address(text, i128::from(mem.low) + i128::from(bit.element))?;
    put_index(text, u64::from(mem.lsb) + u64::from(bit.bit))
}

// Adds a path, a dot and a name.
fn put_scoped(text: &mut Vec<u8>, path: &[u8], name: &[u8]) -> Result<(), AllocError>
    ensures { OnOk result (text.new.items ≡ text.old.items ++ (path.now ++ (codes "." ++ name.now))) }
{
    text.extend_from_slice(path)?;
    text.extend_from_slice(DOT)?;
    text.extend_from_slice(name)
}

// Adds a number in brackets.
fn put_index(text: &mut Vec<u8>, number: u64) -> Result<(), AllocError>
    ensures { OnOk result (text.new.items ≡ text.old.items ++ in_brackets (decimal number)) }
{
    let mut digits = Buffer::new();
    put_bracketed(text, digits.format(number).as_bytes())
}

// Adds a number in brackets, with `-` before it where it is negative.
fn put_address(text: &mut Vec<u8>, number: i128) -> Result<(), AllocError>
    ensures { OnOk result (text.new.items ≡ text.old.items ++ in_brackets (signed_decimal number)) }
{
    let mut digits = Buffer::new();
    put_bracketed(text, digits.format(number).as_bytes())
}

fn put_bracketed(text: &mut Vec<u8>, inner: &[u8]) -> Result<(), AllocError>
    ensures { OnOk result (text.new.items ≡ text.old.items ++ in_brackets inner.now) }
{
    text.extend_from_slice(OPENING)?;
    text.extend_from_slice(inner)?;
    text.extend_from_slice(CLOSING)
}
