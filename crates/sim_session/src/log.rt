//! The lines of an eval's calls, written into room that is there.
ghost use Rattle.std.specs.Prelude.{◌≡◌, ◌≤◌, ◌+◌, ◌*◌, ◌++◌, length, codes, decimal, true, vec_len, vec_capacity};
ghost use Rattle.std.specs.List.{list_all};
ghost use Rattle.std.specs.Option.{option_copied};
ghost use Rattle.vs_base.specs.Number.{kept};
ghost use Rattle.rtl_ir.specs.Types.{is_type, result_is_type};
ghost use Rattle.sim_session.specs.Lines.{hex_text};
ghost use Rattle.sim_session.specs.CallLines.{args_text, reply_text, rest_text, import_text, call_of, call_line, call_lines};
ghost use Rattle.sim_session.specs.Rooms as rooms;

use crate::hex::{DECIMAL_BYTES, put_bytes, put_decimal, put_hex};
use dpi_host::CallRec;
use rtl_ir::Import;
use sqlite_items::at;
use vs_base::{Bits, ValueType};

const IS: &[u8] = b" = ";

const NOTHING: &[u8] = b"";

const COMMA: &[u8] = b",";

// Adds a number at the width of a type.
fn put_typed(text: &mut Vec<u8>, of: ValueType, number: u64)
    requires fits { is_type of ≡ true }
    requires room { vec_len text.old + 32 ≤ vec_capacity text.old }
    ensures items { text.new.items ≡ text.old.items ++ hex_text (kept of.width number) }
    ensures room { vec_len text.new ≤ vec_len text.old + 32 }
    ensures capacity { vec_capacity text.old ≤ vec_capacity text.new }
{
    put_hex(text, Bits::new(of.width, u128::from(number)));
}

// Adds the arguments.
fn put_args(text: &mut Vec<u8>, types: &[ValueType], args: &[u64])
    requires fit { list_all is_type types.now ≡ true }
    requires room { vec_len text.old + 33 * length types.now ≤ vec_capacity text.old }
    ensures items { text.new.items ≡ text.old.items ++ args_text (codes "") types.now args.now }
    ensures room { vec_len text.new ≤ vec_len text.old + 33 * length types.now }
    ensures capacity { vec_capacity text.old ≤ vec_capacity text.new }
{
    let mut before = NOTHING;
    let mut types = types;
    let mut args = args;
    'types: while let [of, more @ ..] = types {
        let [arg, rest @ ..] = args else {
            return;
        };
        put_bytes(text, before);
        put_typed(text, *of, *arg);
        before = COMMA;
        types = more;
        args = rest;
    }
}

// Adds the reply, where there is one.
fn put_reply(text: &mut Vec<u8>, of: Option<ValueType>, reply: u64)
    requires fits { result_is_type of ≡ true }
    requires room { vec_len text.old + 35 ≤ vec_capacity text.old }
    ensures items { text.new.items ≡ text.old.items ++ reply_text of reply }
    ensures room { vec_len text.new ≤ vec_len text.old + 35 }
    ensures capacity { vec_capacity text.old ≤ vec_capacity text.new }
{
    let Some(of) = of else {
        return;
    };
    put_bytes(text, IS);
    put_typed(text, of, reply);
}

// Adds what stands behind the first parenthesis.
fn put_rest(text: &mut Vec<u8>, import: &Import, call: &CallRec)
    requires { vec_len text.old + (33 * length import.now.args + 36) ≤ vec_capacity text.old }
    ensures items { text.new.items ≡ text.old.items ++ rest_text import.now call.now }
    ensures room { vec_len text.new ≤ vec_len text.old + (33 * length import.now.args + 36) }
    ensures capacity { vec_capacity text.old ≤ vec_capacity text.new }
{
    put_args(text, import.args.as_slice(), call.args());
    text.push_reserved(b')');
    put_reply(text, import.result, call.reply);
}

// Adds the call of an import, from its name on.
fn put_import(text: &mut Vec<u8>, import: &Import, call: &CallRec)
    requires { vec_len text.old + (length import.now.name + (33 * length import.now.args + 37)) ≤ vec_capacity text.old }
    ensures items { text.new.items ≡ text.old.items ++ import_text import.now call.now }
    ensures room { vec_len text.new ≤ vec_len text.old + (length import.now.name + (33 * length import.now.args + 37)) }
    ensures capacity { vec_capacity text.old ≤ vec_capacity text.new }
{
    put_bytes(text, import.name.as_bytes());
    text.push_reserved(b'(');
    put_rest(text, import, call);
}

// Adds the number of an eval and a space.
fn put_start(text: &mut Vec<u8>, number: u64)
    requires { vec_len text.old + (DECIMAL_BYTES + 1) ≤ vec_capacity text.old }
    ensures items { text.new.items ≡ text.old.items ++ (decimal number ++ codes " ") }
    ensures room { vec_len text.new ≤ vec_len text.old + (DECIMAL_BYTES + 1) }
    ensures capacity { vec_capacity text.old ≤ vec_capacity text.new }
{
    put_decimal(text, number);
    text.push_reserved(b' ');
}

// Adds the line of a call, if there is such an import.
fn put_call(text: &mut Vec<u8>, import: Option<&Import>, number: u64, call: &CallRec)
    requires { vec_len text.old + rooms.import_room_if (option_copied import) ≤ vec_capacity text.old }
    ensures items { text.new.items ≡ text.old.items ++ call_of number (option_copied import.entry) call.now }
    ensures room { vec_len text.new ≤ vec_len text.old + rooms.import_room_if (option_copied import.entry) }
    ensures capacity { vec_capacity text.old ≤ vec_capacity text.new }
{
    let Some(import) = import else {
        return;
    };
    put_start(text, number);
    put_import(text, import, call);
    text.push_reserved(b'\n');
}

// Adds the line of a call of one of the imports.
fn put_call_of(text: &mut Vec<u8>, imports: &[Import], number: u64, call: &CallRec)
    requires { vec_len text.old + rooms.longest imports.now ≤ vec_capacity text.old }
    ensures items { text.new.items ≡ text.old.items ++ call_line imports.now number call.now }
    ensures room { vec_len text.new ≤ vec_len text.old + rooms.longest imports.now }
    ensures capacity { vec_capacity text.old ≤ vec_capacity text.new }
{
    put_call(text, at(imports, call.import as usize), number, call);
}

/// Puts the lines of an eval's calls in place of what was there.
pub fn put_calls(text: &mut Vec<u8>, imports: &[Import], number: u64, calls: &[CallRec])
    requires { rooms.lines_room (rooms.longest imports.now) calls.now ≤ vec_capacity text.old }
    ensures items { text.new.items ≡ call_lines imports.now number calls.now }
    ensures capacity { vec_capacity text.old ≤ vec_capacity text.new }
{
    text.clear();
    let mut rest = calls;
    'calls: while let [call, more @ ..] = rest {
        put_call_of(text, imports, number, call);
        rest = more;
    }
}
