//! The line of an eval on standard output, written into room that is there.
ghost use Rattle.std.specs.Prelude.{◌≡◌, ◌≤◌, ◌+◌, ◌++◌, length, codes, vec_len, vec_capacity};
ghost use Rattle.std.specs.Option.{option_copied, option_map};
ghost use Rattle.vcd_out.specs.Changes.{widths_of};
ghost use Rattle.sim_session.specs.Lines.{name_if, value_if, output_text, outputs_text, out_line};
ghost use Rattle.sim_session.specs.Rooms as rooms;

use crate::hex::{put_bytes, put_decimal, put_hex};
use rtl_ir::{Port, Var};
use sqlite_items::at;
use vs_base::Bits;

fn put_name(text: &mut Vec<u8>, var: Option<&Var>)
    requires { vec_len text.old + length (name_if (option_copied var)) ≤ vec_capacity text.old }
    ensures items { text.new.items ≡ text.old.items ++ name_if (option_copied var.entry) }
    ensures room { vec_len text.new ≤ vec_len text.old + length (name_if (option_copied var.entry)) }
    ensures capacity { vec_capacity text.old ≤ vec_capacity text.new }
{
    if let Some(var) = var {
        put_bytes(text, var.name.as_bytes());
    }
}

fn put_value(text: &mut Vec<u8>, value: Option<&Bits>)
    requires { vec_len text.old + rooms.digits_room (option_map (λ n. n.width) (option_copied value)) ≤ vec_capacity text.old }
    ensures items { text.new.items ≡ text.old.items ++ value_if (option_copied value.entry) }
    ensures room { vec_len text.new ≤ vec_len text.old + rooms.digits_room (option_map (λ n. n.width) (option_copied value.entry)) }
    ensures capacity { vec_capacity text.old ≤ vec_capacity text.new }
{
    if let Some(value) = value {
        put_hex(text, *value);
    }
}

// Adds a name and a value.
fn put_pair(text: &mut Vec<u8>, var: Option<&Var>, value: Option<&Bits>)
    requires { vec_len text.old + (length (name_if (option_copied var)) + (1 + rooms.digits_room (option_map (λ n. n.width) (option_copied value)))) ≤ vec_capacity text.old }
    ensures items { text.new.items ≡ text.old.items ++ (name_if (option_copied var.entry) ++ (codes "=" ++ value_if (option_copied value.entry))) }
    ensures room { vec_len text.new ≤ vec_len text.old + (length (name_if (option_copied var.entry)) + (1 + rooms.digits_room (option_map (λ n. n.width) (option_copied value.entry)))) }
    ensures capacity { vec_capacity text.old ≤ vec_capacity text.new }
{
    put_name(text, var);
    text.push_reserved(b'=');
    put_value(text, value);
}

// Adds an output; of an input there is nothing to add.
fn put_output(text: &mut Vec<u8>, vars: &[Var], values: &[Bits], port: Port)
    requires { vec_len text.old + rooms.output_room vars.now (widths_of values.now) port ≤ vec_capacity text.old }
    ensures items { text.new.items ≡ text.old.items ++ output_text vars.now values.now port }
    ensures room { vec_len text.new ≤ vec_len text.old + rooms.output_room vars.now (widths_of values.now) port }
    ensures capacity { vec_capacity text.old ≤ vec_capacity text.new }
{
    if port.input {
        return;
    }
    text.push_reserved(b' ');
    put_pair(
        text,
        at(vars, port.var as usize),
        at(values, port.var as usize),
    );
}

fn put_outputs(text: &mut Vec<u8>, vars: &[Var], values: &[Bits], ports: &[Port])
    requires { vec_len text.old + rooms.outputs_room vars.now (widths_of values.now) ports.now ≤ vec_capacity text.old }
    ensures items { text.new.items ≡ text.old.items ++ outputs_text vars.now values.now ports.now }
    ensures room { vec_len text.new ≤ vec_len text.old + rooms.outputs_room vars.now (widths_of values.now) ports.now }
    ensures capacity { vec_capacity text.old ≤ vec_capacity text.new }
{
    let mut rest = ports;
    'ports: while let [port, more @ ..] = rest {
        put_output(text, vars, values, *port);
        rest = more;
    }
}

/// Puts the line of an eval in place of what was there.
#[tactic(auto, unfolding(crate::specs::Lines::out_line))]
pub fn put_line(text: &mut Vec<u8>, vars: &[Var], ports: &[Port], number: u64, values: &[Bits])
    requires { rooms.line_room vars.now (widths_of values.now) ports.now ≤ vec_capacity text.old }
    ensures items { text.new.items ≡ out_line vars.now ports.now number values.now }
    ensures capacity { vec_capacity text.old ≤ vec_capacity text.new }
{
    text.clear();
    put_decimal(text, number);
    put_outputs(text, vars, values, ports);
    text.push_reserved(b'\n');
}
