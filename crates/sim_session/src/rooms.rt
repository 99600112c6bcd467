//! The room of the longest texts of an eval.
ghost use Rattle.std.specs.Prelude.{◌≡◌, ◌≤◌, ◌<◌, ◌*◌, ◌^◌, length, true, IfOk, IfSome, vec_capacity};
ghost use Rattle.std.specs.Option.{option_copied, option_map};
ghost use Rattle.plan_types.specs.Room.{call_room};
ghost use Rattle.vcd_out.specs.Changes.{widths_of_vars};
ghost use Rattle.sim_session.specs.Lines.{name_if};
ghost use Rattle.sim_session.specs.Rooms as rooms;
ghost use Rattle.sim_session.specs.Ready.{HasRoom};

use crate::session::Output;
use crate::texts::Texts;
use plan_types::Built;
use rtl_ir::{Import, Port, Var};
use sqlite_items::at;
use std::alloc::Global;
use vcd_out::{NoMemory, VcdBuf};

// The length of a name; 0 where there is none.
fn name_len(var: Option<&Var>) -> usize
    ensures len { result ≡ length (name_if (option_copied var.entry)) }
    ensures short { result < 2 ^ 63 }
{
    match var {
        Some(var) => var.name.as_bytes().len(),
        None => 0,
    }
}

// The hexadecimal digits of a variable's value; none where there is no variable.
fn digits_room(var: Option<&Var>) -> usize
    ensures room { result ≡ rooms.digits_room (option_map (λ v. v.width) (option_copied var.entry)) }
    ensures short { result ≤ 32 }
{
    match var {
        Some(var) => var.width.div_ceil(4) as usize,
        None => 0,
    }
}

// The room of an output; an input takes none.
fn output_room(vars: &[Var], port: Port) -> usize
    ensures { result ≡ rooms.output_room vars.now (widths_of_vars vars.now) port }
{
    if port.input {
        return 0;
    }
    let var = at(vars, port.var as usize);
    name_len(var) + (2 + digits_room(var))
}

// The room of the line, where it is a number of bytes.
fn line_room(vars: &[Var], ports: &[Port]) -> Option<usize>
    ensures { IfSome result (λ room. room ≡ rooms.line_room vars.now (widths_of_vars vars.now) ports.now) }
{
    let mut room: usize = 21;
    let mut rest = ports;
    'ports: while let [port, more @ ..] = rest {
        let Some(sum) = room.checked_add(output_room(vars, *port)) else {
            return None;
        };
        room = sum;
        rest = more;
    }
    Some(room)
}

// The room of a call's line.
fn import_room(import: &Import) -> usize
    ensures { result ≡ rooms.import_room import.now }
{
    import.name.as_bytes().len() + (33 * import.args.as_slice().len() + 59)
}

// That of the longest one.
fn longest(imports: &[Import]) -> usize
    ensures { result ≡ rooms.longest imports.now }
{
    let mut most: usize = 0;
    let mut rest = imports;
    'imports: while let [import, more @ ..] = rest {
        most = most.max(import_room(import));
        rest = more;
    }
    most
}

// A buffer for the lines.
fn line_buffer(alloc: Global, vars: &[Var], ports: &[Port]) -> Result<Vec<u8>, NoMemory>
    ensures { IfOk result (λ text. rooms.line_room vars.now (widths_of_vars vars.now) ports.now ≤ vec_capacity text) }
{
    let Some(room) = line_room(vars, ports) else {
        return Err(NoMemory);
    };
    match Vec::with_capacity(alloc, room) {
        Ok(text) => Ok(text),
        Err(_) => Err(NoMemory),
    }
}

// A buffer for the calls of an eval, of which there are at most so many, where they are wanted.
fn log_buffer(
    alloc: Global,
    imports: &[Import],
    calls: u32,
    logs: bool,
) -> Result<Vec<u8>, NoMemory>
    ensures { IfOk result (λ text. logs ≡ true → calls * rooms.longest imports.now ≤ vec_capacity text) }
{
    if !logs {
        return Ok(Vec::new(alloc));
    }
    let Some(room) = (calls as usize).checked_mul(longest(imports)) else {
        return Err(NoMemory);
    };
    match Vec::with_capacity(alloc, room) {
        Ok(text) => Ok(text),
        Err(_) => Err(NoMemory),
    }
}

/// Room for the longest texts of an eval that keeps at most so many calls.
pub fn output(alloc: Global, built: &Built, texts: &Texts, calls: u32) -> Result<Output, NoMemory>
    requires { calls ≡ call_room built.now }
    ensures room { IfOk result (λ out. HasRoom texts.now built.now out) }
    ensures done { IfOk result (λ out. out.done ≡ 0) }
{
    let design = &built.design;
    let logs = texts.calls.is_some();
    let Ok(line) = line_buffer(alloc, design.vars.as_slice(), design.ports.as_slice()) else {
        return Err(NoMemory);
    };
    let Ok(log) = log_buffer(alloc, design.imports.as_slice(), calls, logs) else {
        return Err(NoMemory);
    };
    let Ok(changes) = VcdBuf::for_design(alloc, design) else {
        return Err(NoMemory);
    };
    Ok(Output {
        line,
        log,
        changes,
        done: 0,
    })
}
