// The acts of a stimulus, line by line.
ghost use Rattle.std.specs.Prelude.{◌≡◌, ◌≢◌, ◌<◌, ◌≤◌, ◌+◌, ◌-◌, ◌^◌, ◌∷◌, [], length, true, Some, IfOk, IfErr, IfSome};
ghost use Rattle.std.specs.List.{list_all};
ghost use Rattle.stimulus.specs.Inputs.{IsTable};
ghost use Rattle.stimulus.specs.StimulusText.{words_of, begins_comment};
ghost use Rattle.stimulus.specs.Stimulus.{design_ports, width_at, place_of, evals_of, set_input, set_act, clock_act, act_of, line_act, stim_acts, act_fits, evals_in};
ghost use Rattle.stimulus.specs.Turns.{Adds, Refuses};

use crate::fault::StimFault;
use crate::inputs::{Inputs, inputs_of};
use crate::number::{read_count, read_hex};
use crate::words::{next_line, next_word};
use rtl_ir::Design;
use std::alloc::Global;
use vs_base::limits::EVALS;
use vs_base::{Act, Bits};

// Whether a line whose first word this is says nothing.
fn begins_comment(word: &[u8]) -> bool
    ensures { result ≡ begins_comment word.now }
{
    match word {
        [b'#', ..] => true,
        _ => false,
    }
}

// The width of the port at a place.
fn port_width(design: &Design, place: u32) -> u32
    requires { place < length design.now.ports }
    ensures value { result ≡ width_at (design_ports design.now) place }
    ensures some { 1 ≤ result }
    ensures most { result ≤ 128 }
{
    let port = design.ports.as_slice()[place as usize];
    design.vars.as_slice()[port.var as usize].width
}

// The act of a line of one word.
fn eval_act(number: u32, verb: &[u8]) -> Result<Option<Act>, StimFault>
    ensures { result ≡ act_of [] number verb.now [] }
{
    const EVAL: &[u8] = b"eval";
    if verb == EVAL {
        return Ok(Some(Act::Eval));
    }
    Err(StimFault::BadLine(number))
}

// The place of the first input of a name.
fn find_input(inputs: &Inputs, design: &Design, name: &[u8]) -> Option<u32>
    requires { IsTable inputs.now (design_ports design.now) }
    ensures place { result ≡ place_of (design_ports design.now) name.now }
    ensures within { IfSome result (λ place. place < length design.now.ports) }
{
    inputs.place(name)
}

// The act that sets the input at a place.
fn set_input(
    design: &Design,
    number: u32,
    value: u128,
    place: u32,
) -> Result<Option<Act>, StimFault>
    requires { place < length design.now.ports }
    ensures { result ≡ set_input (design_ports design.now) number value (Some place) }
{
    let bits = Bits::new(port_width(design, place), value);
    if bits.value() != value {
        return Err(StimFault::ValueTooWide(number));
    }
    Ok(Some(Act::Set {
        port: place,
        value: bits,
    }))
}

// The act `set NAME HEX`.
fn set_act(
    inputs: &Inputs,
    design: &Design,
    number: u32,
    name: &[u8],
    hex: &[u8],
) -> Result<Option<Act>, StimFault>
    requires { IsTable inputs.now (design_ports design.now) }
    ensures { result ≡ set_act (design_ports design.now) number name.now hex.now }
{
    let Some(value) = read_hex(hex) else {
        return Err(StimFault::BadLine(number));
    };
    let Some(place) = find_input(inputs, design, name) else {
        return Err(StimFault::UnknownInput(number));
    };
    set_input(design, number, value, place)
}

// The act `clock NAME N`.
fn clock_act(
    inputs: &Inputs,
    design: &Design,
    number: u32,
    name: &[u8],
    count: &[u8],
) -> Result<Option<Act>, StimFault>
    requires { IsTable inputs.now (design_ports design.now) }
    ensures { result ≡ clock_act (design_ports design.now) number name.now count.now }
{
    let Some(turns) = read_count(count) else {
        return Err(StimFault::BadLine(number));
    };
    let Some(place) = find_input(inputs, design, name) else {
        return Err(StimFault::UnknownInput(number));
    };
    Ok(Some(Act::Clock { port: place, turns }))
}

// The act of a line of three words.
fn three_words(
    inputs: &Inputs,
    design: &Design,
    number: u32,
    verb: &[u8],
    name: &[u8],
    digits: &[u8],
) -> Result<Option<Act>, StimFault>
    requires { IsTable inputs.now (design_ports design.now) }
    ensures { result ≡ act_of (design_ports design.now) number verb.now (name.now ∷ digits.now ∷ []) }
{
    const SET: &[u8] = b"set";
    const CLOCK: &[u8] = b"clock";
    if verb == SET {
        return set_act(inputs, design, number, name, digits);
    }
    if verb == CLOCK {
        return clock_act(inputs, design, number, name, digits);
    }
    Err(StimFault::BadLine(number))
}

// The act of a line, after its first word.
fn act_after(
    inputs: &Inputs,
    design: &Design,
    number: u32,
    verb: &[u8],
    rest: &[u8],
) -> Result<Option<Act>, StimFault>
    requires { IsTable inputs.now (design_ports design.now) }
    ensures { result ≡ act_of (design_ports design.now) number verb.now (words_of rest.now) }
{
    let Some((name, rest)) = next_word(rest) else {
        return eval_act(number, verb);
    };
    let Some((digits, rest)) = next_word(rest) else {
        return Err(StimFault::BadLine(number));
    };
    if next_word(rest).is_some() {
        return Err(StimFault::BadLine(number));
    }
    three_words(inputs, design, number, verb, name, digits)
}

// What a line says.
fn line_act(
    inputs: &Inputs,
    design: &Design,
    number: u32,
    line: &[u8],
) -> Result<Option<Act>, StimFault>
    requires { IsTable inputs.now (design_ports design.now) }
    ensures { result ≡ line_act (design_ports design.now) number (words_of line.now) }
{
    let Some((verb, rest)) = next_word(line) else {
        return Ok(None);
    };
    if begins_comment(verb) {
        return Ok(None);
    }
    act_after(inputs, design, number, verb, rest)
}

// How often an act evaluates the design.
fn evals_of(act: &Act) -> u64
    ensures value { result ≡ evals_of act.now }
    ensures few { result < 2 ^ 33 }
{
    match act {
        Act::Set { .. } => 0,
        Act::Eval => 1,
        Act::Clock { turns, .. } => 2 * u64::from(*turns),
    }
}

// The evals up to the end of a line of this act.
fn count_evals(number: u32, evals: u32, act: &Act) -> Result<u32, StimFault>
    ensures few { IfOk result (λ sum. sum ≤ EVALS) }
    ensures ok { IfOk result (λ sum. sum ≡ evals + evals_of act.now) }
    ensures fault { IfErr result (λ f. f ≡ StimFault.TooManyEvals number) }
    ensures many { IfErr result (λ f. EVALS < evals + evals_of act.now) }
{
    let sum = u64::from(evals) + evals_of(act);
    if sum > u64::from(EVALS) {
        return Err(StimFault::TooManyEvals(number));
    }
    Ok(sum as u32)
}

// Puts the act of a line, where it has one, behind those before it, and gives the evals up to the end of the line.
fn add_act(acts: &mut Vec<Act>, number: u32, evals: u32, act: Option<Act>) -> Result<u32, StimFault>
    requires { evals ≤ EVALS }
    ensures few { IfOk result (λ sum. sum ≤ EVALS) }
    ensures ok { IfOk result (λ sum. Adds acts.old.items acts.new.items number evals sum act) }
    ensures fault { IfErr result (λ f. f ≢ StimFault.NoMemory → Refuses number evals act f) }
{
    let Some(act) = act else {
        return Ok(evals);
    };
    let sum = match count_evals(number, evals, &act) {
        Ok(sum) => sum,
        Err(fault) => return Err(fault),
    };
    match acts.push(act) {
        Ok(()) => Ok(sum),
        Err(_) => Err(StimFault::NoMemory),
    }
}

// The acts of a stimulus, by the table of the inputs' names.
fn acts_of(
    alloc: Global,
    inputs: &Inputs,
    design: &Design,
    bytes: &[u8],
) -> Result<Vec<Act>, StimFault>
    requires table { IsTable inputs.now (design_ports design.now) }
    requires short { length bytes.now < 2 ^ 32 - 1 }
    ensures acts { IfOk result (λ v. stim_acts (design_ports design.now) bytes.now ≡ Ok v.items) }
    ensures fault { IfErr result (λ f. f ≢ StimFault.NoMemory → stim_acts (design_ports design.now) bytes.now ≡ Err f) }
{
    let mut acts = Vec::new(alloc);
    let mut evals: u32 = 0;
    let mut number: u32 = 1;
    let mut rest = bytes;
    'lines: while let Some((line, more)) = next_line(rest) {
        let act = match line_act(inputs, design, number, line) {
            Ok(act) => act,
            Err(fault) => return Err(fault),
        };
        match add_act(&mut acts, number, evals, act) {
            Ok(sum) => evals = sum,
            Err(fault) => return Err(fault),
        }
        number += 1;
        rest = more;
    }
    Ok(acts)
}

/// The acts of a stimulus, in their order. The port of an act is its place among the ports of the design, from 0;
/// where several inputs have one name, that of the first. The value of a `Set` has the port's width.
///
/// A fault of a line is that of the first faulty line, and in a line the first of these that applies:
/// `BadLine`: the line is neither blank, nor a comment, nor `eval`, `set NAME HEX` or `clock NAME N` with 1 to 32
/// hexadecimal or 1 to 7 decimal digits. `UnknownInput`: no input of the design has the name. `ValueTooWide`: the
/// value is not below 2^width. `TooManyEvals`: with this line there are more than 1,000,000 evals.
///
/// `NoMemory`: there was none left, or the design has 2^32 ports or more.
pub fn read_stim(alloc: Global, bytes: &[u8], design: &Design) -> Result<Vec<Act>, StimFault>
    requires short { length bytes.now < 2 ^ 32 - 1 }
    ensures acts { IfOk result (λ v. stim_acts (design_ports design.now) bytes.now ≡ Ok v.items) }
    ensures fault { IfErr result (λ f. f ≢ StimFault.NoMemory → stim_acts (design_ports design.now) bytes.now ≡ Err f) }
    ensures fit { IfOk result (λ v. list_all (act_fits (design_ports design.now)) v.items ≡ true) }
    ensures few { IfOk result (λ v. evals_in v.items ≤ EVALS) }
{
    let Ok(inputs) = inputs_of(alloc, design.vars.as_slice(), design.ports.as_slice()) else {
        return Err(StimFault::NoMemory);
    };
    acts_of(alloc, &inputs, design, bytes)
}
