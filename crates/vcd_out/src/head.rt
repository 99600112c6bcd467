//! The header of a waveform.

ghost use Rattle.std.specs.Prelude.{◌≡◌, ◌<◌, ◌++◌, OnOk, IfOk, decimal, codes};
ghost use Rattle.std.specs.Option.{option_copied};
ghost use Rattle.vcd_out.specs.Header.{joined, segment, text_of_scope, kind_text, range_text, text_of_var, line_text, counted, declarations, initial_line, initial_values, values_text, header_of, header_text};

use crate::fault::NoMemory;
use crate::layout::{Line, lines_of, order_in};
use crate::value::{CODE_BYTES, LINE_BYTES, put_code, put_value};
use itoa::Buffer;
use rtl_ir::{Design, FlatScope, Var};
use sqlite_items::at;
use std::alloc::{AllocError, Global};

const START: &[u8] = b"$timescale 1ns $end\n";

const SCOPE: &[u8] = b"$scope ";

const MODULE: &[u8] = b"module ";

const BLOCK: &[u8] = b"begin ";

const VAR: &[u8] = b"$var wire ";

const BLANK: &[u8] = b" ";

const RANGE: &[u8] = b" [";

const COLON: &[u8] = b":";

const RANGE_END: &[u8] = b"]";

const END: &[u8] = b" $end\n";

const UPSCOPE: &[u8] = b"$upscope $end\n";

const VALUES: &[u8] = b"$enddefinitions $end\n#0\n$dumpvars\n";

const VALUES_END: &[u8] = b"$end\n";

/// The header of a design's waveform: its scopes and variables, and their values before the first eval.
///
/// `NoMemory`: there was none left. It takes time and memory in proportion to the text.
pub fn header(alloc: Global, design: &Design) -> Result<Vec<u8>, NoMemory>
    ensures { IfOk result (λ text. text.items ≡ header_text design.now.vars design.now.scopes) }
{
    match text_of(alloc, design) {
        Ok(text) => Ok(text),
        Err(_) => Err(NoMemory),
    }
}

fn text_of(alloc: Global, design: &Design) -> Result<Vec<u8>, AllocError>
    ensures { IfOk result (λ text. text.items ≡ header_text design.now.vars design.now.scopes) }
{
    let lines = lines_of(alloc, design)?;
    let order = order_in(alloc, lines.as_slice())?;
    let mut text = Vec::new(alloc);
    put_header(&mut text, design, lines.as_slice(), order.as_slice())?;
    Ok(text)
}

// Adds the header of these lines and variables.
fn put_header(
    text: &mut Vec<u8>,
    design: &Design,
    lines: &[Line],
    order: &[usize],
) -> Result<(), AllocError>
    ensures { OnOk result (text.new.items ≡ text.old.items ++ header_of design.now.vars design.now.scopes lines.now order.now) }
{
    text.extend_from_slice(START)?;
    declare(text, design, lines)?;
    put_values(text, design, order)
}

// Adds the rest of the header, after its scopes and variables.
fn put_values(text: &mut Vec<u8>, design: &Design, order: &[usize]) -> Result<(), AllocError>
    ensures { OnOk result (text.new.items ≡ text.old.items ++ values_text design.now.vars order.now) }
{
    text.extend_from_slice(VALUES)?;
    put_initial(text, design.vars.as_slice(), order)?;
    text.extend_from_slice(VALUES_END)
}

// Adds pieces, one after another.
fn put(text: &mut Vec<u8>, pieces: &[&[u8]]) -> Result<(), AllocError>
    ensures { OnOk result (text.new.items ≡ text.old.items ++ joined pieces.now) }
{
    for piece in pieces {
        text.extend_from_slice(piece)?;
    }
    Ok(())
}

// Adds the lines of scopes and variables.
fn declare(text: &mut Vec<u8>, design: &Design, lines: &[Line]) -> Result<(), AllocError>
    ensures { OnOk result (text.new.items ≡ text.old.items ++ declarations design.now.vars design.now.scopes 0 lines.now) }
{
    let mut k: usize = 0;
    let mut rest = lines;
    'lines: while let [line, more @ ..] = rest {
        put_line(text, design, k, *line)?;
        k = count(k, *line);
        rest = more;
    }
    Ok(())
}

// How many variables stand before the next line.
fn count(k: usize, line: Line) -> usize
    requires { k < usize.MAX }
    ensures { result ≡ counted k line }
{
    match line {
        Line::Opens(_) => k,
        Line::Declares(_) => k + 1,
        Line::Closes => k,
    }
}

// Adds one of these lines, where so many variables stand before it.
fn put_line(text: &mut Vec<u8>, design: &Design, k: usize, line: Line) -> Result<(), AllocError>
    ensures { OnOk result (text.new.items ≡ text.old.items ++ line_text design.now.vars design.now.scopes k line) }
{
    match line {
        Line::Opens(scope) => put_scope(text, design.scopes.get(scope)),
        Line::Declares(var) => put_var(text, k, design.vars.get(var)),
        Line::Closes => text.extend_from_slice(UPSCOPE),
    }
}

// Adds the line at which a scope begins, if there is one.
fn put_scope(text: &mut Vec<u8>, scope: Option<&FlatScope>) -> Result<(), AllocError>
    ensures { OnOk result (text.new.items ≡ text.old.items ++ text_of_scope (option_copied scope.entry)) }
{
    let Some(scope) = scope else {
        return Ok(());
    };
    put_opening(text, kind(scope.block), last_segment(scope.path.as_bytes()))
}

// Adds the line at which a scope of this kind and name begins.
fn put_opening(text: &mut Vec<u8>, kind: &[u8], name: &[u8]) -> Result<(), AllocError>
    ensures { OnOk result (text.new.items ≡ text.old.items ++ (codes "$scope " ++ (kind.now ++ (name.now ++ codes " $end\n")))) }
{
    put(text, &[SCOPE, kind, name, END])
}

// The word for a generate block or an instance.
fn kind(block: bool) -> &'static [u8]
    ensures { result.now ≡ kind_text block }
{
    if block { BLOCK } else { MODULE }
}

// What stands after the last dot of a path.
fn last_segment(path: &[u8]) -> &[u8]
    ensures { result.now ≡ segment path.now }
{
    let mut part = path;
    let mut rest = path;
    'bytes: while let [byte, more @ ..] = rest {
        if *byte == b'.' {
            part = more;
        }
        rest = more;
    }
    part
}

// Adds the line that declares variable `k`, if there is one.
fn put_var(text: &mut Vec<u8>, k: usize, var: Option<&Var>) -> Result<(), AllocError>
    ensures { OnOk result (text.new.items ≡ text.old.items ++ text_of_var k (option_copied var.entry)) }
{
    let Some(var) = var else {
        return Ok(());
    };
    put_width(text, var.width)?;
    text.reserve(CODE_BYTES)?;
    put_code(text, k);
    put_name(text, var)
}

// Adds the start of that line, up to the code.
fn put_width(text: &mut Vec<u8>, width: u32) -> Result<(), AllocError>
    ensures { OnOk result (text.new.items ≡ text.old.items ++ (codes "$var wire " ++ (decimal width ++ codes " "))) }
{
    let mut digits = Buffer::new();
    put(text, &[VAR, digits.format(width).as_bytes(), BLANK])
}

// Adds the rest of that line, after the code.
fn put_name(text: &mut Vec<u8>, var: &Var) -> Result<(), AllocError>
    ensures { OnOk result (text.new.items ≡ text.old.items ++ (codes " " ++ (var.now.name ++ (range_text var.now ++ codes " $end\n")))) }
{
    put(text, &[BLANK, var.name.as_bytes()])?;
    put_range(text, var)?;
    text.extend_from_slice(END)
}

// Adds the range of a variable of more than one bit.
fn put_range(text: &mut Vec<u8>, var: &Var) -> Result<(), AllocError>
    ensures { OnOk result (text.new.items ≡ text.old.items ++ range_text var.now) }
{
    if var.width == 1 {
        return Ok(());
    }
    let mut msb = Buffer::new();
    let mut lsb = Buffer::new();
    let top = u64::from(var.lsb) + u64::from(var.width - 1);
    let msb = msb.format(top).as_bytes();
    let lsb = lsb.format(var.lsb).as_bytes();
    put(text, &[RANGE, msb, COLON, lsb, RANGE_END])
}

// Adds the lines of the initial values of variables.
fn put_initial(text: &mut Vec<u8>, vars: &[Var], order: &[usize]) -> Result<(), AllocError>
    ensures { OnOk result (text.new.items ≡ text.old.items ++ initial_values vars.now 0 order.now) }
{
    let mut k: usize = 0;
    let mut rest = order;
    'places: while let [place, more @ ..] = rest {
        put_init(text, k, at(vars, *place))?;
        k += 1;
        rest = more;
    }
    Ok(())
}

// Adds the line of a variable's initial value, if there is one.
fn put_init(text: &mut Vec<u8>, k: usize, var: Option<&Var>) -> Result<(), AllocError>
    ensures { OnOk result (text.new.items ≡ text.old.items ++ initial_line k (option_copied var.entry)) }
{
    let Some(var) = var else {
        return Ok(());
    };
    text.reserve(var.width as usize + LINE_BYTES + CODE_BYTES)?;
    put_value(text, k, var.init);
    Ok(())
}
