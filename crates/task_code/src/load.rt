//! Reads of words.
ghost use Rattle.std.specs.Prelude.{◌≡◌, ◌≤◌, ◌<◌, ◌+◌, ◌∷◌, OnOk, IfOk};
ghost use Rattle.task_eval.specs.declared.op.Op.TheVariants as the_op;
ghost use Rattle.vs_base.specs.declared.limits.TheConstants.{WIDTH};
ghost use Rattle.task_code.specs.Reads.{IsRead, zero_read, width_read as width_read_of};

use crate::fault::CodeFault;
use crate::here::{Here, Own};
use crate::stand::{Part, Stand};
use crate::table::{Rows, Span};
use crate::tail::Tail;
use task_eval::Index;
use vs_base::Bits;
use vs_base::limits::WIDTH;

/// Pushes the part of a variable or an element whose place is known before the run. The index, where it is taken when the code
/// runs, is pushed after it.
pub(crate) fn load_fixed(
    stand: Stand,
    own: &Own,
    part: &Part,
    here: &Here<'_>,
    out: &mut Tail,
) -> Result<(), CodeFault>
    requires limits { out.old.held.limits ≡ here.now.limits }
    requires deep { 1 ≤ out.old.depth }
    ensures read { OnOk result (IsRead stand own.now part.now out.old.ops out.new.ops) }
    ensures depth { OnOk result (out.new.depth + 1 ≡ out.old.depth) }
    ensures held { OnOk result (out.new.held ≡ out.old.held) }
{
    match stand {
        Stand::Words(span) => load_part(span, part, here, out),
        Stand::Nowhere => load_nothing(own, part, out),
        Stand::Element(_, _) => Err(CodeFault::DoesNotFit),
    }
}

/// Pushes the part of a variable or an element that stands in words.
fn load_part(span: Span, part: &Part, here: &Here<'_>, out: &mut Tail) -> Result<(), CodeFault>
    requires limits { out.old.held.limits ≡ here.now.limits }
    requires deep { 1 ≤ out.old.depth }
    ensures depth { OnOk result (out.new.depth + 1 ≡ out.old.depth) }
    ensures held { OnOk result (out.new.held ≡ out.old.held) }
{
    if let Part::At(at, width) = part {
        return load_bits(span, *at, *width, here, out);
    }
    load_words(span, here, out)
}

/// Pushes the part of an element that is not there, which is 0.
fn load_nothing(own: &Own, part: &Part, out: &mut Tail) -> Result<(), CodeFault>
    requires deep { 1 ≤ out.old.depth }
    ensures ops { OnOk result (out.new.ops ≡ the_op.Push (zero_read own.now part.now) ∷ out.old.ops) }
    ensures depth { OnOk result (out.new.depth + 1 ≡ out.old.depth) }
    ensures held { OnOk result (out.new.held ≡ out.old.held) }
{
    let width = width_read(own, part);
    if width == 0 || width > WIDTH {
        return Err(CodeFault::DoesNotFit);
    }
    out.push(Bits::new(width, 0))
}

/// How many bits are read of a part: those that a select by a constant names, and otherwise all.
fn width_read(own: &Own, part: &Part) -> u32
    ensures { result ≡ width_read_of own.now part.now }
{
    match part {
        Part::At(_, width) => *width,
        Part::All | Part::Index(_, _) => own.width.bits(),
    }
}

/// Pushes so many bits from a place on. Bits outside are 0.
fn load_bits(
    span: Span,
    at: i64,
    width: u32,
    here: &Here<'_>,
    out: &mut Tail,
) -> Result<(), CodeFault>
    requires limits { out.old.held.limits ≡ here.now.limits }
    requires deep { 1 ≤ out.old.depth }
    ensures depth { OnOk result (out.new.depth + 1 ≡ out.old.depth) }
    ensures held { OnOk result (out.new.held ≡ out.old.held) }
{
    if width == 0 || width > WIDTH {
        return Err(CodeFault::DoesNotFit);
    }
    let named = overlap(span, at, width, here)?;
    if named.count == 0 {
        return out.push(Bits::new(width, 0));
    }
    let first = here.piece(named.first)?;
    let from = at.saturating_sub(i64::from(first.bit));
    if from != 0 || bits_in(named, here)? != width {
        out.slice(from, width)?;
    }
    load_words(named, here, out)
}

/// Those of the words that hold one of so many bits from a place on.
fn overlap(span: Span, at: i64, width: u32, here: &Here<'_>) -> Result<Span, CodeFault> {
    let mut named = Span {
        first: span.first,
        count: 0,
    };
    for number in 0..span.count {
        let word = span.first.saturating_add(number);
        let piece = here.piece(word)?;
        let bit = i64::from(piece.bit);
        if bit < at.saturating_add(i64::from(width)) && at < bit + i64::from(piece.len) {
            if named.count == 0 {
                named.first = word;
            }
            named.count = named.count.saturating_add(1);
        }
    }
    Ok(named)
}

/// How many bits words hold.
fn bits_in(span: Span, here: &Here<'_>) -> Result<u32, CodeFault> {
    let mut bits: u32 = 0;
    for number in 0..span.count {
        let piece = here.piece(span.first.saturating_add(number))?;
        bits = bits.saturating_add(piece.len);
    }
    Ok(bits)
}

/// Pushes what words hold as one value, the last word with the highest bits.
fn load_words(span: Span, here: &Here<'_>, out: &mut Tail) -> Result<(), CodeFault>
    requires limits { out.old.held.limits ≡ here.now.limits }
    requires deep { 1 ≤ out.old.depth }
    ensures depth { OnOk result (out.new.depth + 1 ≡ out.old.depth) }
    ensures held { OnOk result (out.new.held ≡ out.old.held) }
{
    let Some(last) = span.count.checked_sub(1) else {
        return Err(CodeFault::DoesNotFit);
    };
    let mut high = bits_in(span, here)?;
    for number in 0..last {
        let piece = here.piece(span.first.saturating_add(number))?;
        high = high.saturating_sub(piece.len);
        out.join(high, piece.len)?;
        out.load(piece.word, piece.len)?;
    }
    let piece = here.piece(span.first.saturating_add(last))?;
    out.load(piece.word, piece.len)
}

/// Takes an address, and pushes the part of the element that it names. The index, where it is taken when the code runs, is
/// pushed after it.
pub(crate) fn load_element(
    rows: Rows,
    address: Index,
    own: &Own,
    part: &Part,
    here: &Here<'_>,
    out: &mut Tail,
) -> Result<(), CodeFault>
    requires limits { out.old.held.limits ≡ here.now.limits }
    requires deep { 1 ≤ out.old.depth }
    ensures depth { OnOk result (out.new.depth ≡ out.old.depth) }
    ensures held { OnOk result (out.new.held ≡ out.old.held) }
{
    if let Part::At(at, width) = part {
        slice_part(*at, *width, out)?;
    }
    if rows.stride == 1 {
        let piece = here.piece(rows.first)?;
        let column = here.column(rows, 0, address)?;
        return out.load_at(column, piece.len);
    }
    load_columns(rows, address, own, here, out)
}

/// Takes a value, and pushes so many of its bits from a place on.
fn slice_part(at: i64, width: u32, out: &mut Tail) -> Result<(), CodeFault>
    requires deep { 1 ≤ out.old.depth }
    ensures depth { OnOk result (out.new.depth ≡ out.old.depth) }
    ensures held { OnOk result (out.new.held ≡ out.old.held) }
{
    if width == 0 || width > WIDTH {
        return Err(CodeFault::DoesNotFit);
    }
    out.slice(at, width)
}

/// Takes an address, and pushes the element that it names, of several words. The address is extended to the width of the widest
/// element, and stays below until all words are joined. The element is then put over it.
fn load_columns(
    rows: Rows,
    address: Index,
    own: &Own,
    here: &Here<'_>,
    out: &mut Tail,
) -> Result<(), CodeFault>
    requires limits { out.old.held.limits ≡ here.now.limits }
    requires deep { 1 ≤ out.old.depth }
    ensures depth { OnOk result (out.new.depth ≡ out.old.depth) }
    ensures held { OnOk result (out.new.held ≡ out.old.held) }
{
    let Some(last) = rows.stride.checked_sub(1) else {
        return Err(CodeFault::DoesNotFit);
    };
    let mut high = own.width.bits();
    put_over(high, out)?;
    let height = out.depth() - 2;
    for number in 0..last {
        let piece = here.piece(rows.first.saturating_add(number))?;
        high = high.saturating_sub(piece.len);
        out.join(high, piece.len)?;
        load_column(rows, number, address, height, here, out)?;
    }
    load_column(rows, last, address, height, here, out)?;
    out.widen(address.signed)
}

/// Takes so many bits, and the value below them, which is as wide as a value can be, and pushes these bits.
fn put_over(width: u32, out: &mut Tail) -> Result<(), CodeFault>
    requires deep { 1 ≤ out.old.depth }
    requires some { 1 ≤ width }
    requires most { width ≤ WIDTH }
    ensures depth { OnOk result (out.new.depth ≡ out.old.depth + 1) }
    ensures held { OnOk result (out.new.held ≡ out.old.held) }
{
    out.extend(WIDTH, width, false)?;
    out.place(0)
}

/// Pushes the word of one piece of an element, whose address stands on so many values.
pub(crate) fn load_column(
    rows: Rows,
    number: u32,
    address: Index,
    height: u32,
    here: &Here<'_>,
    out: &mut Tail,
) -> Result<(), CodeFault>
    requires limits { out.old.held.limits ≡ here.now.limits }
    requires there { height + 2 ≤ out.old.depth }
    ensures depth { OnOk result (out.new.depth + 1 ≡ out.old.depth) }
    ensures held { OnOk result (out.new.held ≡ out.old.held) }
{
    let piece = here.piece(rows.first.saturating_add(number))?;
    let column = here.column(rows, number, address)?;
    out.load_at(column, piece.len)?;
    out.pick(height)
}
