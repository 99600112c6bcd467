//! What a waveform tells of an eval.

ghost use Rattle.std.specs.Prelude.{◌≡◌, ◌≤◌, ◌+◌, ◌++◌, IfOk, IfSome, codes, decimal, map, vec_len, vec_capacity};
ghost use Rattle.std.specs.Option.{option_copied, option_map};
ghost use Rattle.vcd_out.specs.Changes.{rooms, room_at, widths_of, widths_of_vars, time_text, change_line, changes, order_of};

use crate::fault::NoMemory;
use crate::layout::{lines_of, order_in};
use crate::value::{CODE_BYTES, LINE_BYTES, put_value};
use itoa::Buffer;
use rtl_ir::{Design, Var};
use sqlite_items::at;
use std::alloc::{AllocError, Global};
use vs_base::Bits;

/// The greatest length of the line of a time: `#`, the digits of a number of 64 bits, and a line feed.
const TIME_BYTES: usize = 22;

/// The order of a design's variables in the text of its waveform, and the room of the longest text that a change may
/// have.
#[derive(Drop)]
pub struct VcdBuf {
    order: Vec<usize>,
    text: Vec<u8>,
}

impl VcdBuf {
    ghost use Rattle.std.specs.Prelude.{⊤};
    ghost use Rattle.std.specs.Borrow.{sem};
    ghost use mathlib.Core.Option.{none};
    ghost use denote.Follow.{follows_so};
    ghost use Rattle.vcd_out.specs.contracts.change.VcdBuf.{the_row};
    ghost use Rattle.vcd_out.specs.Buffer.{Serves};
    ghost use Rattle.vcd_out.specs.Changes.{change_text};

    /// The buffer for the changes of a design.
    ///
    /// `NoMemory`: there was none left. It takes time and memory in proportion to the design and to the text of a change
    /// of all variables.
    pub fn for_design(alloc: Global, design: &Design) -> Result<VcdBuf, NoMemory>
        ensures { IfOk result (λ b. Serves b design.now) }
    {
        let Ok(order) = order(alloc, design) else {
            return Err(NoMemory);
        };
        let Some(room) = room_for(design.vars.as_slice(), order.as_slice()) else {
            return Err(NoMemory);
        };
        let Ok(text) = Vec::with_capacity(alloc, room) else {
            return Err(NoMemory);
        };
        Ok(VcdBuf { order, text })
    }

    /// The text of a change at a time: `#`, the time, and a line for each variable whose new value differs from its
    /// old one, in the order of the header. Eval K has the time K + 1.
    ///
    /// The buffer is one for this design, and still is one afterwards. Values stand in the order of the design's
    /// variables. It takes no memory, and time in proportion to the variables and the text.
    pub fn change(&mut self, design: &Design, old: &[Bits], new: &[Bits], time: u64) -> &[u8]
        requires serves { Serves self.old design.now }
        requires old { widths_of old.now ≡ widths_of_vars design.now.vars }
        requires new { widths_of new.now ≡ widths_of_vars design.now.vars }
        ensures text { result.now ≡ change_text design.now.vars design.now.scopes old.now new.now time }
        ensures* serves { sem 𝓛 (follows_so the_row the_row self.entry.ghost_name none (λ _ _. ⊤) (λ b. Serves b design.now)) }
    {
        self.fill(design, old, new, time);
        self.text.as_slice()
    }

    // Puts the text of a change into the buffer.
    fn fill(&mut self, design: &Design, old: &[Bits], new: &[Bits], time: u64)
        requires serves { Serves self.old design.now }
        requires new { widths_of new.now ≡ widths_of_vars design.now.vars }
        ensures text { self.new.text.items ≡ change_text design.now.vars design.now.scopes old.now new.now time }
        ensures serves { Serves self.new design.now }
    {
        self.text.clear();
        put_time(&mut self.text, time);
        put_changes(&mut self.text, self.order.as_slice(), old, new);
    }
}

// The variables of a design in the order of the text.
fn order(alloc: Global, design: &Design) -> Result<Vec<usize>, AllocError>
    ensures { IfOk result (λ order. order.items ≡ order_of design.now.vars design.now.scopes) }
{
    let lines = lines_of(alloc, design)?;
    order_in(alloc, lines.as_slice())
}

// The room of the longest text of a change, where it is a number of bytes.
fn room_for(vars: &[Var], order: &[usize]) -> Option<usize>
    ensures { IfSome result (λ room. room ≡ TIME_BYTES + rooms (widths_of_vars vars.now) order.now) }
{
    let mut room = TIME_BYTES;
    let mut rest = order;
    'places: while let [place, more @ ..] = rest {
        let Some(sum) = room.checked_add(line_room(at(vars, *place))) else {
            return None;
        };
        room = sum;
        rest = more;
    }
    Some(room)
}

// The room of a variable's line.
fn line_room(var: Option<&Var>) -> usize
    ensures { result ≡ room_at (option_map (λ v. v.width) (option_copied var.entry)) }
{
    match var {
        Some(var) => var.width as usize + LINE_BYTES + CODE_BYTES,
        None => 0,
    }
}

// Adds the line of a time.
fn put_time(text: &mut Vec<u8>, time: u64)
    requires { vec_len text.old + TIME_BYTES ≤ vec_capacity text.old }
    ensures items { text.new.items ≡ text.old.items ++ time_text time }
    ensures room { vec_len text.new ≤ vec_len text.old + TIME_BYTES }
    ensures capacity { vec_capacity text.old ≤ vec_capacity text.new }
{
    let mut digits = Buffer::new();
    text.push_reserved(b'#');
    let _ = text.extend_from_slice(digits.format(time).as_bytes());
    text.push_reserved(b'\n');
}

// Adds the lines of the variables that changed.
fn put_changes(text: &mut Vec<u8>, order: &[usize], old: &[Bits], new: &[Bits])
    requires { vec_len text.old + rooms (widths_of new.now) order.now ≤ vec_capacity text.old }
    ensures items { text.new.items ≡ text.old.items ++ changes old.now new.now 0 order.now }
    ensures capacity { vec_capacity text.old ≤ vec_capacity text.new }
{
    let mut k: usize = 0;
    let mut rest = order;
    'places: while let [place, more @ ..] = rest {
        put_change(text, k, at(old, *place), at(new, *place));
        k += 1;
        rest = more;
    }
}

// Adds the line of a variable, if it changed.
fn put_change(text: &mut Vec<u8>, k: usize, old: Option<&Bits>, new: Option<&Bits>)
    requires { vec_len text.old + room_at (option_map (λ n. n.width) (option_copied new)) ≤ vec_capacity text.old }
    ensures items { text.new.items ≡ text.old.items ++ change_line k (option_copied old.entry) (option_copied new.entry) }
    ensures room { vec_len text.new ≤ vec_len text.old + room_at (option_map (λ n. n.width) (option_copied new.entry)) }
    ensures capacity { vec_capacity text.old ≤ vec_capacity text.new }
{
    let Some(was) = old else {
        return;
    };
    let Some(now) = new else {
        return;
    };
    if was.value() != now.value() {
        put_value(text, k, *now);
    }
}
