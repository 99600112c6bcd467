//! The words of events.
ghost use Rattle.std.specs.Prelude.{◌≡◌, ◌<◌, ℕ, length, slice_index, IfOk};
ghost use Rattle.plan_types.specs.Machine.{event_word, is_piece as holds_bits};
ghost use Rattle.run_tables.specs.Tables.{noted};

use crate::list::{filled, set_at};
use dpi_host::NoMemory;
use rtl_ir::Design;
use rtl_pieces::{Layout, Word};
use std::alloc::Global;

/// The first word with bits of each variable, 0 where there is none. `NoMemory`: there was none left.
pub fn event_words(alloc: Global, design: &Design, layout: &Layout) -> Result<Vec<usize>, NoMemory>
    ensures many { IfOk result (λ out. length out.items ≡ length design.now.vars) }
    ensures each { IfOk result (λ out. (v : ℕ) → v < length design.now.vars → slice_index out.items v ≡ event_word layout.now.words.items v) }
{
    let mut table = filled(alloc, 0usize, design.vars.len())?;
    let mut left = layout.words.len();
    while left > 0 {
        left -= 1;
        note(table.as_mut_slice(), layout.words[left], left);
    }
    Ok(table)
}

// Notes a word as that of its variable.
fn note(table: &mut [usize], word: Word, number: usize)
    ensures { table.new ≡ noted table.old word number }
{
    if is_piece(word) {
        set_at(table, word.holds.item as usize, number);
    }
}

// Whether a word holds bits of a variable, and not as a shadow.
pub(crate) fn is_piece(word: Word) -> bool
    ensures { result ≡ holds_bits word }
{
    !word.holds.mem && !word.shadow && word.len > 0
}
