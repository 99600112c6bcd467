//! The words before the first eval.
ghost use Rattle.std.specs.Prelude.{◌≡◌, ◌≤◌, IfOk};
ghost use Rattle.plan_types.specs.Machine.{opening_word, opening_words as words_at_opening};

use crate::slice::part;
use dpi_host::NoMemory;
use rtl_ir::{Design, Var};
use rtl_pieces::{Layout, Word};
use std::alloc::Global;
use vs_base::limits;

/// The words before the first eval: the bits of each variable's first value, and 0 for a memory. `NoMemory`: there was
/// none left, or one of them has more bits than a word of the state.
pub fn opening_words(alloc: Global, design: &Design, layout: &Layout) -> Result<Vec<u64>, NoMemory>
    ensures { IfOk result (λ out. out.items ≡ words_at_opening design.now.vars layout.now.words.items) }
{
    let mut out = Vec::new(alloc);
    for word in &layout.words {
        if word.len > limits::WORD {
            return Err(NoMemory);
        }
        let Ok(()) = out.push(first_value(design.vars.as_slice(), *word)) else {
            return Err(NoMemory);
        };
    }
    Ok(out)
}

fn first_value(vars: &[Var], word: Word) -> u64
    requires { word.len ≤ 64 }
    ensures { result ≡ opening_word vars.now word }
{
    if word.holds.mem {
        return 0;
    }
    match vars.get(word.holds.item as usize) {
        Some(var) => part(var.init, word.holds.bit, word.len),
        None => 0,
    }
}
