//! The words of inputs.
ghost use Rattle.std.specs.Prelude.{◌≡◌, ◌++◌, ℕ, None, slice_index_or, true, IfOk, OnOk};
ghost use Rattle.std.specs.List.{list_all};
ghost use Rattle.rtl_ir.specs.WithinDesign.{port_fits};
ghost use Rattle.plan_types.specs.Machine.{input_vars, input_of, input_word, input_words as words_of_inputs};
ghost use Rattle.run_tables.specs.Tables.{is_narrow};

use crate::events::is_piece;
use crate::list::{filled, set_at};
use dpi_host::NoMemory;
use plan_types::InputWord;
use rtl_ir::{Design, Port};
use rtl_pieces::{Layout, Word};
use std::alloc::Global;
use vs_base::limits;

/// The words with bits of input ports, in order, with the input of each. `NoMemory`: there was none left, or one of them
/// has more bits than a word of the state.
pub fn input_words(
    alloc: Global,
    design: &Design,
    layout: &Layout,
) -> Result<Vec<InputWord>, NoMemory>
    ensures words { IfOk result (λ out. out.items ≡ words_of_inputs design.now.ports layout.now.words.items) }
    ensures narrow { IfOk result (λ out. list_all is_narrow out.items ≡ true) }
{
    let inputs = inputs_of(alloc, design.ports.as_slice(), design.vars.len())?;
    let mut out = Vec::new(alloc);
    let mut number: usize = 0;
    let mut rest = layout.words.as_slice();
    while let [word, more @ ..] = rest {
        add_word(&mut out, number, *word, inputs.as_slice())?;
        number += 1;
        rest = more;
    }
    Ok(out)
}

// Adds a word, where it has bits of an input.
fn add_word(
    out: &mut Vec<InputWord>,
    number: usize,
    word: Word,
    inputs: &[Option<usize>],
) -> Result<(), NoMemory>
    requires narrow { list_all is_narrow out.old.items ≡ true }
    ensures word { OnOk result (out.new.items ≡ out.old.items ++ input_word number word (slice_index_or inputs.now word.holds.item None)) }
    ensures narrow { OnOk result (list_all is_narrow out.new.items ≡ true) }
{
    let Some(Some(input)) = inputs.get(word.holds.item as usize).copied() else {
        return Ok(());
    };
    if !is_piece(word) {
        return Ok(());
    }
    if word.len > limits::WORD {
        return Err(NoMemory);
    }
    let Ok(()) = out.push(InputWord {
        word: number,
        input,
        bit: word.holds.bit,
        len: word.len,
    }) else {
        return Err(NoMemory);
    };
    Ok(())
}

// The input of each variable, by its place among the input ports.
fn inputs_of(alloc: Global, ports: &[Port], vars: usize) -> Result<Vec<Option<usize>>, NoMemory>
    requires { list_all (port_fits vars) ports.now ≡ true }
    ensures { IfOk result (λ out. (v : ℕ) → slice_index_or out.items v None ≡ input_of (input_vars ports.now) v) }
{
    let mut table = filled(alloc, None, vars)?;
    let mut count: usize = 0;
    let mut rest = ports;
    while let [port, more @ ..] = rest {
        if port.input {
            set_at(table.as_mut_slice(), port.var as usize, Some(count));
            count += 1;
        }
        rest = more;
    }
    Ok(table)
}
