//! The run of a process of a model, and of its copy, over a list of words.

ghost use Rattle.std.specs.Prelude.{[], ◌∷◌, None, length};

use crate::echo::Echo;
use crate::texts::design_of;
use dpi_host::{Mode, argument};
use dpi_lib::LibHost;
use model_build::build;
use model_copy::copy_built;
use plan_types::Built;
use std::alloc::Global;
use std::test::Fail;
use task_eval::{Bus, Frame, run_node};

/// Words in a list, and an import with a result of 8 bits.
#[derive(Drop)]
pub struct Words {
    list: Vec<u64>,
}

impl Bus for Words {
    type Host = Echo;

    ghost outside = { λ b. record { words = b.list.items; fixed = []; state = []; ids = 0 ∷ []; widths = 8 ∷ []; made = None } };

    fn load(&mut self, word: u32) -> u64 {
        self.list[word as usize]
    }

    fn store(&mut self, word: u32, value: u64) {
        self.list[word as usize] = value;
    }

    fn call(&mut self, _import: u32, args: &[u64]) -> u64 {
        argument(args, 0) % 256
    }
}

/// Runs the first process of a model on its words, of which word 1 has this value and the others are 0.
fn run_first(alloc: Global, built: &Built, value: u64) -> Result<Vec<u64>, Fail> {
    let list = vec![in alloc; 0u64; built.layout.words.len()]?;
    let mut words = Words { list };
    if words.list.len() > 1 {
        words.list[1] = value;
    }
    let codes = built.codes.as_slice();
    let [code, ..] = codes else {
        return Err(Fail::from("no process"));
    };
    if built.ids.len() != 1 {
        return Err(Fail::from("imports"));
    }
    let mut frame = Frame::for_code(alloc, codes)?;
    run_node(code, &mut words, &mut frame);
    let Words { list } = words;
    Ok(list)
}

/// The model of a text.
fn model_of(alloc: Global, text: &[u8]) -> Result<Built, Fail> {
    let design = design_of(alloc, text)?;
    Ok(build(alloc, design, Mode::Pure, &LibHost::new())?)
}

/// Runs the first process of the model of a text.
fn run_model(alloc: Global, text: &[u8], value: u64) -> Result<Vec<u64>, Fail> {
    let built = model_of(alloc, text)?;
    run_first(alloc, &built, value)
}

/// Runs the first process of a copy of the model of a text.
fn run_copy(alloc: Global, text: &[u8], value: u64) -> Result<Vec<u64>, Fail> {
    let built = model_of(alloc, text)?;
    let copy = copy_built(alloc, &built)?;
    run_first(alloc, &copy, value)
}

const ONES: &[u8] =
    b"import \"DPI-C\" pure function byte echo(byte x); module top(input [7:0] a, output logic [3:0] n); always_comb begin n = 0; for (int i = 0; i < 8; i++) n = n + a[i]; end endmodule";

const NEXT: &[u8] =
    b"import \"DPI-C\" pure function byte echo(byte x); module top(input [7:0] a, output [7:0] y); assign y = a + 1; endmodule";

#[test]
fn a_loop_counts_the_ones(rt: HostRuntime) -> Result<(), Fail> {
    let words = run_model(rt.alloc(), ONES, 0xb7)?;
    assert_eq!(rt; words.as_slice(), [0, 0xb7, 6].as_slice());
    Ok(())
}

#[test]
fn a_copy_runs_as_its_model(rt: HostRuntime) -> Result<(), Fail> {
    let words = run_copy(rt.alloc(), NEXT, 0xff)?;
    assert_eq!(rt; words.as_slice(), [0, 0xff, 0].as_slice());
    Ok(())
}
