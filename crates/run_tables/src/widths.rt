//! The widths of results.
ghost use Rattle.std.specs.Prelude.{◌≡◌, IfOk};
ghost use Rattle.plan_types.specs.Machine.{result_width, result_widths as widths_of};

use dpi_host::NoMemory;
use rtl_ir::{Design, Import};
use std::alloc::Global;

/// The width of each import's result, 0 where it is void. `NoMemory`: there was none left.
pub fn result_widths(alloc: Global, design: &Design) -> Result<Vec<u32>, NoMemory>
    ensures { IfOk result (λ out. out.items ≡ widths_of design.now.imports) }
{
    let mut out = Vec::new(alloc);
    for import in design.imports.as_slice() {
        let Ok(()) = out.push(width_of(import)) else {
            return Err(NoMemory);
        };
    }
    Ok(out)
}

fn width_of(import: &Import) -> u32
    ensures { result ≡ result_width import.now.result }
{
    match import.result {
        Some(result) => result.width,
        None => 0,
    }
}
