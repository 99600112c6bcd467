//! The formals of imports.

ghost use Rattle.std.specs.Prelude.{◌≡◌, true};
ghost use Rattle.std.specs.List.{list_all};
ghost use Rattle.rtl_ir.specs.Types.{is_type};

use crate::fault::FlatFault;
use crate::kind::{Kind, of_type};
use rtl_ir::Import;
use vs_base::ValueType;

/// The type of the formal of this number of an import.
pub fn formal_kind(imports: &[Import], import: u32, number: usize) -> Result<Kind, FlatFault> {
    match imports.get(import as usize) {
        Some(import) => kind_at(import.args.as_slice(), number),
        None => Err(FlatFault::NotElaborated),
    }
}

/// The type at a place of a list.
fn kind_at(kinds: &[ValueType], at: usize) -> Result<Kind, FlatFault>
    requires { list_all is_type kinds.now ≡ true }
{
    if at >= kinds.len() {
        return Err(FlatFault::NotElaborated);
    }
    Ok(of_type(kinds[at]))
}
