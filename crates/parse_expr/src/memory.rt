//! Boxes and lists, where want of memory is a fault of parsing.

ghost use Rattle.std.specs.Prelude.{◌≡◌, [], ◌∷◌, ◌++◌, IfOk, OnOk, IfErr};

use crate::fault::ParseFault;
use sqlite_items::{Boxed, Items};
use std::alloc::Global;

/// Puts a part at the end of a list.
///
/// `NoMemory`: there was none left.
pub fn push<T: Drop>(items: &mut Items<T>, item: T) -> Result<(), ParseFault>
    ensures more { OnOk result (items.new ≡ items.old ++ item ∷ []) }
    ensures fault { IfErr result (λ f. f ≡ ParseFault.NoMemory) }
{
    let Ok(()) = items.push(item) else {
        return Err(ParseFault::NoMemory);
    };
    Ok(())
}

/// A part in a box.
///
/// `NoMemory`: there was none left.
pub fn boxed<T: Drop>(alloc: Global, part: T) -> Result<Boxed<T>, ParseFault>
    ensures value { IfOk result (λ b. b ≡ part) }
    ensures fault { IfErr result (λ f. f ≡ ParseFault.NoMemory) }
{
    let Ok(part) = Boxed::new(alloc, part) else {
        return Err(ParseFault::NoMemory);
    };
    Ok(part)
}
