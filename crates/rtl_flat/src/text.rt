//! Texts of paths and names.

ghost use Rattle.std.specs.Prelude.{◌≡◌, ◌++◌, ◌∷◌, IfOk};

use rtl_lower::FlatFault;
use std::alloc::Global;
use vs_base::Text;

/// A copy.
pub fn copied(alloc: Global, text: &[u8]) -> Result<Text, FlatFault>
    ensures { IfOk result (λ copy. copy ≡ text.now) }
{
    let bytes = Vec::from_slice(alloc, text)?;
    Ok(Text::new(bytes))
}

/// A path with a name after it.
pub fn joined(alloc: Global, path: &[u8], name: &[u8]) -> Result<Text, FlatFault>
    ensures { IfOk result (λ text. text ≡ path.now ++ 46 ∷ name.now) }
{
    let mut bytes = Vec::from_slice(alloc, path)?;
    bytes.extend_from_slice(b".")?;
    bytes.extend_from_slice(name)?;
    Ok(Text::new(bytes))
}
