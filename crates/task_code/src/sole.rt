//! Targets that one store writes.
ghost use Rattle.std.specs.Prelude.{IfOk};
ghost use Rattle.task_code.specs.Soles.{IsSole};

use crate::fault::CodeFault;
use crate::here::Here;
use crate::stand::{Part, Stand, part_of, stand_of};
use crate::table::{Rows, Span};
use rtl_ir::Target;
use task_eval::Index;

/// What one store writes.
#[derive(Clone, Copy, Debug, PartialEq, Eq)]
pub(crate) enum Sole {
    /// A word of so many bits.
    Word(u32, u32),
    /// The word of an element that an address names.
    Column(Rows, Index, u32),
    No,
}

/// What one store writes, where the target is that.
pub(crate) fn sole_of(target: &Target, here: &Here<'_>) -> Result<Sole, CodeFault>
    ensures { IfOk result IsSole }
{
    let own = here.own(target)?;
    let part = part_of(target, &own);
    match stand_of(target, &own, here)? {
        Stand::Words(span) => word_of(span, &part, here),
        Stand::Element(rows, by) => column_of(rows, by, &part, here),
        Stand::Nowhere => Ok(Sole::No),
    }
}

/// The only word, or the one that holds the bits that are named and no others.
fn word_of(span: Span, part: &Part, here: &Here<'_>) -> Result<Sole, CodeFault>
    ensures { IfOk result IsSole }
{
    for number in 0..span.count {
        let piece = here.piece(span.first.saturating_add(number))?;
        let sole = match part {
            Part::All => span.count == 1,
            Part::At(at, width) => *at == i64::from(piece.bit) && *width == piece.len,
            Part::Index(_, _) => false,
        };
        if sole {
            return Ok(Sole::Word(piece.word, piece.len));
        }
    }
    Ok(Sole::No)
}

/// The only word of each element.
fn column_of(rows: Rows, by: Index, part: &Part, here: &Here<'_>) -> Result<Sole, CodeFault>
    ensures { IfOk result IsSole }
{
    let piece = here.piece(rows.first)?;
    if matches!(part, Part::All) && rows.stride == 1 {
        return Ok(Sole::Column(rows, by, piece.len));
    }
    Ok(Sole::No)
}
