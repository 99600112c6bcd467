//! Lists with commas, and tokens that may be there.

ghost use Rattle.std.specs.Prelude.{◌≡◌, ◌≤◌, ℕ, Bool, length, IfOk, IfErr};
ghost use Rattle.std.specs.Option.{is_some};
ghost use Rattle.sv_tree.specs.declared.symbol.Symbol.{Symbol};
ghost use Rattle.sv_tree.specs.Symbol.{same};
ghost use Rattle.sv_tree.specs.TreeRead.{Read, commas, each, joined, maybe, one_of};
ghost use Rattle.parse_expr.specs.Input.{symbol_at};
ghost use Rattle.parse_expr.specs.Parsed.{Parsed, IsWithin};

use parse_expr::{ParseFault, Source, push};
use sqlite_items::Items;
use sv_tree::{CommaList, Joined, Symbol, Token};

/// A part of the tree of which lists are made.
pub trait Part: Drop {
    ghost reads: { Self → Read };

    /// Reads one.
    fn part(source: &Source<'_>, at: &mut usize, depth: u32) -> Result<Self, ParseFault>
        requires deep { depth ≤ 128 }
        requires within { at.old ≤ length source.now.tokens }
        ensures reads { IfOk result (λ x. Parsed source.now depth at.old at.new (reads x)) }
        ensures fault { IfErr result (λ f. IsWithin source.now f) };
}

/// Parts with commas between them.
pub fn comma_list<T: Part>(
    source: &Source<'_>,
    at: &mut usize,
    depth: u32,
) -> Result<CommaList<T>, ParseFault>
    requires deep { depth ≤ 128 }
    requires within { at.old ≤ length source.now.tokens }
    ensures reads { IfOk result (λ x. Parsed source.now depth at.old at.new (commas T.reads x)) }
    ensures fault { IfErr result (λ f. IsWithin source.now f) }
{
    let first = T::part(source, at, depth)?;
    let more = comma_more::<T>(source, at, depth)?;
    Ok(CommaList { first, more })
}

/// Further parts of a list, each after its comma.
pub fn comma_more<T: Part>(
    source: &Source<'_>,
    at: &mut usize,
    depth: u32,
) -> Result<Items<Joined<T>>, ParseFault>
    requires deep { depth ≤ 128 }
    requires within { at.old ≤ length source.now.tokens }
    ensures reads { IfOk result (λ xs. Parsed source.now depth at.old at.new (each (joined (same Symbol.Comma) T.reads) xs)) }
    ensures fault { IfErr result (λ f. IsWithin source.now f) }
{
    let mut more = Items::new(source.alloc());
    'commas: while source.sees(*at, Symbol::Comma) {
        let mark = source.expect(at, Symbol::Comma)?;
        let item = T::part(source, at, depth)?;
        push(&mut more, Joined { mark, item })?;
    }
    Ok(more)
}

/// Takes the token at a place where it is wanted, as of a class that may be left out.
pub fn take_where(
    source: &Source<'_>,
    at: &mut usize,
    wanted: bool,
) -> Result<Option<Token>, ParseFault>
    requires { at.old ≤ length source.now.tokens }
    ensures reads { IfOk result (λ o. (class : Symbol → Bool) (depth : ℕ) → depth ≤ 128 → wanted ≡ class (symbol_at source.now at.old)
        → Parsed source.now depth at.old at.new (maybe (one_of class) o)) }
    ensures there { IfOk result (λ o. is_some o ≡ wanted) }
    ensures fault { IfErr result (λ f. IsWithin source.now f) }
{
    if !wanted {
        return Ok(None);
    }
    let token = source.take(at)?;
    Ok(Some(token))
}
