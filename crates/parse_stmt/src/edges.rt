//! Words that open or close something.

ghost use Rattle.std.specs.Prelude.{◌<◌, ◌≤◌, length, IfOk, IfErr, OnOk};
ghost use Rattle.parse_expr.specs.Parsed.{Parsed, IsWithin};
ghost use Rattle.parse_stmt.specs.Heads as head;

use parse_expr::{ParseFault, Source, label_if};
use sv_tree::{Label, Symbol, Token};

/// A word, and the name that may stand after it.
#[derive(Clone, Copy, Debug)]
pub struct NamedWord {
    /// The word.
    pub word: Token,
    /// The name after its colon.
    pub label: Option<Label>,
}

/// `word [ ":" NAME ]`
pub fn named_word(
    source: &Source<'_>,
    at: &mut usize,
    depth: u32,
    word: Symbol,
) -> Result<NamedWord, ParseFault>
    requires deep { depth ≤ 128 }
    requires within { at.old ≤ length source.now.tokens }
    ensures reads { IfOk result (λ x. Parsed source.now depth at.old at.new (head.named_word word x)) }
    ensures forward { OnOk result (at.old < at.new) }
    ensures fault { IfErr result (λ f. IsWithin source.now f) }
{
    let word = source.expect(at, word)?;
    let label = label_if(source, at, depth)?;
    Ok(NamedWord { word, label })
}
