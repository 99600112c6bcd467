//! The parts of a `case` beside its statements.

ghost use Rattle.std.specs.Prelude.{◌≡◌, ◌≤◌, length, IfOk, IfErr};
ghost use Rattle.parse_expr.specs.Parsed.{Parsed, IsWithin};
ghost use Rattle.parse_stmt.specs.Heads as forms;

use parse_expr::{Operands, ParseFault, Source, boxed, expr, list};
use sqlite_items::Items;
use std::alloc::Global;
use sv_tree::{Arm, Expr, Stmt, Symbol, Token};

/// `"case" "(" expr ")"`
#[derive(Drop)]
pub struct CaseHead {
    pub word: Token,
    pub open: Token,
    pub subject: Expr,
    pub close: Token,
}

/// `expr { "," expr } ":" | "default" [ ":" ]`, an arm up to its statement.
#[derive(Drop)]
pub enum ArmHead {
    Labels { labels: Operands, colon: Token },
    Default { word: Token, colon: Option<Token> },
}

/// `"case" "(" expr ")"`
pub fn case_head(source: &Source<'_>, at: &mut usize, depth: u32) -> Result<CaseHead, ParseFault>
    requires deep { depth ≤ 128 }
    requires within { at.old ≤ length source.now.tokens }
    ensures reads { IfOk result (λ x. Parsed source.now depth at.old at.new (forms.case_head x)) }
    ensures fault { IfErr result (λ f. IsWithin source.now f) }
{
    let word = source.expect(at, Symbol::Case)?;
    let open = source.expect(at, Symbol::ParenOpen)?;
    let subject = expr(source, at, depth)?;
    let close = source.expect(at, Symbol::ParenClose)?;
    Ok(CaseHead {
        word,
        open,
        subject,
        close,
    })
}

/// `expr { "," expr } ":" | "default" [ ":" ]`
pub fn arm_head(source: &Source<'_>, at: &mut usize, depth: u32) -> Result<ArmHead, ParseFault>
    requires deep { depth ≤ 128 }
    requires within { at.old ≤ length source.now.tokens }
    ensures reads { IfOk result (λ x. Parsed source.now depth at.old at.new (forms.arm_head x)) }
    ensures fault { IfErr result (λ f. IsWithin source.now f) }
{
    if source.sees(*at, Symbol::Default) {
        let word = source.take(at)?;
        let colon = source.take_if(at, Symbol::Colon);
        return Ok(ArmHead::Default { word, colon });
    }
    let labels = list(source, at, depth)?;
    let colon = source.expect(at, Symbol::Colon)?;
    Ok(ArmHead::Labels { labels, colon })
}

/// An arm with its statement.
///
/// `NoMemory`: there was none left.
pub fn arm(alloc: Global, head: ArmHead, body: Stmt) -> Result<Arm, ParseFault>
    ensures made { IfOk result (λ x. x ≡ forms.arm head body) }
    ensures fault { IfErr result (λ f. f ≡ ParseFault.NoMemory) }
{
    let body = boxed(alloc, body)?;
    Ok(match head {
        ArmHead::Labels { labels, colon } => Arm::Labels {
            first: labels.first,
            more: labels.more,
            colon,
            body,
        },
        ArmHead::Default { word, colon } => Arm::Default { word, colon, body },
    })
}

/// A `case` with its arms.
pub fn case_of(head: CaseHead, arms: Items<Arm>, end: Token) -> Stmt
    ensures { result ≡ forms.case_of head arms end }
{
    let CaseHead {
        word,
        open,
        subject,
        close,
    } = head;
    Stmt::Case {
        word,
        open,
        subject,
        close,
        arms,
        end,
    }
}
