//! Processes (IEEE 1800-2017 A.6.2).

ghost use Rattle.std.specs.Prelude.{◌≡◌, ◌<◌, ◌≤◌, ℕ, length, false, IfOk, IfErr, OnOk};
ghost use Rattle.sv_tree.specs.Symbol.{same, is_always, is_event_mark};
ghost use Rattle.sv_tree.specs.TreeItem as tree;
ghost use Rattle.sv_tree.specs.TreeRead.{◌then◌, each, joined, list_by, one_of, token};
ghost use Rattle.parse_expr.specs.Input.{symbol_at};
ghost use Rattle.parse_expr.specs.Parsed.{Parsed, IsWithin};
ghost use Rattle.parse_stmt.specs.Body.{ParsedBody};
ghost use Rattle.parse_item.specs.Parts as parts;

use crate::class::{is_edge, is_event_mark};
use parse_expr::{ParseFault, Source, push, syntax};
use parse_stmt::stmt;
use sqlite_items::Items;
use sv_tree::{CommaList, Event, Item, Joined, Stmt, Symbol, Token};

/// What stands before the statement of a process.
#[derive(Drop)]
pub enum ProcessHead {
    /// `"always_comb"`
    Comb(Token),
    /// `"always" "@" "*"`
    Star {
        word: Token,
        mark: Token,
        star: Token,
    },
    /// `"always" "@" "(" "*" ")"`
    ParenStar {
        word: Token,
        mark: Token,
        open: Token,
        star: Token,
        close: Token,
    },
    /// `( "always_ff" | "always" ) "@" "(" event { ( "or" | "," ) event } ")"`
    Clocked {
        word: Token,
        mark: Token,
        open: Token,
        events: CommaList<Event>,
        close: Token,
    },
}

/// A process.
pub fn process(source: &Source<'_>, at: &mut usize, depth: u32) -> Result<Item, ParseFault>
    requires deep { depth ≤ 128 }
    requires within { at.old ≤ length source.now.tokens }
    ensures reads { IfOk result (λ x. ParsedBody source.now depth at.old at.new (tree.item_read x)) }
    ensures fault { IfErr result (λ f. IsWithin source.now f) }
{
    let head = process_head(source, at, depth)?;
    let body = stmt(source, at, depth)?;
    Ok(process_of(head, body))
}

/// The process of a head and a statement.
fn process_of(head: ProcessHead, body: Stmt) -> Item
    ensures { result ≡ parts.process_of head body }
{
    match head {
        ProcessHead::Comb(word) => Item::Comb { word, body },
        ProcessHead::Star { word, mark, star } => Item::Star {
            word,
            at: mark,
            star,
            body,
        },
        ProcessHead::ParenStar {
            word,
            mark,
            open,
            star,
            close,
        } => Item::ParenStar {
            word,
            at: mark,
            open,
            star,
            close,
            body,
        },
        ProcessHead::Clocked {
            word,
            mark,
            open,
            events,
            close,
        } => Item::Clocked {
            word,
            at: mark,
            open,
            events,
            close,
            body,
        },
    }
}

fn process_head(source: &Source<'_>, at: &mut usize, depth: u32) -> Result<ProcessHead, ParseFault>
    requires deep { depth ≤ 128 }
    requires within { at.old ≤ length source.now.tokens }
    ensures reads { IfOk result (λ x. Parsed source.now depth at.old at.new (parts.process_head x)) }
    ensures first { OnOk result (same Symbol.If (symbol_at source.now at.old) ≡ false) }
    ensures fault { IfErr result (λ f. IsWithin source.now f) }
{
    if source.sees(*at, Symbol::AlwaysFf) {
        return clocked_head(source, at, depth);
    }
    if source.sees(*at, Symbol::Always) {
        return always_head(source, at, depth);
    }
    let word = source.expect(at, Symbol::AlwaysComb)?;
    Ok(ProcessHead::Comb(word))
}

/// `"always_ff" "@" "(" event { ( "or" | "," ) event } ")"`
fn clocked_head(source: &Source<'_>, at: &mut usize, depth: u32) -> Result<ProcessHead, ParseFault>
    requires deep { depth ≤ 128 }
    requires within { at.old ≤ length source.now.tokens }
    ensures reads { IfOk result (λ x. Parsed source.now depth at.old at.new (parts.process_head x)) }
    ensures first { OnOk result (same Symbol.If (symbol_at source.now at.old) ≡ false) }
    ensures fault { IfErr result (λ f. IsWithin source.now f) }
{
    let word = source.expect(at, Symbol::AlwaysFf)?;
    let mark = source.expect(at, Symbol::At)?;
    let open = source.expect(at, Symbol::ParenOpen)?;
    clocked(source, at, depth, word, mark, open)
}

/// `"always" "@" ( "*" | "(" "*" ")" | "(" event { ( "or" | "," ) event } ")" )`
fn always_head(source: &Source<'_>, at: &mut usize, depth: u32) -> Result<ProcessHead, ParseFault>
    requires deep { depth ≤ 128 }
    requires within { at.old ≤ length source.now.tokens }
    ensures reads { IfOk result (λ x. Parsed source.now depth at.old at.new (parts.process_head x)) }
    ensures first { OnOk result (same Symbol.If (symbol_at source.now at.old) ≡ false) }
    ensures fault { IfErr result (λ f. IsWithin source.now f) }
{
    let word = source.expect(at, Symbol::Always)?;
    let mark = source.expect(at, Symbol::At)?;
    if source.sees(*at, Symbol::Star) {
        let star = source.expect(at, Symbol::Star)?;
        return Ok(ProcessHead::Star { word, mark, star });
    }
    let open = source.expect(at, Symbol::ParenOpen)?;
    if source.sees(*at, Symbol::Star) {
        let star = source.expect(at, Symbol::Star)?;
        let close = source.expect(at, Symbol::ParenClose)?;
        return Ok(ProcessHead::ParenStar {
            word,
            mark,
            open,
            star,
            close,
        });
    }
    clocked(source, at, depth, word, mark, open)
}

/// `event { ( "or" | "," ) event } ")"`, after what begins a clocked process.
fn clocked(
    source: &Source<'_>,
    at: &mut usize,
    depth: u32,
    word: Token,
    mark: Token,
    paren: Token,
) -> Result<ProcessHead, ParseFault>
    requires deep { depth ≤ 128 }
    requires within { at.old ≤ length source.now.tokens }
    ensures reads { IfOk result (λ x. (start : ℕ)
        → Parsed source.now depth start at.old (one_of is_always word then token Symbol.At mark then token Symbol.ParenOpen paren)
        → Parsed source.now depth start at.new (parts.process_head x)) }
    ensures fault { IfErr result (λ f. IsWithin source.now f) }
{
    let events = events(source, at, depth)?;
    let close = source.expect(at, Symbol::ParenClose)?;
    Ok(ProcessHead::Clocked {
        word,
        mark,
        open: paren,
        events,
        close,
    })
}

/// `event { ( "or" | "," ) event }`
fn events(source: &Source<'_>, at: &mut usize, depth: u32) -> Result<CommaList<Event>, ParseFault>
    requires deep { depth ≤ 128 }
    requires within { at.old ≤ length source.now.tokens }
    ensures reads { IfOk result (λ x. Parsed source.now depth at.old at.new (list_by is_event_mark tree.event x)) }
    ensures fault { IfErr result (λ f. IsWithin source.now f) }
{
    let first = event(source, at, depth)?;
    let mut more = Items::new(source.alloc());
    'events: while is_event_mark(source.peek(*at)) {
        let mark = source.take(at)?;
        let item = event(source, at, depth)?;
        push(&mut more, Joined { mark, item })?;
    }
    Ok(CommaList { first, more })
}

/// `( "posedge" | "negedge" ) NAME`
fn event(source: &Source<'_>, at: &mut usize, depth: u32) -> Result<Event, ParseFault>
    requires deep { depth ≤ 128 }
    requires within { at.old ≤ length source.now.tokens }
    ensures reads { IfOk result (λ x. Parsed source.now depth at.old at.new (tree.event x)) }
    ensures fault { IfErr result (λ f. IsWithin source.now f) }
{
    if !is_edge(source.peek(*at)) {
        return Err(syntax(*at));
    }
    let edge = source.take(at)?;
    let name = source.expect(at, Symbol::Name)?;
    Ok(Event { edge, name })
}
