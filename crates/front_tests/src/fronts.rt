//! How much of a text each reader of expressions, types and statements takes, and where it breaks.

use parse_expr::{
    ParseFault, Source, argument_type, data_type, dimension, expr, lvalue, outside, result_type,
};
use parse_stmt::{item_loop, named_word, stmt, stmt_loop, test};
use std::alloc::Global;
use sv_lex::lex;
use sv_tree::{Names, Symbol};

/// What is read at the front of a text.
#[derive(Clone, Copy)]
enum Front {
    Expr,
    Lvalue,
    Type,
    Result,
    Argument,
    Dimension,
    Stmt,
    Test,
    StmtLoop,
    ItemLoop,
    End,
}

fn read_expr(source: &Source<'_>) -> Result<usize, ParseFault> {
    let mut at = 0;
    let _ = expr(source, &mut at, 0)?;
    Ok(at)
}

fn read_lvalue(source: &Source<'_>) -> Result<usize, ParseFault> {
    let mut at = 0;
    let _ = lvalue(source, &mut at, 0)?;
    Ok(at)
}

fn read_type(source: &Source<'_>) -> Result<usize, ParseFault> {
    let mut at = 0;
    let _ = data_type(source, &mut at, 0)?;
    Ok(at)
}

fn read_result(source: &Source<'_>) -> Result<usize, ParseFault> {
    let mut at = 0;
    result_type(source, &mut at, 0)?;
    Ok(at)
}

fn read_argument(source: &Source<'_>) -> Result<usize, ParseFault> {
    let mut at = 0;
    argument_type(source, &mut at, 0)?;
    Ok(at)
}

fn read_dimension(source: &Source<'_>) -> Result<usize, ParseFault> {
    let mut at = 0;
    let _ = dimension(source, &mut at, 0)?;
    Ok(at)
}

fn read_stmt(source: &Source<'_>) -> Result<usize, ParseFault> {
    let mut at = 0;
    stmt(source, &mut at, 0)?;
    Ok(at)
}

fn read_test(source: &Source<'_>) -> Result<usize, ParseFault> {
    let mut at = 0;
    test(source, &mut at, 0)?;
    Ok(at)
}

fn read_stmt_loop(source: &Source<'_>) -> Result<usize, ParseFault> {
    let mut at = 0;
    stmt_loop(source, &mut at, 0)?;
    Ok(at)
}

fn read_item_loop(source: &Source<'_>) -> Result<usize, ParseFault> {
    let mut at = 0;
    item_loop(source, &mut at, 0)?;
    Ok(at)
}

fn read_end(source: &Source<'_>) -> Result<usize, ParseFault> {
    let mut at = 0;
    named_word(source, &mut at, 0, Symbol::End)?;
    Ok(at)
}

/// The place after what is read at the front of the tokens.
fn read(source: &Source<'_>, front: Front) -> Result<usize, ParseFault> {
    match front {
        Front::Expr => read_expr(source),
        Front::Lvalue => read_lvalue(source),
        Front::Type => read_type(source),
        Front::Result => read_result(source),
        Front::Argument => read_argument(source),
        Front::Dimension => read_dimension(source),
        Front::Stmt => read_stmt(source),
        Front::Test => read_test(source),
        Front::StmtLoop => read_stmt_loop(source),
        Front::ItemLoop => read_item_loop(source),
        Front::End => read_end(source),
    }
}

/// The place after what is read at the front of a text.
fn taken(alloc: Global, text: &str, front: Front) -> Result<usize, ParseFault> {
    if text.len() > 1000 {
        return Err(ParseFault::NoMemory);
    }
    let Ok(mut names) = Names::new(alloc) else {
        return Err(ParseFault::NoMemory);
    };
    let Ok(tokens) = lex(alloc, 0, text.as_bytes(), &mut names) else {
        return Err(ParseFault::NoMemory);
    };
    let source = Source::new(alloc, tokens.as_slice(), &names)?;
    read(&source, front)
}

#[test]
fn each_reader_takes_what_belongs_to_it(rt: HostRuntime) {
    let table = [
        (Front::Expr, "x || y ? {2{a}} : -b[1:0] ;", Ok(18)),
        (Front::Expr, "a[1 +: 2:", Err(ParseFault::Syntax(5))),
        (Front::Lvalue, "{a, {b, c[1]}} = d", Ok(12)),
        (Front::Type, "logic signed [7:0] x", Ok(7)),
        (Front::Result, "void f", Ok(1)),
        (Front::Argument, "void x", Err(ParseFault::Syntax(0))),
        (Front::Dimension, "[0:7] ;", Ok(5)),
        (Front::Stmt, "if (a) if (b) ; else ; else ; else", Ok(13)),
        (Front::Test, "if (a) ;", Ok(4)),
        (
            Front::StmtLoop,
            "for (integer i = 0; i < 2; i += 1) ;",
            Ok(15),
        ),
        (Front::ItemLoop, "for (i = 0; i < 2; --i) ;", Ok(13)),
        (Front::End, "end : a ;", Ok(3)),
    ];
    for (front, text, end) in table {
        assert_eq!(rt; taken(rt.alloc(), text, front), end, "{text}");
    }
}

/// The first token of a text that is outside of the subset.
fn outside_in(alloc: Global, text: &str) -> Result<Option<usize>, ParseFault> {
    if text.len() > 1000 {
        return Err(ParseFault::NoMemory);
    }
    let Ok(mut names) = Names::new(alloc) else {
        return Err(ParseFault::NoMemory);
    };
    let Ok(tokens) = lex(alloc, 0, text.as_bytes(), &mut names) else {
        return Err(ParseFault::NoMemory);
    };
    Ok(outside(tokens.as_slice(), &names))
}

#[test]
fn the_first_token_outside_is_found(rt: HostRuntime) {
    assert_eq!(rt; outside_in(rt.alloc(), "m #(1) u(); a <= b;"), Ok(None));
    assert_eq!(rt; outside_in(rt.alloc(), "a ; # 1 initial"), Ok(Some(2)));
}
