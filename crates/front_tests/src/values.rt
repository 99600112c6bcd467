//! Types and values of expressions and targets that stand in a text. The name with number 0 is a signed constant of 4 bits
//! with the value -1, the one with number 1 a signed variable of 16 bits, and no other name is declared.

use parse_expr::{Source, expr, lvalue};
use scope_table::ScopeTable;
use std::alloc::Global;
use std::test::Fail;
use sv_expr::{
    Declared, Denoted, Fixed, ScopeView, WalkFault, const_value, expr_type, lvalue_type, own_value,
};
use sv_lex::lex;
use sv_tree::{Expr, Lvalue, NameId, Names};
use vs_base::{Bits, Origin, ValueType};

/// What is asked of a text.
#[derive(Clone, Copy)]
enum Ask {
    Type,
    /// The value in a context of 8 bits with its own sign.
    Value,
    Own,
    Target,
}

/// What is answered: a width and whether there is a sign, a value, or the column of a fault.
#[derive(Clone, Copy, Debug, PartialEq, Eq)]
enum Answer {
    Type(u32, bool),
    Value(u128),
    Own(i64),
    TooWide(u32),
    BadRange(u32),
    NotRead,
}

fn refused(fault: WalkFault) -> Answer {
    match fault {
        WalkFault::TooWide(at) => Answer::TooWide(at.col),
        WalkFault::BadRange(at) => Answer::BadRange(at.col),
    }
}

fn type_of(found: Result<ValueType, WalkFault>) -> Answer {
    match found {
        Ok(kind) => Answer::Type(kind.width, kind.signed),
        Err(fault) => refused(fault),
    }
}

fn value_of(scope: &ScopeView<'_>, tree: &Expr) -> Answer {
    let signed = match expr_type(scope, tree) {
        Ok(kind) => kind.signed,
        Err(fault) => return refused(fault),
    };
    match const_value(scope, tree, ValueType { width: 8, signed }) {
        Ok(value) => Answer::Value(value.value()),
        Err(fault) => refused(fault),
    }
}

fn own_of(scope: &ScopeView<'_>, tree: &Expr) -> Answer {
    match own_value(scope, tree) {
        Ok(value) => Answer::Own(value.nearest()),
        Err(fault) => refused(fault),
    }
}

fn told(scope: &ScopeView<'_>, tree: &Expr, ask: Ask) -> Answer {
    match ask {
        Ask::Value => value_of(scope, tree),
        Ask::Own => own_of(scope, tree),
        _ => type_of(expr_type(scope, tree)),
    }
}

fn told_of_expr(source: &Source<'_>, scope: &ScopeView<'_>, ask: Ask) -> Answer {
    let mut at = 0;
    match expr(source, &mut at, 0) {
        Ok(tree) => told(scope, &tree, ask),
        Err(_) => Answer::NotRead,
    }
}

fn told_of_target(source: &Source<'_>, scope: &ScopeView<'_>) -> Answer {
    let mut at = 0;
    match lvalue(source, &mut at, 0) {
        Ok(tree) => type_of(lvalue_type(scope, &tree)),
        Err(_) => Answer::NotRead,
    }
}

fn declared(alloc: Global) -> Result<ScopeTable<Denoted>, Fail> {
    let constant = Fixed {
        kind: ValueType {
            width: 4,
            signed: true,
        },
        value: Bits::new(4, 0xf),
    };
    let variable = Declared {
        kind: ValueType {
            width: 16,
            signed: true,
        },
        item: 0,
    };
    let mut table = ScopeTable::new(alloc, 2, Denoted::Nothing)?;
    table.declare(NameId(0), Denoted::Constant(constant))?;
    table.declare(NameId(1), Denoted::Variable(variable))?;
    Ok(table)
}

/// The names of which the first two are `P` and `v`.
fn two_names(alloc: Global) -> Result<Names, Fail> {
    let mut names = Names::new(alloc)?;
    let _ = names.intern(alloc, b"P")?;
    let _ = names.intern(alloc, b"v")?;
    Ok(names)
}

fn asked(alloc: Global, text: &str, ask: Ask) -> Result<Answer, Fail> {
    if text.len() > 1000 {
        return Ok(Answer::NotRead);
    }
    let mut names = two_names(alloc)?;
    let Ok(tokens) = lex(alloc, 0, text.as_bytes(), &mut names) else {
        return Ok(Answer::NotRead);
    };
    let Ok(source) = Source::new(alloc, tokens.as_slice(), &names) else {
        return Ok(Answer::NotRead);
    };
    let table = declared(alloc)?;
    let scope = ScopeView {
        names: &names,
        table: &table,
    };
    match ask {
        Ask::Target => Ok(told_of_target(&source, &scope)),
        _ => Ok(told_of_expr(&source, &scope, ask)),
    }
}

#[test]
fn types_and_values_are_those_of_the_standard(rt: HostRuntime) -> Result<(), Fail> {
    let table = [
        (Ask::Type, "P + 4'hf", Answer::Type(4, false)),
        (Ask::Type, "3'b101 >>> 1", Answer::Type(3, false)),
        (Ask::Type, "P ? 3'sb101 : v", Answer::Type(16, true)),
        (Ask::Type, "{0{3'b1}}", Answer::BadRange(1)),
        (Ask::Value, "4'hf + 4'h1", Answer::Value(0x10)),
        (Ask::Value, "P", Answer::Value(0xff)),
        (Ask::Value, "{2{3'b101}}", Answer::Value(0x2d)),
        (Ask::Value, "$clog2(9) - 4 - 3", Answer::Value(0xfd)),
        (Ask::Value, "5 % 0", Answer::Value(0)),
        (Ask::Value, "3'sb101 >>> 1", Answer::Value(0xfe)),
        (Ask::Value, "$signed('1)", Answer::Value(0xff)),
        (Ask::Value, "9 - 4 - 3", Answer::Value(2)),
        (Ask::Value, "3 > 2 > 1", Answer::Value(0)),
        (Ask::Value, "3 && 2 && 0", Answer::Value(0)),
        (Ask::Value, "0 || 2 || 0", Answer::Value(1)),
        (Ask::Value, "~&3'b101 ? 3'sb101 : 8'h0", Answer::Value(5)),
        (Ask::Value, "{43{3'b1}}", Answer::TooWide(1)),
        (Ask::Value, "{0{200'b1}}", Answer::TooWide(4)),
        (Ask::Own, "-7 / 2", Answer::Own(-3)),
        (Ask::Own, "-8'sd128 / -8'sd1", Answer::Own(-128)),
        (
            Ask::Type,
            "v[128'h8000_0000_0000_0000_0000_0000_0000_0003:128'h8000_0000_0000_0000_0000_0000_0000_0000]",
            Answer::Type(4, false),
        ),
        (
            Ask::Type,
            "v[128'hffff_ffff_ffff_ffff_ffff_ffff_ffff_ffff:-1]",
            Answer::TooWide(2),
        ),
        (
            Ask::Type,
            "v[0:128'h8000_0000_0000_0000_0000_0000_0000_0000]",
            Answer::BadRange(2),
        ),
        (Ask::Type, "{128{1'b1}}", Answer::Type(128, false)),
        (
            Ask::Type,
            "{128'h1_0000_0000_0000_0001{1'b1}}",
            Answer::TooWide(1),
        ),
        (
            Ask::Own,
            "$signed(128'hffff_ffff_ffff_ffff_ffff_ffff_ffff_fffe) / 2",
            Answer::Own(-1),
        ),
        (
            Ask::Target,
            "{v, v, v, v, v, v, v, v}",
            Answer::Type(128, false),
        ),
        (
            Ask::Target,
            "{v, v, v, v, v, v, v, v, v}",
            Answer::TooWide(1),
        ),
    ];
    for (ask, text, want) in table {
        assert_eq!(rt; asked(rt.alloc(), text, ask)?, want, "{text}");
    }
    Ok(())
}
