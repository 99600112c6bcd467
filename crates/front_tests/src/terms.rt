//! What a walk over an expression meets, and the second `default` of a `case`.

use parse_expr::{Source, expr};
use parse_stmt::stmt;
use std::alloc::Global;
use std::test::Fail;
use sv_lex::lex;
use sv_names::find_second_default;
use sv_tree::{Args, Names, Select, Token};
use sv_walk::{Visit, first_token, visit_expr};

/// How many terms there are, and the columns of the names that are read: those whose place needs a constant, and others.
#[derive(Clone, Copy, Debug, PartialEq, Eq)]
struct Seen {
    terms: u32,
    constant: u32,
    other: u32,
}

impl Visit for Seen {
    ghost told = { λ event old new. Unit {0} };

    fn name(&mut self, name: Token, _selects: &[Select], constant: bool) {
        let digits = if constant { self.constant } else { self.other };
        let digits = digits.wrapping_mul(10).wrapping_add(name.at.col);
        if constant {
            self.constant = digits;
        } else {
            self.other = digits;
        }
    }

    fn call(&mut self, _name: Token, _args: &Args, _constant: bool) {}

    fn target(&mut self, _name: Token, _selects: &[Select]) {}

    fn term(&mut self) {
        self.terms = self.terms.wrapping_add(1);
    }
}

/// What is seen in the expression at the front, and the column of its first token.
fn seen_at(source: &Source<'_>, names: &Names) -> Option<(Seen, u32)> {
    let mut at = 0;
    let mut seen = Seen {
        terms: 0,
        constant: 0,
        other: 0,
    };
    match expr(source, &mut at, 0) {
        Ok(tree) => {
            visit_expr(names, &mut seen, &tree, false);
            Some((seen, first_token(&tree).at.col))
        }
        Err(_) => None,
    }
}

fn seen_in(alloc: Global, text: &str) -> Result<Option<(Seen, u32)>, Fail> {
    if text.len() > 1000 {
        return Ok(None);
    }
    let mut names = Names::new(alloc)?;
    let Ok(tokens) = lex(alloc, 0, text.as_bytes(), &mut names) else {
        return Ok(None);
    };
    let Ok(source) = Source::new(alloc, tokens.as_slice(), &names) else {
        return Ok(None);
    };
    Ok(seen_at(&source, &names))
}

#[test]
fn ends_are_constant_and_an_index_is_not(rt: HostRuntime) -> Result<(), Fail> {
    let table = [("- -v[a:b]", (6, 68, 4)), ("- -v[a +: b]", (6, 11, 46))];
    for (text, (terms, constant, other)) in table {
        let want = Seen {
            terms,
            constant,
            other,
        };
        assert_eq!(rt; seen_in(rt.alloc(), text)?, Some((want, 1)), "{text}");
    }
    Ok(())
}

/// The column of the second `default` in the statement at the front.
fn second_at(source: &Source<'_>) -> Option<u32> {
    let mut at = 0;
    let mut found = None;
    match stmt(source, &mut at, 0) {
        Ok(tree) => find_second_default(&mut found, &tree),
        Err(_) => {}
    }
    found.map(|word| word.at.col)
}

fn second_in(alloc: Global, text: &str) -> Result<Option<u32>, Fail> {
    if text.len() > 1000 {
        return Ok(None);
    }
    let mut names = Names::new(alloc)?;
    let Ok(tokens) = lex(alloc, 0, text.as_bytes(), &mut names) else {
        return Ok(None);
    };
    let Ok(source) = Source::new(alloc, tokens.as_slice(), &names) else {
        return Ok(None);
    };
    Ok(second_at(&source))
}

#[test]
fn the_second_default_of_a_case_is_found(rt: HostRuntime) -> Result<(), Fail> {
    let table = [
        ("case (a) default: ; endcase", None),
        ("case (a) default: ; default: ; endcase", Some(21)),
    ];
    for (text, want) in table {
        assert_eq!(rt; second_in(rt.alloc(), text)?, want, "{text}");
    }
    Ok(())
}
