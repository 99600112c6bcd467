//! Tables of names, and symbols.

use sv_tree::{NameId, Names, NoMemory, Symbol, Token, TokenKind, symbol_of};
use vs_base::Origin;

fn token(number: u32) -> Token {
    Token {
        kind: TokenKind::Mark,
        name: NameId(number),
        at: Origin {
            file: 0,
            line: 1,
            col: 1,
        },
    }
}

#[test]
fn a_token_is_what_its_kind_and_spelling_say(rt: HostRuntime) -> Result<(), NoMemory> {
    let table = [
        (TokenKind::Word, b"always_ff".as_slice(), Symbol::AlwaysFf),
        (TokenKind::Word, b"initial".as_slice(), Symbol::Other),
        (TokenKind::Mark, b"<=".as_slice(), Symbol::LessEqual),
        (TokenKind::Mark, b"**".as_slice(), Symbol::Other),
        (TokenKind::Name, b"q".as_slice(), Symbol::Name),
        (TokenKind::Directive, b"`define".as_slice(), Symbol::Other),
    ];
    let mut names = Names::new(rt.alloc())?;
    for (kind, text, want) in table {
        let name = names.intern(rt.alloc(), text)?;
        let token = Token { kind, ..token(0) };
        let token = Token { name, ..token };
        assert_eq!(rt; symbol_of(&names, token), want, "a symbol");
    }
    Ok(())
}

#[test]
fn numbers_come_in_order_and_stay(rt: HostRuntime) -> Result<(), NoMemory> {
    let alloc = rt.alloc();
    let mut names = Names::new(alloc)?;
    assert_eq!(rt; names.len(), 0);
    let table = [
        (b"clk".as_slice(), 0),
        (b"rst".as_slice(), 1),
        (b"clk".as_slice(), 0),
        (b"".as_slice(), 2),
        (b"clk_n".as_slice(), 3),
        (b"rst".as_slice(), 1),
    ];
    for (text, want) in table {
        let id = names.intern(alloc, text)?;
        assert_eq!(rt; id, NameId(want), "a number");
        assert_eq!(rt; names.find(text), Some(NameId(want)), "found");
    }
    assert_eq!(rt; names.len(), 4);
    assert_eq!(rt; names.find(b"Clk"), None);
    assert!(rt; names.len() > 3);
    assert_eq!(rt; names.text(NameId(1)), b"rst".as_slice());
    assert_eq!(rt; names.text(NameId(3)), b"clk_n".as_slice());
    Ok(())
}
