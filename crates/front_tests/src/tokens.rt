//! Tokens of texts, and spellings of numbers.

ghost use Rattle.std.specs.Prelude.{◌<◌, length};

use std::alloc::Global;
use sv_lex::{Defect, LexFault, Piece, check_numbers, front, lex, lex_up_to};
use sv_tree::{NameId, Names, Token, TokenKind};
use vs_base::Origin;

#[test]
fn the_longest_token_is_taken_at_each_place(rt: HostRuntime) -> Result<(), LexFault> {
    let alloc = rt.alloc();
    let Ok(mut names) = Names::new(alloc) else {
        return Err(LexFault::NoMemory);
    };
    let tokens = lex(alloc, 7, b"a<<<b\r\n/**/ 8'hFF//x\n\t-8", &mut names)?;
    let want = [
        (TokenKind::Name, 0, 1, 1),
        (TokenKind::Mark, 1, 1, 2),
        (TokenKind::Name, 2, 1, 5),
        (TokenKind::Decimal, 3, 2, 6),
        (TokenKind::Based, 4, 2, 7),
        (TokenKind::Mark, 5, 3, 2),
        (TokenKind::Decimal, 3, 3, 3),
    ];
    assert_eq!(rt; tokens.len(), want.len());
    for (token, (kind, name, line, col)) in tokens.iter().zip(want) {
        let file = 7;
        let at = Origin { file, line, col };
        let name = NameId(name);
        assert_eq!(rt; *token, Token { kind, name, at });
    }
    Ok(())
}

#[test]
fn tokens_past_the_limit_come_before_a_later_defect(rt: HostRuntime) -> Result<(), LexFault> {
    let alloc = rt.alloc();
    let Ok(mut names) = Names::new(alloc) else {
        return Err(LexFault::NoMemory);
    };
    let three = lex_up_to(alloc, 0, b"; ; ; ", &mut names, 3)?;
    assert_eq!(rt; three.len(), 3);
    let four = lex_up_to(alloc, 0, b";;;\\", &mut names, 2);
    assert!(rt; matches!(four, Err(LexFault::TooMany)));
    Ok(())
}

#[test]
fn the_first_spelling_that_is_no_number_is_told(rt: HostRuntime) -> Result<(), LexFault> {
    let alloc = rt.alloc();
    let Ok(mut names) = Names::new(alloc) else {
        return Err(LexFault::NoMemory);
    };
    let tokens = lex(alloc, 0, b"8'hFF 1 'h_ 'hx", &mut names)?;
    assert!(rt; tokens.len() < 100);
    assert_eq!(rt; check_numbers(&tokens, &names), Err(3));
    Ok(())
}

#[test]
fn a_piece_stands_at_the_front(rt: HostRuntime) {
    let table = [
        (b"".as_slice(), Piece::Wrong(Defect::BadChar)),
        (b" a".as_slice(), Piece::Skipped(1)),
        (b"/* a */ b".as_slice(), Piece::Skipped(7)),
        (b"end end".as_slice(), Piece::Spelled(TokenKind::Word, 3)),
        (b"===".as_slice(), Piece::Spelled(TokenKind::Mark, 3)),
        (b"\"".as_slice(), Piece::Wrong(Defect::OpenString)),
    ];
    for (bytes, want) in table {
        assert!(rt; bytes.len() < 100);
        assert_eq!(rt; front(bytes), want);
    }
}
