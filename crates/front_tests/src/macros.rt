//! What is left of the tokens of files after the directives.

ghost use Rattle.std.specs.Prelude.{◌<◌, length, map, IfOk};
ghost use Rattle.sv_tree.specs.Names.{Grows};
ghost use Rattle.sv_tree.specs.Tokens.{AreNamed};
ghost use Rattle.sv_pp.specs.Answer.{AllNamed};

use std::alloc::Global;
use sv_lex::lex;
use sv_pp::{
    PpFault, Role, conditional, one_answer, plain_files, preprocess, preprocess_up_to, role_of,
    tokens_or_fault,
};
use sv_tree::{Names, Token};
use vs_base::Origin;

/// The tokens of a file in which the lexer finds no fault.
fn lexed(alloc: Global, file: u32, bytes: &[u8], names: &mut Names) -> Result<Vec<Token>, PpFault>
    ensures grows { Grows names.old names.new }
    ensures named { IfOk result (λ tokens. AreNamed names.new tokens.items) }
{
    if bytes.len() > 100_000 {
        return Err(PpFault::TooMany);
    }
    match lex(alloc, file, bytes, names) {
        Ok(tokens) => Ok(tokens),
        Err(_) => Err(PpFault::NoMemory),
    }
}

/// The tokens of two files.
fn both(
    alloc: Global,
    first: &[u8],
    second: &[u8],
    names: &mut Names,
) -> Result<Vec<Vec<Token>>, PpFault>
    ensures { IfOk result (λ files. AllNamed names.new (map (λ file. file.items) files.items)) }
{
    let first = match lexed(alloc, 0, first, names) {
        Ok(tokens) => tokens,
        Err(fault) => return Err(fault),
    };
    let second = match lexed(alloc, 1, second, names) {
        Ok(tokens) => tokens,
        Err(fault) => return Err(fault),
    };
    let Ok(files) = Vec::from_array(alloc, [first, second]) else {
        return Err(PpFault::NoMemory);
    };
    Ok(files)
}

#[test]
fn files_share_their_macros(rt: HostRuntime) -> Result<(), PpFault> {
    let alloc = rt.alloc();
    let Ok(mut names) = Names::new(alloc) else {
        return Err(PpFault::NoMemory);
    };
    let files = both(
        alloc,
        b"`define A + ;\na",
        b"`ifdef A `A `endif",
        &mut names,
    )?;
    let tokens = preprocess(alloc, &files, &names)?;
    assert_eq!(rt; tokens.len(), 3);
    let at = Origin {
        file: 1,
        line: 1,
        col: 10,
    };
    assert_eq!(rt; tokens[2].at, at);
    // 4 of the definition, 1 name, 2 of the branch, 3 of the use, 1 end
    assert!(rt; preprocess_up_to(alloc, &files, &names, 11).is_ok());
    let fewer = preprocess_up_to(alloc, &files, &names, 10);
    assert!(rt; matches!(fewer, Err(PpFault::TooMany)));
    Ok(())
}

#[test]
fn directives_have_their_names(rt: HostRuntime) {
    assert_eq!(rt; role_of(b"ifdef"), Role::Ifdef);
    assert_eq!(rt; role_of(b"elsif"), Role::Refused);
    assert_eq!(rt; role_of(b"pragma"), Role::Use);
    tokens_or_fault();
    one_answer();
    plain_files();
    conditional();
}
