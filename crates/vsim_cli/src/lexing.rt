// The tokens of all files.
ghost use Rattle.std.specs.Prelude.{◌≤◌, length, map, All, IfOk, IfErr};
ghost use Rattle.vsim_cli.specs.Lexing.{FirstFault, AreLexed};

use std::alloc::Global;
use sv_lex::{LexFault, lex};
use sv_tree::{Names, Token};

/// The tokens of each file, over one table of names; or the first fault, file by file.
pub fn lex_files(
    alloc: Global,
    files: &[Vec<u8>],
    names: &mut Names,
) -> Result<Vec<Vec<Token>>, LexFault>
    requires count { length files.now ≤ 64 }
    requires few { All (λ bytes. length bytes.items ≤ 4194304) files.now }
    ensures tokens { IfOk result (λ tokens. AreLexed (map (λ f. f.items) files.now) names.new (map (λ t. t.items) tokens.items)) }
    ensures fault { IfErr result (λ f. FirstFault (map (λ f. f.items) files.now) f) }
{
    let mut tokens = Vec::new(alloc);
    let mut at = 0;
    while at < files.len() {
        let found = match lex(alloc, at as u32, &files[at], names) {
            Ok(found) => found,
            Err(fault) => return Err(fault),
        };
        let Ok(()) = tokens.push(found) else {
            return Err(LexFault::NoMemory);
        };
        at += 1;
    }
    Ok(tokens)
}
