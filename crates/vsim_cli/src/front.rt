// From the bytes of the files to the laid out design.
ghost use Rattle.std.specs.Prelude.{◌≡◌, ◌≤◌, List, All, length, map, IfOk, OnErr, IfErr, IfSome, is_some, true};
ghost use Rattle.sv_tree.specs.Tokens.{AreNamed};
ghost use Rattle.sv_tree.specs.Names.{IsAbsent};
ghost use Rattle.run_status.specs.Stages.{RefusedBy};
ghost use Rattle.vsim_cli.specs.Case.{Command as CommandOf};
ghost use Rattle.vsim_cli.specs.Refusals.{ending_of};
ghost use Rattle.vsim_cli.specs.Front.{Asked, told_token, BytesRefused, AreActive, TokensRefused, IsTree, DesignRefused, IsLaid};

use crate::lexing::lex_files;
use crate::refusal::Refusal;
use parse_expr::ParseFault;
use std::alloc::Global;
use sv_elab::{Scopes, elaborate};
use sv_lex::check_numbers;
use sv_names::DesignFault;
use sv_parse::parse;
use sv_pp::preprocess;
use sv_tree::{NameId, Names, SourceTree, Token};
use vs_base::Text;

/// The active tokens of all files: their bytes are cut into tokens, file by file, and then preprocessed.
pub fn active_tokens(
    alloc: Global,
    files: &[Vec<u8>],
    names: &mut Names,
) -> Result<Vec<Token>, Refusal>
    requires count { length files.now ≤ 64 }
    requires bytes { All (λ bytes. length bytes.items ≤ 4194304) files.now }
    ensures active { IfOk result (λ tokens. AreActive (map (λ f. f.items) files.now) names.new tokens.items) }
    ensures named { IfOk result (λ tokens. AreNamed names.new tokens.items) }
    ensures few { IfOk result (λ tokens. length tokens.items ≤ 1000000) }
    ensures refusal { IfErr result (λ r. (c : CommandOf) → RefusedBy (ending_of c names.new r) (BytesRefused c.files (map (λ f. f.items) files.now))) }
{
    let tokens = match lex_files(alloc, files, names) {
        Ok(tokens) => tokens,
        Err(fault) => return Err(Refusal::Lexing(fault)),
    };
    match preprocess(alloc, &tokens, names) {
        Ok(active) => Ok(active),
        Err(fault) => Err(Refusal::Preprocessing(fault)),
    }
}

// The token that a fault tells, where there is one.
fn token_of(tokens: &[Token], fault: ParseFault) -> Option<Token>
    ensures { result ≡ told_token tokens.now fault }
{
    match fault {
        ParseFault::Construct(k) | ParseFault::Syntax(k) | ParseFault::TooDeep(k) => {
            tokens.get(k as usize).copied()
        }
        ParseFault::NoMemory => None,
    }
}

/// The tree that the active tokens have: their numbers are numbers, none is outside of the subset, and no thing stands in
/// more than 128 things.
pub fn tree_of(alloc: Global, names: &Names, tokens: &[Token]) -> Result<SourceTree, Refusal>
    requires named { AreNamed names.now tokens.now }
    requires few { length tokens.now ≤ 1000000 }
    ensures tree { IfOk result (λ tree. IsTree names.now tokens.now tree) }
    ensures refusal { IfErr result (λ r. (c : CommandOf) → RefusedBy (ending_of c names.now r) (TokensRefused c.files names.now tokens.now)) }
{
    match check_numbers(tokens, names) {
        Ok(()) => {}
        Err(k) => return Err(Refusal::Number(tokens[k as usize].at)),
    }
    match parse(alloc, tokens, names) {
        Ok(tree) => Ok(tree),
        Err(fault) => Err(Refusal::Parsing(fault, token_of(tokens, fault))),
    }
}

// No token has the name that the module at the top is to have.
#[derive(Clone, Copy, Debug, PartialEq, Eq)]
struct NoSuchName;

// The number of the name that the module at the top is to have, where one is asked for; or a name that no token has.
fn asked(names: &Names, top: &Option<Text>) -> Result<Option<NameId>, NoSuchName>
    ensures asked { IfOk result (λ n. Asked names.now top.now n) }
    ensures absent { OnErr result (IfSome top.now (IsAbsent names.now)) }
    ensures named { OnErr result (is_some top.now ≡ true) }
{
    let Some(text) = top else {
        return Ok(None);
    };
    match names.find(text.as_bytes()) {
        Some(name) => Ok(Some(name)),
        None => Err(NoSuchName),
    }
}

/// The scopes of the design, from its top module.
pub fn lay_out(
    alloc: Global,
    top: &Option<Text>,
    names: &Names,
    tree: &SourceTree,
) -> Result<Scopes, Refusal>
    ensures laid { IfOk result (λ scopes. IsLaid top.now names.now tree.now scopes.scopes.items) }
    ensures refusal { IfErr result (λ r. (c : CommandOf) → RefusedBy (ending_of c names.now r) (DesignRefused c.files top.now names.now tree.now)) }
{
    let name = match asked(names, top) {
        Ok(name) => name,
        Err(NoSuchName) => return Err(Refusal::Design(DesignFault::NoTop)),
    };
    match elaborate(alloc, tree, names, name) {
        Ok(scopes) => Ok(scopes),
        Err(fault) => Err(Refusal::Design(fault)),
    }
}
