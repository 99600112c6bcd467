//! The active tokens of files.

ghost use Rattle.std.specs.Prelude.{◌≡◌, ◌<◌, ◌≤◌, ◌+◌, length, drop, map, IfOk, IfErr, MatchResult, List};
ghost use Rattle.std.specs.List.{list_all};
ghost use Rattle.sv_tree.specs.Tokens.{AreNamed};
ghost use Rattle.sv_pp.specs.Active as spec;
ghost use Rattle.sv_pp.specs.Active.{State, Branch};
ghost use Rattle.sv_pp.specs.Reading.{Macros, silent, stopped};
ghost use Rattle.sv_pp.specs.Reading as said;
ghost use Rattle.sv_pp.specs.Directive.{Text, role_of};
ghost use Rattle.sv_pp.specs.Shown.{Stacked, Shows, Went, Stops, Takes, ReadsFile, test_of};
ghost use Rattle.sv_pp.specs.Answer.{IsSpelled, AllNamed, ReadsAs, FaultIs};

use crate::directive::{Role, role_of};
use crate::fault::PpFault;
use crate::macros::Table;
use crate::reading::{Going, named_by, read_use};
use std::alloc::Global;
use sv_tree::{Names, Token, TokenKind};
use vs_base::Origin;
use vs_base::limits::{MACRO_DEPTH, TOKENS};

/// An open `` `ifdef `` or `` `ifndef ``.
#[derive(Clone, Copy, Debug, PartialEq, Eq)]
pub struct Open {
    /// Its place.
    pub at: Origin,
    /// Whether tokens round it are active.
    pub outer: bool,
    /// Whether the branch that is read is the one taken.
    pub taken: bool,
    /// Whether that is the branch after `` `else ``.
    pub is_else: bool,
}

/// Where a file has been read to: the macros, and the open branches, the innermost last.
#[derive(Drop)]
pub struct Place {
    pub table: Table,
    pub branches: Vec<Open>,
}

/// Whether tokens are active here.
fn is_active(branches: &[Open]) -> bool
    ensures { (bs : List Branch) → Stacked branches.now bs → result ≡ list_all spec.is_taken bs }
{
    let [.., last] = branches else {
        return true;
    };
    last.taken && last.outer
}

/// How many tokens at the front begin on the line.
fn line_length(line: u32, tokens: &[Token]) -> usize
    ensures value { result ≡ spec.line_length line tokens.now }
    ensures within { result ≤ length tokens.now }
{
    let mut rest = tokens;
    let mut count = 0;
    while let [token, more @ ..] = rest {
        if token.at.line != line {
            return count;
        }
        count += 1;
        rest = more;
    }
    count
}

/// The tokens after so many.
fn without_front(tokens: &[Token], count: usize) -> &[Token]
    requires { count ≤ length tokens.now }
    ensures { result.now ≡ drop count tokens.now }
{
    &tokens[count..]
}

/// Whether `(` follows the name in the next column.
fn opens_arguments(names: &Names, name: &Token, rest: &[Token]) -> bool
    requires name { name.now.name.0 < length names.now }
    requires named { AreNamed names.now rest.now }
    ensures { result ≡ spec.opens_arguments names.now name.now rest.now }
{
    let [next, ..] = rest else {
        return false;
    };
    let after = name.at.col as u64 + names.text(name.name).len() as u64;
    next.at.line == name.at.line
        && next.at.col as u64 == after
        && names.text(next.name) == b"(".as_slice()
}

/// Whether the name may not be defined: a directive's, or one with arguments.
fn is_undefinable(names: &Names, name: &Token, rest: &[Token]) -> bool
    requires name { name.now.name.0 < length names.now }
    requires named { AreNamed names.now rest.now }
    ensures { result ≡ spec.is_undefinable names.now name.now rest.now }
{
    role_of(names.text(name.name)) != Role::Use || opens_arguments(names, name, rest)
}

/// So many tokens are read, and then the directive is faulty.
fn refuse(going: &mut Going, count: usize, token: &Token) -> Result<usize, PpFault>
    ensures { MatchResult result (λ _. ⊥) (λ f. Stops going.old (stopped count (PpFault.Directive token.now.at token.now.name)) f) }
{
    if let Err(fault) = going.read(count) {
        return Err(fault);
    }
    Err(PpFault::Directive(token.at, token.name))
}

/// Reads a definition after its name.
fn define_as(
    alloc: Global,
    place: &mut Place,
    going: &mut Going,
    line: u32,
    name: &Token,
    rest: &[Token],
) -> Result<usize, PpFault>
    requires { name.now.name.0 < length place.old.table }
    ensures { (names : List Text) → name.now.name.0 < length names → AreNamed names rest.now → Takes names place.old going.old place.new going.new result (λ s. spec.define_as names s name.now rest.now (spec.line_length line rest.now)) }
{
    let more = line_length(line, rest);
    if let Err(fault) = going.read(more + 2) {
        return Err(fault);
    }
    if let Err(fault) = place.table.define(alloc, name.name, &rest[..more]) {
        return Err(fault);
    }
    Ok(more + 1)
}

/// Reads a definition.
fn define(
    alloc: Global,
    names: &Names,
    place: &mut Place,
    going: &mut Going,
    token: &Token,
    rest: &[Token],
) -> Result<usize, PpFault>
    requires named { AreNamed names.now rest.now }
    requires shown { (s : State) × Shows names.now place.old s }
    ensures { Takes names.now place.old going.old place.new going.new result (λ s. spec.define_step names.now s token.now rest.now) }
{
    let [name, more @ ..] = rest else {
        return refuse(going, 1, token);
    };
    if name.kind != TokenKind::Name || name.at.line != token.at.line {
        return refuse(going, 1, token);
    }
    if is_undefinable(names, name, more) {
        return refuse(going, 2, token);
    }
    define_as(alloc, place, going, token.at.line, name, more)
}

/// Reads an `` `undef ``.
fn undef(
    place: &mut Place,
    going: &mut Going,
    token: &Token,
    rest: &[Token],
) -> Result<usize, PpFault>
    requires { (names : List Text) × AreNamed names rest.now × (length place.old.table ≡ length names) }
    ensures { (names : List Text) → AreNamed names rest.now → Takes names place.old going.old place.new going.new result (λ s. spec.undef_step names s token.now rest.now) }
{
    let [name, ..] = rest else {
        return refuse(going, 1, token);
    };
    if name.kind != TokenKind::Name {
        return refuse(going, 1, token);
    }
    if let Err(fault) = going.read(2) {
        return Err(fault);
    }
    place.table.forget(name.name);
    Ok(1)
}

/// Opens a branch that is taken where the name's being defined is as wanted.
fn open_as(
    names: &Names,
    place: &mut Place,
    going: &mut Going,
    wanted: bool,
    token: &Token,
    name: &Token,
) -> Result<usize, PpFault>
    requires name { name.now.name.0 < length names.now }
    ensures { Takes names.now place.old going.old place.new going.new result (λ s. spec.open_as names.now (test_of wanted) s token.now name.now) }
{
    if let Err(fault) = going.read(2) {
        return Err(fault);
    }
    let is_defined = place.table.body(names, names.text(name.name)).is_some();
    let opened = Open {
        at: token.at,
        outer: is_active(&place.branches),
        taken: is_defined == wanted,
        is_else: false,
    };
    let Ok(()) = place.branches.push(opened) else {
        return Err(PpFault::NoMemory);
    };
    Ok(1)
}

/// Reads an `` `ifdef `` or `` `ifndef ``.
fn open_if(
    names: &Names,
    place: &mut Place,
    going: &mut Going,
    wanted: bool,
    token: &Token,
    rest: &[Token],
) -> Result<usize, PpFault>
    requires named { AreNamed names.now rest.now }
    ensures { Takes names.now place.old going.old place.new going.new result (λ s. spec.if_step names.now (test_of wanted) s token.now rest.now) }
{
    let [name, ..] = rest else {
        return refuse(going, 1, token);
    };
    if name.kind != TokenKind::Name {
        return refuse(going, 1, token);
    }
    open_as(names, place, going, wanted, token, name)
}

/// Turns to the other branch of the innermost.
fn turn(place: &mut Place, going: &mut Going, token: &Token) -> Result<usize, PpFault>
    ensures { (names : List Text) → Takes names place.old going.old place.new going.new result (λ s. spec.else_by s.branches s token.now) }
{
    if let Err(fault) = going.read(1) {
        return Err(fault);
    }
    let Some(last) = place.branches.pop() else {
        return Err(PpFault::StrayElse(token.at));
    };
    if last.is_else {
        return Err(PpFault::StrayElse(token.at));
    }
    let turned = Open {
        at: last.at,
        outer: last.outer,
        taken: !last.taken,
        is_else: true,
    };
    let Ok(()) = place.branches.push(turned) else {
        return Err(PpFault::NoMemory);
    };
    Ok(0)
}

/// Closes the innermost branch.
fn close(place: &mut Place, going: &mut Going, token: &Token) -> Result<usize, PpFault>
    ensures { (names : List Text) → Takes names place.old going.old place.new going.new result (λ s. spec.endif_by s.branches s token.now) }
{
    if let Err(fault) = going.read(1) {
        return Err(fault);
    }
    let Some(_) = place.branches.pop() else {
        return Err(PpFault::StrayElse(token.at));
    };
    Ok(0)
}

/// Reads the token and so many after it, none of them active.
fn skip(going: &mut Going, more: usize) -> Result<usize, PpFault>
    ensures { MatchResult result (λ n. (n ≡ more) × Went going.old going.new (silent (more + 1))) (λ f. Stops going.old (silent (more + 1)) f) }
{
    if let Err(fault) = going.read(1) {
        return Err(fault);
    }
    if let Err(fault) = going.read(more) {
        return Err(fault);
    }
    Ok(more)
}

/// Reads a directive where tokens are not active.
fn skip_directive(
    names: &Names,
    place: &mut Place,
    going: &mut Going,
    token: &Token,
    rest: &[Token],
) -> Result<usize, PpFault>
    requires token { token.now.name.0 < length names.now }
    requires named { AreNamed names.now rest.now }
    ensures { Takes names.now place.old going.old place.new going.new result (λ s. spec.skipped_step names.now s (role_of (said.named_by names.now token.now)) token.now rest.now) }
{
    match role_of(named_by(names, token)) {
        Role::Ifdef => open_if(names, place, going, true, token, rest),
        Role::Ifndef => open_if(names, place, going, false, token, rest),
        Role::Else => turn(place, going, token),
        Role::Endif => close(place, going, token),
        _ => skip(going, 0),
    }
}

/// Reads the use of a macro in a file.
fn use_in_file(
    names: &Names,
    place: &Place,
    going: &mut Going,
    token: &Token,
) -> Result<usize, PpFault>
    requires token { token.now.name.0 < length names.now }
    requires shown { (s : State) × Shows names.now place.now s }
    ensures { Takes names.now place.now going.old place.now going.new result (λ s. spec.use_step names.now s token.now) }
{
    if let Err(fault) = read_use(names, &place.table, going, token.at, MACRO_DEPTH, token) {
        return Err(fault);
    }
    Ok(0)
}

/// Reads a directive where tokens are active.
fn read_directive(
    alloc: Global,
    names: &Names,
    place: &mut Place,
    going: &mut Going,
    token: &Token,
    rest: &[Token],
) -> Result<usize, PpFault>
    requires token { token.now.name.0 < length names.now }
    requires named { AreNamed names.now rest.now }
    requires shown { (s : State) × Shows names.now place.old s }
    ensures { Takes names.now place.old going.old place.new going.new result (λ s. spec.directive_step names.now s (role_of (said.named_by names.now token.now)) token.now rest.now) }
{
    match role_of(named_by(names, token)) {
        Role::Define => define(alloc, names, place, going, token, rest),
        Role::Undef => undef(place, going, token, rest),
        Role::Ifdef => open_if(names, place, going, true, token, rest),
        Role::Ifndef => open_if(names, place, going, false, token, rest),
        Role::Else => turn(place, going, token),
        Role::Endif => close(place, going, token),
        Role::Ignored => skip(going, line_length(token.at.line, rest)),
        Role::Refused => refuse(going, 1, token),
        Role::Use => use_in_file(names, place, going, token),
    }
}

/// Reads a token that is no directive.
fn read_plain(place: &Place, going: &mut Going, token: &Token) -> Result<usize, PpFault>
    ensures { (names : List Text) → Takes names place.now going.old place.now going.new result (λ s. spec.plain_step s token.now) }
{
    if !is_active(&place.branches) {
        return skip(going, 0);
    }
    if let Err(fault) = going.give(*token) {
        return Err(fault);
    }
    Ok(0)
}

/// Reads a token of a file; how many of those after it belong to it.
fn step(
    alloc: Global,
    names: &Names,
    place: &mut Place,
    going: &mut Going,
    token: &Token,
    rest: &[Token],
) -> Result<usize, PpFault>
    requires token { token.now.name.0 < length names.now }
    requires named { AreNamed names.now rest.now }
    requires shown { (s : State) × Shows names.now place.old s }
    ensures { Takes names.now place.old going.old place.new going.new result (λ s. spec.step names.now s token.now rest.now) }
{
    if token.kind != TokenKind::Directive {
        return read_plain(place, going, token);
    }
    if is_active(&place.branches) {
        return read_directive(alloc, names, place, going, token, rest);
    }
    skip_directive(names, place, going, token, rest)
}

/// Reads a file; its branches are closed at its end.
fn read_file(
    alloc: Global,
    names: &Names,
    place: &mut Place,
    going: &mut Going,
    tokens: &[Token],
) -> Result<(), PpFault>
    requires few { going.old.count ≤ going.old.most }
    requires named { AreNamed names.now tokens.now }
    requires shown { (macros : Macros) × Shows names.now place.old (spec.at_start macros) }
    ensures { ReadsFile names.now place.old going.old place.new going.new result tokens.now }
{
    let mut rest = tokens;
    while let [token, after @ ..] = rest {
        let more = match step(alloc, names, place, going, token, after) {
            Ok(more) => more,
            Err(fault) => return Err(fault),
        };
        rest = without_front(after, more);
    }
    if let [first, ..] = place.branches.as_slice() {
        return Err(PpFault::OpenIf(first.at));
    }
    Ok(())
}

/// The active tokens of the files, of which at most 1,000,000 are read (IEEE 1800-2017 clause 22).
///
/// `UnknownMacro`, `MacroDepth`, `OpenIf`, `StrayElse`, `Directive`: the first fault in the order of
/// reading, where at most 1,000,000 tokens are read up to it. `TooMany`: more are read up to the
/// first other fault, or to the end. `NoMemory`: there was none left.
pub fn preprocess(alloc: Global, files: &[Vec<Token>], names: &Names) -> Result<Vec<Token>, PpFault>
    requires named { AllNamed names.now (map (λ file. file.items) files.now) }
    ensures tokens { IfOk result (λ tokens. ReadsAs 1000000 tokens.items (spec.reading names.now (map (λ file. file.items) files.now))) }
    ensures named { IfOk result (λ tokens. AreNamed names.now tokens.items) }
    ensures few { IfOk result (λ tokens. length tokens.items ≤ 1000000) }
    ensures fault { IfErr result (λ f. FaultIs 1000000 f (spec.reading names.now (map (λ file. file.items) files.now))) }
    ensures spelled { IfErr result (λ f. IsSpelled names.now f) }
{
    match preprocess_up_to(alloc, files, names, TOKENS) {
        Ok(tokens) => Ok(tokens),
        Err(fault) => Err(fault),
    }
}

/// As [`preprocess`], with the greatest number of tokens read as an argument.
pub fn preprocess_up_to(
    alloc: Global,
    files: &[Vec<Token>],
    names: &Names,
    most: usize,
) -> Result<Vec<Token>, PpFault>
    requires named { AllNamed names.now (map (λ file. file.items) files.now) }
    ensures tokens { IfOk result (λ tokens. ReadsAs most tokens.items (spec.reading names.now (map (λ file. file.items) files.now))) }
    ensures named { IfOk result (λ tokens. AreNamed names.now tokens.items) }
    ensures few { IfOk result (λ tokens. length tokens.items ≤ most) }
    ensures fault { IfErr result (λ f. FaultIs most f (spec.reading names.now (map (λ file. file.items) files.now))) }
{
    let mut place = Place {
        table: Table::new(alloc, names)?,
        branches: Vec::new(alloc),
    };
    let mut going = Going {
        tokens: Vec::new(alloc),
        count: 0,
        most,
    };
    let mut rest = files;
    while let [file, more @ ..] = rest {
        if let Err(fault) = read_file(alloc, names, &mut place, &mut going, file) {
            return Err(fault);
        }
        rest = more;
    }
    Ok(going.tokens)
}
