//! What has been read so far, and the reading of a macro's use.

ghost use Rattle.std.specs.Prelude.{◌≡◌, ◌<◌, ◌≤◌, length, OnOk, IfErr};
ghost use Rattle.sv_tree.specs.Tokens.{AreNamed};
ghost use Rattle.sv_pp.specs.Reading as spec;
ghost use Rattle.sv_pp.specs.Reading.{Macros, Reading};
ghost use Rattle.sv_pp.specs.Shown.{Went, Stops, Reads};
ghost use Rattle.sv_pp.specs.Table.{Keeps};

use crate::directive::{Role, role_of, without_backquote};
use crate::fault::PpFault;
use crate::macros::Table;
use sv_tree::{Names, Token, TokenKind};
use vs_base::Origin;

/// The active tokens so far, how many were read for them, and how many may be.
#[derive(Drop)]
pub struct Going {
    pub tokens: Vec<Token>,
    pub count: usize,
    pub most: usize,
}

impl Going {
    /// So many tokens are read.
    pub fn read(&mut self, count: usize) -> Result<(), PpFault>
        ensures went { OnOk result (Went self.old self.new (spec.silent count)) }
        ensures stops { IfErr result (λ f. (r : Reading) → count ≤ r.count → Stops self.old r f) }
    {
        if self.count > self.most || count > self.most - self.count {
            return Err(PpFault::TooMany);
        }
        self.count += count;
        Ok(())
    }

    /// A token is read and active.
    pub fn give(&mut self, token: Token) -> Result<(), PpFault>
        ensures { Reads self.old self.new result (spec.active token) }
    {
        if let Err(fault) = self.read(1) {
            return Err(fault);
        }
        let Ok(()) = self.tokens.push(token) else {
            return Err(PpFault::NoMemory);
        };
        Ok(())
    }
}

/// The name after a directive's backquote.
pub fn named_by<'a>(names: &'a Names, token: &Token) -> &'a [u8]
    requires { token.now.name.0 < length names.now }
    ensures { result.now ≡ spec.named_by names.now token.now }
{
    without_backquote(names.text(token.name))
}

/// Reads the use of a macro where macros may still nest so deep; `at` is the place of the use in the file.
#[cycle(uses)]
pub fn read_use(
    names: &Names,
    table: &Table,
    going: &mut Going,
    at: Origin,
    levels: u32,
    token: &Token,
) -> Result<(), PpFault>
    requires named { token.now.name.0 < length names.now }
    requires kept { (macros : Macros) × Keeps names.now table.now macros }
    ensures { (macros : Macros) → Keeps names.now table.now macros → Reads going.old going.new result (spec.use_reading names.now macros at levels token.now) }
{
    if let Err(fault) = going.read(1) {
        return Err(fault);
    }
    if levels == 0 {
        return Err(PpFault::MacroDepth(at));
    }
    let Some(body) = table.body(names, named_by(names, token)) else {
        return Err(PpFault::UnknownMacro(at, token.name));
    };
    read_body(names, table, going, at, levels - 1, body)
}

/// Reads a macro's text.
#[cycle(uses)]
fn read_body(
    names: &Names,
    table: &Table,
    going: &mut Going,
    at: Origin,
    levels: u32,
    body: &[Token],
) -> Result<(), PpFault>
    requires few { going.old.count ≤ going.old.most }
    requires named { AreNamed names.now body.now }
    requires kept { (macros : Macros) × Keeps names.now table.now macros }
    ensures { (macros : Macros) → Keeps names.now table.now macros → Reads going.old going.new result (spec.each_reading (spec.inner_reading names.now at (spec.use_reading names.now macros at levels)) body.now) }
{
    let mut rest = body;
    while let [token, more @ ..] = rest {
        if let Err(fault) = read_inner(names, table, going, at, levels, token) {
            return Err(fault);
        }
        rest = more;
    }
    Ok(())
}

/// Reads a token of a macro's text.
#[cycle(uses)]
fn read_inner(
    names: &Names,
    table: &Table,
    going: &mut Going,
    at: Origin,
    levels: u32,
    token: &Token,
) -> Result<(), PpFault>
    requires named { token.now.name.0 < length names.now }
    requires kept { (macros : Macros) × Keeps names.now table.now macros }
    ensures { (macros : Macros) → Keeps names.now table.now macros → Reads going.old going.new result (spec.inner_reading names.now at (spec.use_reading names.now macros at levels) token.now) }
{
    if token.kind != TokenKind::Directive {
        return going.give(Token {
            kind: token.kind,
            name: token.name,
            at,
        });
    }
    if role_of(named_by(names, token)) == Role::Use {
        return read_use(names, table, going, at, levels, token);
    }
    if let Err(fault) = going.read(1) {
        return Err(fault);
    }
    Err(PpFault::Directive(at, token.name))
}
