//! The order of a waveform's text: the lines of its header, and the variables in them.

ghost use Rattle.std.specs.Prelude.{◌≡◌, ◌<◌, ◌+◌, ◌++◌, ◌∷◌, OnOk, IfOk, All, map, length, true};
ghost use Rattle.vcd_out.specs.Places.{IsLinked, places_from, owners_of, outer_of, outers_of, are_first};
ghost use Rattle.vcd_out.specs.Layout.{scope_lines, lines_of, declared_line, order_in};

use crate::links::Links;
use rtl_ir::{Design, FlatScope, Var};
use std::alloc::{AllocError, Global};

/// A line of the header between its first and its last lines.
#[derive(Clone, Copy)]
pub enum Line {
    /// The scope of this number begins.
    Opens(usize),
    /// The variable of this number.
    Declares(usize),
    /// The innermost scope that has begun ends.
    Closes,
}

/// The lines of the header of a design, in order. It takes time and memory in proportion to its scopes and variables.
pub fn lines_of(alloc: Global, design: &Design) -> Result<Vec<Line>, AllocError>
    ensures { IfOk result (λ lines. lines.items ≡ lines_of design.now.vars design.now.scopes) }
{
    let vars = linked_vars(alloc, design)?;
    let scopes = linked_scopes(alloc, design)?;
    walk(alloc, &vars, &scopes)
}

// The variables by their scopes.
fn linked_vars(alloc: Global, design: &Design) -> Result<Links, AllocError>
    ensures keys { IfOk result (λ l. l.keys.items ≡ owners_of design.now.vars) }
    ensures bound { IfOk result (λ l. length l.first.items ≡ length design.now.scopes) }
    ensures linked { IfOk result (λ l. IsLinked l.keys.items l.first.items l.next.items) }
{
    let owners = owners(alloc, design.vars.as_slice())?;
    Links::new(alloc, owners, design.scopes.len())
}

// The scopes by the scopes round them.
fn linked_scopes(alloc: Global, design: &Design) -> Result<Links, AllocError>
    ensures keys { IfOk result (λ l. l.keys.items ≡ outers_of design.now.scopes) }
    ensures bound { IfOk result (λ l. length l.first.items ≡ length design.now.scopes + 1) }
    ensures linked { IfOk result (λ l. IsLinked l.keys.items l.first.items l.next.items) }
{
    let scopes = design.scopes.as_slice();
    let outers = outers(alloc, scopes)?;
    Links::new(alloc, outers, scopes.len() + 1)
}

// The scopes of variables.
fn owners(alloc: Global, vars: &[Var]) -> Result<Vec<usize>, AllocError>
    ensures { IfOk result (λ owners. owners.items ≡ owners_of vars.now) }
{
    let mut owners = Vec::new(alloc);
    for var in vars {
        owners.push(var.scope as usize)?;
    }
    Ok(owners)
}

// The scopes round scopes, each by its number and one; 0 where there is none.
fn outers(alloc: Global, scopes: &[FlatScope]) -> Result<Vec<usize>, AllocError>
    ensures { IfOk result (λ outers. outers.items ≡ outers_of scopes.now) }
{
    let mut outers = Vec::new(alloc);
    for scope in scopes {
        outers.push(outer(scope.parent))?;
    }
    Ok(outers)
}

fn outer(parent: Option<u32>) -> usize
    ensures { result ≡ outer_of parent }
{
    match parent {
        Some(parent) => parent as usize + 1,
        None => 0,
    }
}

// The lines of the scopes that stand in none, of variables and scopes by their keys.
fn walk(alloc: Global, vars: &Links, scopes: &Links) -> Result<Vec<Line>, AllocError>
    requires vars { IsLinked vars.now.keys.items vars.now.first.items vars.now.next.items }
    requires owners { length vars.now.first.items ≡ length scopes.now.keys.items }
    requires scopes { IsLinked scopes.now.keys.items scopes.now.first.items scopes.now.next.items }
    requires outers { length scopes.now.first.items ≡ length scopes.now.keys.items + 1 }
    requires outers_first { are_first 0 scopes.now.keys.items ≡ true }
    ensures { IfOk result (λ lines. lines.items ≡ scope_lines vars.now.keys.items 0 scopes.now.keys.items 0) }
{
    let mut lines = Vec::new(alloc);
    let mut open: Vec<usize> = Vec::new(alloc);
    let mut next = scopes.first_of(0);
    'walk: loop {
        match next {
            Some(scope) => {
                enter(&mut lines, vars, scope)?;
                open.push(scope)?;
                next = scopes.first_of(scope + 1);
            }
            None => {
                let Some(scope) = open.pop() else {
                    return Ok(lines);
                };
                lines.push(Line::Closes)?;
                next = scopes.after(scope);
            }
        }
    }
}

// Adds the first line of a scope and those of its variables.
fn enter(lines: &mut Vec<Line>, vars: &Links, scope: usize) -> Result<(), AllocError>
    requires linked { IsLinked vars.now.keys.items vars.now.first.items vars.now.next.items }
    requires known { scope < length vars.now.first.items }
    ensures { OnOk result (lines.new.items ≡ lines.old.items ++ Line.Opens scope ∷ map declared_line (places_from 0 vars.now.keys.items scope)) }
{
    lines.push(Line::Opens(scope))?;
    let mut next = vars.first_of(scope);
    'vars: while let Some(var) = next {
        lines.push(Line::Declares(var))?;
        next = vars.after(var);
    }
    Ok(())
}

/// The variables of lines, in their order.
pub fn order_in(alloc: Global, lines: &[Line]) -> Result<Vec<usize>, AllocError>
    ensures { IfOk result (λ order. order.items ≡ order_in lines.now) }
{
    let mut order = Vec::new(alloc);
    let mut rest = lines;
    'lines: while let [line, more @ ..] = rest {
        if let Line::Declares(var) = line {
            order.push(*var)?;
        }
        rest = more;
    }
    Ok(order)
}
