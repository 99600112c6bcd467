//! Copies of designs.
ghost use Rattle.std.specs.Prelude.{◌≡◌, IfOk};

use crate::copied::{Copied, copies};
use crate::stmt::copy_stmts;
use rtl_ir::{Design, FlatScope, Import, Mem, Port, Proc, ProcKind, Var};
use sqlite_items::Items;
use std::alloc::{AllocError, Global};
use vs_base::Text;

fn copy_text(alloc: Global, text: &Text) -> Result<Text, AllocError>
    ensures { IfOk result (λ copy. copy ≡ text.now) }
{
    let bytes = Vec::from_slice(alloc, text.as_bytes())?;
    Ok(Text::new(bytes))
}

impl Copied for Var {
    fn copied(&self, alloc: Global) -> Result<Var, AllocError> {
        let path = copy_text(alloc, &self.path)?;
        let name = copy_text(alloc, &self.name)?;
        Ok(Var {
            path,
            name,
            width: self.width,
            lsb: self.lsb,
            signed: self.signed,
            init: self.init,
            scope: self.scope,
        })
    }
}

impl Copied for Mem {
    fn copied(&self, alloc: Global) -> Result<Mem, AllocError> {
        let path = copy_text(alloc, &self.path)?;
        Ok(Mem {
            path,
            width: self.width,
            lsb: self.lsb,
            signed: self.signed,
            low: self.low,
            count: self.count,
            scope: self.scope,
        })
    }
}

fn copy_kind(alloc: Global, kind: &ProcKind) -> Result<ProcKind, AllocError>
    ensures { IfOk result (λ copy. copy ≡ kind.now) }
{
    match kind {
        ProcKind::Comb => Ok(ProcKind::Comb),
        ProcKind::Clocked(events) => {
            Ok(ProcKind::Clocked(Items::from_slice(alloc, events.as_slice())?))
        }
    }
}

impl Copied for Proc {
    fn copied(&self, alloc: Global) -> Result<Proc, AllocError> {
        let kind = copy_kind(alloc, &self.kind)?;
        let body = copy_stmts(alloc, self.body.as_slice())?;
        Ok(Proc {
            kind,
            body,
            at: self.at,
        })
    }
}

impl Copied for Import {
    fn copied(&self, alloc: Global) -> Result<Import, AllocError> {
        let name = copy_text(alloc, &self.name)?;
        let args = Items::from_slice(alloc, self.args.as_slice())?;
        Ok(Import {
            name,
            declared_pure: self.declared_pure,
            args,
            result: self.result,
            at: self.at,
        })
    }
}

impl Copied for FlatScope {
    fn copied(&self, alloc: Global) -> Result<FlatScope, AllocError> {
        let path = copy_text(alloc, &self.path)?;
        Ok(FlatScope {
            path,
            parent: self.parent,
            block: self.block,
        })
    }
}

// What holds a value or does work.
#[derive(Drop)]
struct Holders {
    vars: Items<Var>,
    mems: Items<Mem>,
    procs: Items<Proc>,
}

fn copy_holders(alloc: Global, design: &Design) -> Result<Holders, AllocError>
    ensures vars { IfOk result (λ copy. copy.vars ≡ design.now.vars) }
    ensures mems { IfOk result (λ copy. copy.mems ≡ design.now.mems) }
    ensures procs { IfOk result (λ copy. copy.procs ≡ design.now.procs) }
{
    let vars = copies(alloc, design.vars.as_slice())?;
    let mems = copies(alloc, design.mems.as_slice())?;
    let procs = copies(alloc, design.procs.as_slice())?;
    Ok(Holders { vars, mems, procs })
}

// What is outside, and where everything stands.
#[derive(Drop)]
struct Surroundings {
    imports: Items<Import>,
    ports: Items<Port>,
    scopes: Items<FlatScope>,
}

fn copy_surroundings(alloc: Global, design: &Design) -> Result<Surroundings, AllocError>
    ensures imports { IfOk result (λ copy. copy.imports ≡ design.now.imports) }
    ensures ports { IfOk result (λ copy. copy.ports ≡ design.now.ports) }
    ensures scopes { IfOk result (λ copy. copy.scopes ≡ design.now.scopes) }
{
    let imports = copies(alloc, design.imports.as_slice())?;
    let ports = Items::from_slice(alloc, design.ports.as_slice())?;
    let scopes = copies(alloc, design.scopes.as_slice())?;
    Ok(Surroundings {
        imports,
        ports,
        scopes,
    })
}

/// An equal design.
pub fn copy_design(alloc: Global, design: &Design) -> Result<Design, AllocError>
    ensures { IfOk result (λ copy. copy ≡ design.now) }
{
    let holders = copy_holders(alloc, design)?;
    let surroundings = copy_surroundings(alloc, design)?;
    Ok(Design {
        vars: holders.vars,
        mems: holders.mems,
        procs: holders.procs,
        imports: surroundings.imports,
        ports: surroundings.ports,
        scopes: surroundings.scopes,
    })
}
