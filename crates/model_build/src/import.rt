//! What the host tells of the imports of a design.

ghost use Rattle.std.specs.Prelude.{◌≡◌, ◌<◌, ◌≤◌, ℕ, length, map, position, slice_index_or, unwrap_or, IfOk, IfErr, OnOk, None, false};
ghost use Rattle.model_build.specs.Imports as spec;
ghost use Rattle.proc_calls.specs.Calls.{is_called};

use crate::fault::BuildFault;
use dpi_host::{Host, Mode, deemed};
use proc_calls::called_imports;
use rtl_ir::{Design, Import};
use sqlite_items::Items;
use std::alloc::{AllocError, Global};
use vs_base::Text;

/// How an import is used.
#[derive(Clone, Copy, Debug, PartialEq, Eq)]
pub struct ImportUse {
    /// Some process calls it.
    pub called: bool,
    /// It is taken as safe to call from several threads.
    pub deemed: bool,
    /// The host's number of it.
    pub id: Option<u32>,
    /// The host answers by its arguments alone at that number, or at 0 where there is none.
    pub by_args: bool,
}

/// Of each import how it is used, in order.
pub(crate) fn uses_of<H: Host>(
    alloc: Global,
    design: &Design,
    mode: Mode,
    host: &H,
) -> Result<Vec<ImportUse>, AllocError>
    ensures { IfOk result (λ uses. uses.items ≡ spec.uses_of (H.id_of (H.fixed host.now)) (H.by_args (H.fixed host.now)) mode design.now) }
{
    let called = called_imports(alloc, design)?;
    list_uses(
        alloc,
        called.as_slice(),
        design.imports.as_slice(),
        mode,
        host,
    )
}

// Of each import how it is used, where it is told which are called.
fn list_uses<H: Host>(
    alloc: Global,
    called: &[bool],
    imports: &[Import],
    mode: Mode,
    host: &H,
) -> Result<Vec<ImportUse>, AllocError>
    requires { length called.now ≡ length imports.now }
    ensures { IfOk result (λ uses. uses.items ≡ spec.uses_from (H.id_of (H.fixed host.now)) (H.by_args (H.fixed host.now)) mode (λ k. slice_index_or called.now k false) 0 imports.now) }
{
    let mut uses = Vec::new(alloc);
    let mut number: usize = 0;
    let mut rest = imports;
    'imports: while let [import, more @ ..] = rest {
        uses.push(use_of(import, called[number], mode, host))?;
        number += 1;
        rest = more;
    }
    Ok(uses)
}

fn use_of<H: Host>(import: &Import, called: bool, mode: Mode, host: &H) -> ImportUse
    ensures { result ≡ spec.use_of (H.id_of (H.fixed host.now)) (H.by_args (H.fixed host.now)) mode called import.now }
{
    let id = host.find(import.name.as_bytes());
    ImportUse {
        called,
        deemed: deemed(mode, import.declared_pure),
        id,
        by_args: host.by_args(id.unwrap_or(0)),
    }
}

/// Refuses the first import that is called and unknown, and then the first that is called, deemed safe and does not answer
/// by its arguments alone.
pub(crate) fn check_uses(
    alloc: Global,
    imports: &[Import],
    uses: &[ImportUse],
) -> Result<(), BuildFault>
    requires { length uses.now ≡ length imports.now }
    ensures fine { OnOk result (spec.AllAnswer uses.now) }
    ensures refused { IfErr result (spec.ImportFault imports.now uses.now) }
{
    if let Some(number) = first_unknown(uses) {
        return Err(BuildFault::UnknownImport(name_of(alloc, imports, number)?));
    }
    if let Some(number) = first_unsafe(uses) {
        return Err(BuildFault::NotByArguments(name_of(alloc, imports, number)?));
    }
    Ok(())
}

fn name_of(alloc: Global, imports: &[Import], number: usize) -> Result<Text, AllocError>
    requires { number < length imports.now }
    ensures { IfOk result (λ text. text ≡ spec.import_name imports.now number) }
{
    let name = Vec::from_slice(alloc, imports[number].name.as_bytes())?;
    Ok(Text::new(name))
}

fn first_unknown(uses: &[ImportUse]) -> Option<usize>
    ensures { result ≡ position spec.is_unknown uses.now }
{
    uses.iter().position(|u| u.called && u.id.is_none())
}

fn first_unsafe(uses: &[ImportUse]) -> Option<usize>
    ensures { result ≡ position spec.is_unsafe uses.now }
{
    uses.iter().position(|u| u.called && u.deemed && !u.by_args)
}

/// Of each import whether it is deemed safe.
pub(crate) fn deemed_of(alloc: Global, uses: &[ImportUse]) -> Result<Items<bool>, AllocError>
    ensures { IfOk result (λ list. list ≡ map (λ u. u.deemed) uses.now) }
{
    let mut list = Items::new(alloc);
    for used in uses {
        list.push(used.deemed)?;
    }
    Ok(list)
}

/// The host's number of each import; 0 where there is none.
pub(crate) fn ids_of(alloc: Global, uses: &[ImportUse]) -> Result<Items<u32>, AllocError>
    ensures { IfOk result (λ list. list ≡ map (λ u. unwrap_or u.id 0) uses.now) }
{
    let mut list = Items::new(alloc);
    for used in uses {
        list.push(used.id.unwrap_or(0))?;
    }
    Ok(list)
}
