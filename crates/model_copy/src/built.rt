//! Copies of compiled models.
ghost use Rattle.std.specs.Prelude.{◌≡◌, IfOk};
ghost use Rattle.model_copy.specs.Copies.{RunsAs};

use crate::copied::{Copied, copies};
use crate::design::copy_design;
use crate::plan::copy_plan;
use dpi_host::NoMemory;
use plan_types::{Built, ValidPlan};
use rtl_ir::Design;
use rtl_pieces::Layout;
use sqlite_items::Items;
use std::alloc::{AllocError, Global};
use task_eval::Code;

impl Copied for Code {
    fn copied(&self, alloc: Global) -> Result<Code, AllocError> {
        match self.copy(alloc) {
            Ok(code) => Ok(code),
            Err(_) => Err(AllocError),
        }
    }
}

fn copy_layout(alloc: Global, layout: &Layout) -> Result<Layout, AllocError>
    ensures { IfOk result (λ copy. copy.words.items ≡ layout.now.words.items) }
{
    let words = Vec::from_slice(alloc, layout.words.as_slice())?;
    Ok(Layout { words })
}

// What is run, and on which words.
#[derive(Drop)]
struct Machinery {
    design: Design,
    layout: Layout,
    codes: Items<Code>,
}

fn copy_machinery(alloc: Global, built: &Built) -> Result<Machinery, AllocError>
    ensures design { IfOk result (λ copy. copy.design ≡ built.now.design) }
    ensures words { IfOk result (λ copy. copy.layout.words.items ≡ built.now.layout.words.items) }
    ensures codes { IfOk result (λ copy. copy.codes ≡ built.now.codes) }
{
    let design = copy_design(alloc, &built.design)?;
    let layout = copy_layout(alloc, &built.layout)?;
    let codes = copies(alloc, built.codes.as_slice())?;
    Ok(Machinery {
        design,
        layout,
        codes,
    })
}

// In which order it is run.
#[derive(Drop)]
struct Plans {
    settle: ValidPlan,
    clocked: ValidPlan,
}

fn copy_plans(alloc: Global, built: &Built) -> Result<Plans, AllocError>
    ensures settle { IfOk result (λ copy. copy.settle ≡ built.now.settle) }
    ensures clocked { IfOk result (λ copy. copy.clocked ≡ built.now.clocked) }
{
    let settle = copy_plan(alloc, &built.settle)?;
    let clocked = copy_plan(alloc, &built.clocked)?;
    Ok(Plans { settle, clocked })
}

// What is known of the imports.
#[derive(Drop)]
struct Outside {
    deemed: Items<bool>,
    ids: Items<u32>,
}

fn copy_outside(alloc: Global, built: &Built) -> Result<Outside, AllocError>
    ensures deemed { IfOk result (λ copy. copy.deemed ≡ built.now.deemed) }
    ensures ids { IfOk result (λ copy. copy.ids ≡ built.now.ids) }
{
    let deemed = Items::from_slice(alloc, built.deemed.as_slice())?;
    let ids = Items::from_slice(alloc, built.ids.as_slice())?;
    Ok(Outside { deemed, ids })
}

fn copied(alloc: Global, built: &Built) -> Result<Built, AllocError>
    ensures design { IfOk result (λ copy. copy.design ≡ built.now.design) }
    ensures words { IfOk result (λ copy. copy.layout.words.items ≡ built.now.layout.words.items) }
    ensures codes { IfOk result (λ copy. copy.codes ≡ built.now.codes) }
    ensures settle { IfOk result (λ copy. copy.settle ≡ built.now.settle) }
    ensures clocked { IfOk result (λ copy. copy.clocked ≡ built.now.clocked) }
    ensures deemed { IfOk result (λ copy. copy.deemed ≡ built.now.deemed) }
    ensures ids { IfOk result (λ copy. copy.ids ≡ built.now.ids) }
{
    let machinery = copy_machinery(alloc, built)?;
    let plans = copy_plans(alloc, built)?;
    let outside = copy_outside(alloc, built)?;
    Ok(Built {
        design: machinery.design,
        layout: machinery.layout,
        codes: machinery.codes,
        settle: plans.settle,
        clocked: plans.clocked,
        deemed: outside.deemed,
        ids: outside.ids,
    })
}

/// A copy of a model, with memory of its own: the same design, words, codes, plans and imports, so that each run of it is a
/// run of the model.
///
/// `NoMemory`: there was none left.
pub fn copy_built(alloc: Global, built: &Built) -> Result<Built, NoMemory>
    ensures design { IfOk result (λ copy. copy.design ≡ built.now.design) }
    ensures words { IfOk result (λ copy. copy.layout.words.items ≡ built.now.layout.words.items) }
    ensures codes { IfOk result (λ copy. copy.codes ≡ built.now.codes) }
    ensures settle { IfOk result (λ copy. copy.settle ≡ built.now.settle) }
    ensures clocked { IfOk result (λ copy. copy.clocked ≡ built.now.clocked) }
    ensures deemed { IfOk result (λ copy. copy.deemed ≡ built.now.deemed) }
    ensures ids { IfOk result (λ copy. copy.ids ≡ built.now.ids) }
    ensures runs { IfOk result (λ copy. RunsAs copy built.now) }
{
    match copied(alloc, built) {
        Ok(copy) => Ok(copy),
        Err(_) => Err(NoMemory),
    }
}
