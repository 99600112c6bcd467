//! What is noted of all modules before their names are looked at: which modules are instantiated, the first import
//! that is none of this subset (IEEE 1800-2017 35.5.2, 35.5.4), and the first second `default` of a `case` (12.5). One walk
//! over the items.

ghost use Rattle.std.specs.Prelude.{◌≡◌, map, IfOk, MatchResult, Some, None, get_or, []};
ghost use Rattle.sv_names.specs.Noted as spec;
ghost use Rattle.sv_names.specs.Noted.{Adds};

use crate::defaults::find_second_default;
use crate::imports::bad_import;
use std::alloc::Global;
use std::marker::Model;
use sv_tree::{
    Description, GenBlock, Import, Item, ItemBranch, NameId, Names, NoMemory, SourceTree, Stmt,
    Token,
};
use vs_base::Origin;

/// An item that instantiates a module.
#[derive(Clone, Copy)]
pub struct Use {
    /// The number, among the descriptions of the tree, of the module in which the item stands.
    pub inside: usize,
    /// The name of the module that it instantiates.
    pub child: NameId,
}

/// What is noted of a source.
#[derive(Drop)]
pub struct Noted {
    /// The instances in token order.
    pub uses: Vec<Use>,
    /// The place of the first bad import.
    pub bad: Option<Origin>,
    /// The first word `default` that is a second one of its `case`.
    pub twice: Option<Token>,
}

/// What was noted so far, or nothing from where memory ran out on: a walk then goes on to its end, and needs no test
/// after each item.
#[derive(Drop)]
pub struct Survey {
    uses: Vec<Use>,
    bad: Option<Origin>,
    twice: Option<Token>,
    failed: bool,
}

impl Model for Survey {
    ghost use Rattle.std.specs.Prelude.{Option, Some, None, map, if◌then◌else◌};
    ghost use Rattle.sv_names.specs.Noted.{Noted};

    ghost Value = { Option Noted };

    ghost view = { λ s. if s.failed then None else Some (record { used = map (λ u. u.child.0) s.uses.items; bad = s.bad; twice = s.twice }) };
}

impl Survey {
    /// Nothing is noted.
    pub fn new(alloc: Global) -> Survey
        ensures { result ≡ Some spec.nothing_noted }
    {
        Survey {
            uses: Vec::new(alloc),
            bad: None,
            twice: None,
            failed: false,
        }
    }

    /// Notes an instance.
    fn instance(&mut self, inside: usize, name: NameId)
        ensures { Adds self.old (spec.note_instance name.0) self.new }
    {
        if !self.failed {
            self.failed = self
                .uses
                .push(Use {
                    inside,
                    child: name,
                })
                .is_err();
        }
    }

    /// Notes an import.
    fn import(&mut self, names: &Names, import: &Import)
        ensures { Adds self.old (spec.note_import names.now import.now) self.new }
    {
        if self.bad.is_none() {
            self.bad = bad_import(names, import);
        }
    }

    /// Notes the body of a process.
    fn body(&mut self, body: &Stmt)
        ensures { Adds self.old (spec.note_body body.now) self.new }
    {
        find_second_default(&mut self.twice, body);
    }

    /// What was noted, or that memory ran out.
    pub fn into_noted(self) -> Result<Noted, NoMemory>
        ensures { MatchResult result (λ n. self ≡ Some (record { used = map (λ u. u.child.0) n.uses.items; bad = n.bad; twice = n.twice })) (λ fault. self ≡ None) }
    {
        let Survey {
            uses,
            bad,
            twice,
            failed,
        } = self;
        if failed {
            return Err(NoMemory);
        }
        Ok(Noted { uses, bad, twice })
    }
}

/// What is noted of a whole source.
pub fn survey_source(alloc: Global, names: &Names, tree: &SourceTree) -> Survey
    ensures { Adds (Some spec.nothing_noted) (spec.in_order (map (spec.description_notes names.now) tree.now.descriptions)) result }
{
    let mut met = Survey::new(alloc);
    for (at, description) in tree.descriptions.as_slice().iter().enumerate() {
        survey_description(&mut met, names, at, description);
    }
    met
}

fn survey_description(met: &mut Survey, names: &Names, at: usize, description: &Description)
    ensures { Adds met.old (spec.description_notes names.now description.now) met.new }
{
    match description {
        Description::Import(import) => met.import(names, import),
        Description::Module(module) => survey_items(met, names, at, module.items.as_slice()),
    }
}

#[cycle(survey)]
fn survey_items(met: &mut Survey, names: &Names, inside: usize, items: &[Item])
    ensures { Adds met.old (spec.in_order (map (spec.item_notes names.now) items.now)) met.new }
{
    for item in items {
        survey_item(met, names, inside, item);
    }
}

#[cycle(survey)]
fn survey_item(met: &mut Survey, names: &Names, inside: usize, item: &Item)
    ensures { Adds met.old (spec.item_notes names.now item.now) met.new }
{
    match item {
        Item::Import(import) => met.import(names, import),
        Item::Generate { items, .. } => survey_items(met, names, inside, items.as_slice()),
        Item::For { body, .. } => survey_block(met, names, inside, body.get()),
        Item::If { branches, body, .. } => {
            survey_branches(met, names, inside, branches.as_slice());
            survey_block(met, names, inside, body.get());
        }
        Item::IfElse { branches, last } => {
            survey_branches(met, names, inside, branches.as_slice());
            survey_block(met, names, inside, last.get());
        }
        Item::Instance { module, .. } => met.instance(inside, module.name),
        Item::Empty(_) => {}
        Item::Parameters { .. } => {}
        Item::Variables { .. } => {}
        Item::Assigns { .. } => {}
        Item::Comb { body, .. } => met.body(body),
        Item::Star { body, .. } => met.body(body),
        Item::ParenStar { body, .. } => met.body(body),
        Item::Clocked { body, .. } => met.body(body),
        Item::Genvars { .. } => {}
    }
}

#[cycle(survey)]
fn survey_branches(met: &mut Survey, names: &Names, inside: usize, branches: &[ItemBranch])
    ensures { Adds met.old (spec.in_order (map (spec.branch_notes names.now) branches.now)) met.new }
{
    for branch in branches {
        survey_block(met, names, inside, &branch.body);
    }
}

#[cycle(survey)]
fn survey_block(met: &mut Survey, names: &Names, inside: usize, block: &GenBlock)
    ensures { Adds met.old (spec.block_notes names.now block.now) met.new }
{
    match block {
        GenBlock::Item(item) => survey_item(met, names, inside, item.get()),
        GenBlock::Block { items, .. } => survey_items(met, names, inside, items.as_slice()),
    }
}
