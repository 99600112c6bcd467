//! The imports of a tree (IEEE 1800-2017 35.5.4).

ghost use Rattle.std.specs.Prelude.{◌≡◌, ◌++◌, ◌∷◌, [], true, map, IfOk, OnOk};
ghost use Rattle.std.specs.List.{flat_map, list_all};
ghost use Rattle.rtl_flat.specs.Imports as spec;
ghost use Rattle.rtl_ir.specs.Types.{is_type};

use elab_types::{result_kind, word_kind};
use rtl_ir::Import;
use rtl_lower::FlatFault;
use sqlite_items::Items;
use std::alloc::Global;
use sv_expr::symbol;
use sv_tree::{
    Argument, CommaList, Description, GenBlock, Import as TreeImport, Item, ItemBranch, NameId,
    Names, SourceTree, Symbol, Token, WordType,
};
use vs_base::{Origin, Text, ValueType, limits};

/// All imports of a tree in token order, those among the items of modules too.
pub fn imports_in<'t>(alloc: Global, tree: &'t SourceTree) -> Result<Vec<&'t TreeImport>, FlatFault>
    ensures { IfOk result (λ list. map (λ x. x.now) list.items ≡ spec.imports_of tree.now) }
{
    let mut list = Vec::new(alloc);
    for description in tree.descriptions.as_slice() {
        add_description(description, &mut list)?;
    }
    Ok(list)
}

/// Adds the imports of a description.
fn add_description<'t>(
    description: &'t Description,
    list: &mut Vec<&'t TreeImport>,
) -> Result<(), FlatFault>
    ensures { OnOk result (map (λ x. x.now) list.new.items ≡ map (λ x. x.now) list.old.items ++ spec.description_imports description.now) }
{
    match description {
        Description::Import(import) => add_import(import, list),
        Description::Module(module) => add_items(module.items.as_slice(), list),
    }
}

/// Adds an import.
fn add_import<'t>(import: &'t TreeImport, list: &mut Vec<&'t TreeImport>) -> Result<(), FlatFault>
    ensures { OnOk result (map (λ x. x.now) list.new.items ≡ map (λ x. x.now) list.old.items ++ import.now ∷ []) }
{
    match list.push(import) {
        Ok(()) => Ok(()),
        Err(_) => Err(FlatFault::NoMemory),
    }
}

/// Adds the imports of items.
#[cycle(imports)]
fn add_items<'t>(items: &'t [Item], list: &mut Vec<&'t TreeImport>) -> Result<(), FlatFault>
    ensures { OnOk result (map (λ x. x.now) list.new.items ≡ map (λ x. x.now) list.old.items ++ flat_map spec.item_imports items.now) }
{
    for item in items {
        add_item(item, list)?;
    }
    Ok(())
}

/// Adds the imports of an item.
#[cycle(imports)]
#[tactic(auto, using(crate::specs::ImportsLaws::laws))]
fn add_item<'t>(item: &'t Item, list: &mut Vec<&'t TreeImport>) -> Result<(), FlatFault>
    ensures { OnOk result (map (λ x. x.now) list.new.items ≡ map (λ x. x.now) list.old.items ++ spec.item_imports item.now) }
{
    match item {
        Item::Import(import) => add_import(import, list),
        Item::Generate { items, .. } => add_items(items.as_slice(), list),
        Item::For { body, .. } => add_block(body.get(), list),
        Item::If { branches, body, .. } => {
            add_branches(branches.as_slice(), list)?;
            add_block(body.get(), list)
        }
        Item::IfElse { branches, last } => {
            add_branches(branches.as_slice(), list)?;
            add_block(last.get(), list)
        }
        Item::Instance { .. } => Ok(()),
        Item::Empty(_) => Ok(()),
        Item::Parameters { .. } => Ok(()),
        Item::Variables { .. } => Ok(()),
        Item::Assigns { .. } => Ok(()),
        Item::Comb { .. } => Ok(()),
        Item::Star { .. } => Ok(()),
        Item::ParenStar { .. } => Ok(()),
        Item::Clocked { .. } => Ok(()),
        Item::Genvars { .. } => Ok(()),
    }
}

/// Adds the imports of branches.
#[cycle(imports)]
#[tactic(auto, using(crate::specs::ImportsLaws::laws))]
fn add_branches<'t>(
    branches: &'t [ItemBranch],
    list: &mut Vec<&'t TreeImport>,
) -> Result<(), FlatFault>
    ensures { OnOk result (map (λ x. x.now) list.new.items ≡ map (λ x. x.now) list.old.items ++ flat_map spec.branch_imports branches.now) }
{
    for branch in branches {
        add_block(&branch.body, list)?;
    }
    Ok(())
}

/// Adds the imports of a block.
#[cycle(imports)]
#[tactic(auto, using(crate::specs::ImportsLaws::laws))]
fn add_block<'t>(block: &'t GenBlock, list: &mut Vec<&'t TreeImport>) -> Result<(), FlatFault>
    ensures { OnOk result (map (λ x. x.now) list.new.items ≡ map (λ x. x.now) list.old.items ++ spec.block_imports block.now) }
{
    match block {
        GenBlock::Item(item) => add_item(item.get(), list),
        GenBlock::Block { items, .. } => add_items(items.as_slice(), list),
    }
}

/// The imports of a design, in the order of the list.
pub fn flat_imports(
    alloc: Global,
    names: &Names,
    list: &[&TreeImport],
) -> Result<Items<Import>, FlatFault>
    ensures { IfOk result (λ all. map spec.told all ≡ map (λ x. spec.told_of names.now x.now) list.now) }
{
    let mut all = Items::new(alloc);
    for import in list {
        all.push(flat_import(alloc, names, import)?)?;
    }
    Ok(all)
}

/// An import of a design.
fn flat_import(alloc: Global, names: &Names, import: &TreeImport) -> Result<Import, FlatFault>
    ensures { IfOk result (λ flat. spec.told flat ≡ spec.told_of names.now import.now) }
{
    let args = arg_kinds(alloc, names, import)?;
    if args.len() > limits::CALL_ARGUMENTS {
        return Err(FlatFault::NotElaborated);
    }
    let name = Vec::from_slice(alloc, names.text_of(linkage_name(import).name))?;
    Ok(Import {
        name: Text::new(name),
        declared_pure: is_pure(names, import),
        args,
        result: result_kind(names, import),
        at: import.name.at,
    })
}

/// The name under which an import is found: its own unless another one stands there.
fn linkage_name(import: &TreeImport) -> Token
    ensures { result ≡ spec.linkage_name import.now.linkage import.now.name }
{
    match import.linkage {
        Some(linkage) => linkage.name,
        None => import.name,
    }
}

/// Whether an import is declared `pure`.
fn is_pure(names: &Names, import: &TreeImport) -> bool
    ensures { result ≡ spec.is_pure names.now import.now.manner }
{
    match import.manner {
        Some(manner) => says_pure(symbol(names, manner)),
        None => false,
    }
}

/// Whether a word is `pure`.
fn says_pure(word: Symbol) -> bool
    ensures { result ≡ spec.says_pure word }
{
    match word {
        Symbol::Pure => true,
        _ => false,
    }
}

/// The types of the arguments of an import.
fn arg_kinds(
    alloc: Global,
    names: &Names,
    import: &TreeImport,
) -> Result<Items<ValueType>, FlatFault>
    ensures kinds { IfOk result (λ kinds. kinds ≡ spec.arg_kinds names.now import.now.args) }
    ensures types { IfOk result (λ kinds. list_all is_type kinds ≡ true) }
{
    match &import.args {
        Some(args) => listed_kinds(alloc, names, args),
        None => Ok(Items::new(alloc)),
    }
}

/// The types of the arguments of a list.
fn listed_kinds(
    alloc: Global,
    names: &Names,
    args: &CommaList<Argument>,
) -> Result<Items<ValueType>, FlatFault>
    ensures kinds { IfOk result (λ kinds. kinds ≡ spec.listed_kinds names.now args.now) }
    ensures types { IfOk result (λ kinds. list_all is_type kinds ≡ true) }
{
    let mut kinds = Items::new(alloc);
    kinds.push(word_kind(names, args.first.kind))?;
    for joined in args.more.as_slice() {
        kinds.push(word_kind(names, joined.item.kind))?;
    }
    Ok(kinds)
}

/// The number of an import among all: the first of those that say the same at the same place.
pub fn number_of(list: &[&TreeImport], import: &TreeImport) -> Result<u32, FlatFault> {
    let at = import.name.at;
    let first = list.partition_point(|other| is_before(other.name.at, at));
    for (number, other) in list.iter().enumerate().skip(first) {
        if says_the_same(other, import) {
            return number_at(number);
        }
    }
    Err(FlatFault::NotElaborated)
}

/// A place of a list.
fn number_at(place: usize) -> Result<u32, FlatFault> {
    match u32::try_from(place) {
        Ok(number) => Ok(number),
        Err(_) => Err(FlatFault::NotElaborated),
    }
}

/// Whether a place of the source stands before another.
fn is_before(a: Origin, b: Origin) -> bool {
    if a.file != b.file {
        return a.file < b.file;
    }
    if a.line != b.line {
        return a.line < b.line;
    }
    a.col < b.col
}

/// Whether two imports have one text.
fn says_the_same(a: &TreeImport, b: &TreeImport) -> bool {
    a.name.name == b.name.name
        && linkage_name(a).name == linkage_name(b).name
        && token_name(a.manner) == token_name(b.manner)
        && is_same_word(a.result, b.result)
        && have_the_same_args(a, b)
}

/// The spelling of a token that may be left out.
fn token_name(token: Option<Token>) -> Option<NameId> {
    match token {
        Some(token) => Some(token.name),
        None => None,
    }
}

/// Whether two types have one text.
fn is_same_word(a: WordType, b: WordType) -> bool {
    a.word.name == b.word.name && token_name(a.sign) == token_name(b.sign)
}

/// Whether two imports have arguments of one text.
fn have_the_same_args(a: &TreeImport, b: &TreeImport) -> bool {
    let (Some(a), Some(b)) = (&a.args, &b.args) else {
        return a.args.is_none() && b.args.is_none();
    };
    if a.more.len() != b.more.len() || !is_same_arg(a.first, b.first) {
        return false;
    }
    for (one, other) in a.more.as_slice().iter().zip(b.more.as_slice()) {
        if !is_same_arg(one.item, other.item) {
            return false;
        }
    }
    true
}

/// Whether two arguments have types of one text.
fn is_same_arg(a: Argument, b: Argument) -> bool {
    is_same_word(a.kind, b.kind)
}
