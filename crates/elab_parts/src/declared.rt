//! The names that a scope declares, wherever in it they stand: those that no block without a name may have
//! (IEEE 1800-2017 27.6).

use scope_table::ScopeTable;
use sv_tree::{Arm, Branch, GenBlock, Item, ItemBranch, Label, Module, NoMemory, Stmt, Token};

/// Declares the names of a module: its parameters, its ports, and those of its items.
pub fn declare_module(table: &mut ScopeTable<bool>, module: &Module) -> Result<(), NoMemory> {
    declare_parameters(table, module)?;
    declare_ports(table, module)?;
    declare_items(table, module.items.as_slice())
}

/// Declares the parameters of a module's list.
fn declare_parameters(table: &mut ScopeTable<bool>, module: &Module) -> Result<(), NoMemory> {
    let Some(parameters) = &module.parameters else {
        return Ok(());
    };
    declare(table, parameters.list.first.setting.name)?;
    for joined in parameters.list.more.as_slice() {
        declare(table, joined.item.setting.name)?;
    }
    Ok(())
}

/// Declares the ports of a module.
fn declare_ports(table: &mut ScopeTable<bool>, module: &Module) -> Result<(), NoMemory> {
    let Some(ports) = &module.ports else {
        return Ok(());
    };
    let Some(list) = &ports.list else {
        return Ok(());
    };
    declare(table, list.first.name)?;
    for joined in list.more.as_slice() {
        declare(table, joined.item.name)?;
    }
    Ok(())
}

fn declare(table: &mut ScopeTable<bool>, name: Token) -> Result<(), NoMemory> {
    table.declare(name.name, true)
}

/// Declares a label, if there is one.
fn declare_label(table: &mut ScopeTable<bool>, label: &Option<Label>) -> Result<(), NoMemory> {
    match label {
        None => Ok(()),
        Some(label) => declare(table, label.name),
    }
}

/// Declares the names of items that stand in one scope.
#[cycle(items)]
pub fn declare_items(table: &mut ScopeTable<bool>, items: &[Item]) -> Result<(), NoMemory> {
    for item in items {
        declare_item(table, item)?;
    }
    Ok(())
}

/// Declares the names of an item.
#[cycle(items)]
fn declare_item(table: &mut ScopeTable<bool>, item: &Item) -> Result<(), NoMemory> {
    match item {
        Item::Generate { items, .. } => declare_items(table, items.as_slice()),
        Item::For { body, .. } => declare_name(table, body.get()),
        Item::If { branches, body, .. } => {
            declare_branches(table, branches.as_slice())?;
            declare_block(table, body.get())
        }
        Item::IfElse { branches, last } => {
            declare_branches(table, branches.as_slice())?;
            declare_block(table, last.get())
        }
        _ => declare_plain(table, item),
    }
}

/// Declares the names of the blocks of branches.
#[cycle(items)]
fn declare_branches(table: &mut ScopeTable<bool>, branches: &[ItemBranch]) -> Result<(), NoMemory> {
    for branch in branches {
        declare_block(table, &branch.body)?;
    }
    Ok(())
}

/// Declares the name that a block has, if it has one.
fn declare_name(table: &mut ScopeTable<bool>, block: &GenBlock) -> Result<(), NoMemory> {
    match block {
        GenBlock::Block { label, .. } => declare_label(table, label),
        GenBlock::Item(_) => Ok(()),
    }
}

/// Declares the names of what stands in a block.
pub fn declare_body(table: &mut ScopeTable<bool>, block: &GenBlock) -> Result<(), NoMemory> {
    match block {
        GenBlock::Block { items, .. } => declare_items(table, items.as_slice()),
        GenBlock::Item(item) => declare_item(table, item.get()),
    }
}

/// Declares the name of a block, or those of the blocks of an `if` that is a branch without `begin`.
#[cycle(items)]
fn declare_block(table: &mut ScopeTable<bool>, block: &GenBlock) -> Result<(), NoMemory> {
    match block {
        GenBlock::Block { label, .. } => declare_label(table, label),
        GenBlock::Item(item) => match item.get() {
            Item::If { .. } | Item::IfElse { .. } => declare_item(table, item.get()),
            _ => Ok(()),
        },
    }
}

/// Declares the names of an item that is no generate construct.
fn declare_plain(table: &mut ScopeTable<bool>, item: &Item) -> Result<(), NoMemory> {
    match item {
        Item::Import(import) => declare(table, import.name),
        Item::Parameters { settings, .. } => {
            declare(table, settings.first.name)?;
            for joined in settings.more.as_slice() {
                declare(table, joined.item.name)?;
            }
            Ok(())
        }
        Item::Variables { declarations, .. } => {
            declare(table, declarations.first.name)?;
            for joined in declarations.more.as_slice() {
                declare(table, joined.item.name)?;
            }
            Ok(())
        }
        Item::Genvars { names, .. } => {
            declare(table, names.first)?;
            for joined in names.more.as_slice() {
                declare(table, joined.item)?;
            }
            Ok(())
        }
        Item::Comb { body, .. }
        | Item::Star { body, .. }
        | Item::ParenStar { body, .. }
        | Item::Clocked { body, .. } => declare_blocks(table, body),
        Item::Instance { name, .. } => declare(table, *name),
        _ => Ok(()),
    }
}

/// Declares the names of the blocks in a statement, but for those in loops, which are scopes of their own.
#[cycle(blocks)]
fn declare_blocks(table: &mut ScopeTable<bool>, stmt: &Stmt) -> Result<(), NoMemory> {
    match stmt {
        Stmt::Block { label, body, .. } => {
            declare_label(table, label)?;
            for inner in body.as_slice() {
                declare_blocks(table, inner)?;
            }
            Ok(())
        }
        Stmt::If { branches, body, .. } => {
            declare_chain(table, branches.as_slice())?;
            declare_blocks(table, body.get())
        }
        Stmt::IfElse { branches, last } => {
            declare_chain(table, branches.as_slice())?;
            declare_blocks(table, last.get())
        }
        Stmt::Case { arms, .. } => declare_arms(table, arms.as_slice()),
        _ => Ok(()),
    }
}

/// Declares the names of the blocks in the branches of a chain.
#[cycle(blocks)]
fn declare_chain(table: &mut ScopeTable<bool>, branches: &[Branch]) -> Result<(), NoMemory> {
    for branch in branches {
        declare_blocks(table, &branch.body)?;
    }
    Ok(())
}

/// Declares the names of the blocks in the arms of a `case`.
#[cycle(blocks)]
fn declare_arms(table: &mut ScopeTable<bool>, arms: &[Arm]) -> Result<(), NoMemory> {
    for arm in arms {
        match arm {
            Arm::Labels { body, .. } | Arm::Default { body, .. } => {
                declare_blocks(table, body.get())?;
            }
        }
    }
    Ok(())
}
