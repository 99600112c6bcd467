//! What names mean in scopes that stand in one another.

use scope_table::{NameId, NoMemory, ScopeTable};
use std::alloc::Global;

// What names 0 to 3 mean, where 9 is nothing, and name 9, which is past the table.
fn seen(table: &ScopeTable<u32>) -> [u32; 5] {
    [
        table.get(NameId(0)),
        table.get(NameId(1)),
        table.get(NameId(2)),
        table.get(NameId(3)),
        table.get(NameId(9)),
    ]
}

// Name 0 is global, and a module declares name 1.
fn in_a_module(alloc: Global) -> Result<ScopeTable<u32>, NoMemory> {
    let mut table: ScopeTable<u32> = ScopeTable::new(alloc, 4, 9)?;
    table.declare_global(NameId(0), 10);
    table.leave();
    table.enter_module()?;
    table.declare(NameId(1), 11)?;
    table.declare_global(NameId(3), 78);
    Ok(table)
}

// A block in it declares names 1, twice, and 0.
fn in_a_block(table: &mut ScopeTable<u32>) -> Result<(), NoMemory> {
    table.enter()?;
    table.declare(NameId(1), 12)?;
    declare_both(table)
}

fn declare_both(table: &mut ScopeTable<u32>) -> Result<(), NoMemory> {
    table.declare(NameId(1), 13)?;
    table.declare(NameId(0), 14)?;
    table.declare(NameId(9), 77)
}

// A module whose instance stands there declares name 2, and a block in it nothing.
fn in_another_module(table: &mut ScopeTable<u32>) -> Result<(), NoMemory> {
    table.enter_module()?;
    table.declare(NameId(2), 15)?;
    table.enter()
}

#[test]
fn scopes_hide_and_give_back(rt: HostRuntime) -> Result<(), NoMemory> {
    let mut table = in_a_module(rt.alloc())?;
    assert_eq!(rt; seen(&table), [10, 11, 9, 9, 9]);
    assert!(rt; table.is_declared_here(NameId(1)) && !table.is_declared_here(NameId(0)));
    in_a_block(&mut table)?;
    assert_eq!(rt; seen(&table), [14, 13, 9, 9, 9]);
    assert!(rt; table.is_declared_here(NameId(0)) && table.is_global(NameId(0)));
    in_another_module(&mut table)?;
    assert_eq!(rt; seen(&table), [10, 9, 15, 9, 9]);
    assert!(rt; !table.is_declared_here(NameId(2)));
    table.leave();
    table.leave();
    assert_eq!(rt; seen(&table), [14, 13, 9, 9, 9]);
    table.leave();
    assert_eq!(rt; seen(&table), [10, 11, 9, 9, 9]);
    table.leave();
    assert_eq!(rt; seen(&table), [10, 9, 9, 9, 9]);
    assert!(rt; table.is_declared_here(NameId(0)) && !table.is_declared_here(NameId(9)));
    Ok(())
}
