ghost use Rattle.std.specs.Prelude.{◌≡◌, ◌≤◌, [], ◌∷◌, ◌++◌, IfOk, OnOk, OnErr, length, drop, take, replicate};
ghost use Rattle.scope_table.specs.Scopes.{at_file_level, entered, module_entered, left, globally_declared, declared, meaning_here, declares};
ghost use Rattle.scope_table.specs.Slots.{rewound};

use std::alloc::Global;
use std::marker::Model;
use sv_tree::{NameId, NoMemory};

// What one name means in the innermost scope that declares it, and the level of that scope: the
// file level is 1, and a scope is one above the scope that it stands in. Level 0 is no scope, for
// a name that is not declared.
#[derive(Clone, Copy)]
struct Slot<T> {
    what: T,
    level: usize,
}

// What a slot held before a scope declared its name.
#[derive(Clone, Copy)]
struct Replaced<T> {
    place: usize,
    slot: Slot<T>,
}

// What is known of the scope that an entered one stands in.
#[derive(Clone, Copy)]
struct Frame {
    // How many slots had been replaced when the inner scope was entered.
    replaced: usize,
    // The least level that is seen from the outer scope.
    base: usize,
}

/// What each name means, in scopes that are entered and left in pairs; contracts see the stack of
/// the tables of these scopes.
#[derive(Drop)]
pub struct ScopeTable<T: Copy> {
    // What a name means that is not declared.
    nothing: T,
    // What each name means at the file level.
    file: Vec<Slot<T>>,
    // What each name means in the innermost scope that declares it.
    slots: Vec<Slot<T>>,
    replaced: Vec<Replaced<T>>,
    frames: Vec<Frame>,
    // The least level that is seen from here, besides the file's.
    base: usize,
}

impl<T: Copy> Model for ScopeTable<T> {
    ghost use Rattle.std.specs.Prelude.{reverse};
    ghost use Rattle.scope_table.specs.Scopes.{Scopes, scopes_code};

    ghost Value = { Scopes T };

    ghost coded = { scopes_code T.code };

    ghost use Rattle.scope_table.specs.Slots.{scopes_of, IsSound};

    ghost view = { λ t. scopes_of t.nothing t.file.items t.slots.items t.replaced.items (reverse t.frames.items) t.base };

    ghost invariant = { λ t. IsSound t.file.items t.slots.items t.replaced.items (reverse t.frames.items) t.base };
}

impl<T: Copy> ScopeTable<T> {
    /// A table for `count` names, at the file level, where no name is declared.
    ///
    /// `NoMemory`: there was none left.
    pub fn new(alloc: Global, count: usize, nothing: T) -> Result<ScopeTable<T>, NoMemory>
        ensures { IfOk result (λ scopes. scopes ≡ at_file_level count nothing) }
    {
        let Ok(file) = empty_slots(alloc, count, nothing) else {
            return Err(NoMemory);
        };
        let Ok(slots) = empty_slots(alloc, count, nothing) else {
            return Err(NoMemory);
        };
        Ok(ScopeTable {
            nothing,
            file,
            slots,
            replaced: Vec::new(alloc),
            frames: Vec::new(alloc),
            base: 0,
        })
    }

    /// Declares a name at the file level. Every module sees it, unless a declaration hides it. A
    /// second declaration replaces the first.
    ///
    /// Nothing changes where a scope is entered, or where the number is past the table.
    pub fn declare_global(&mut self, name: NameId, what: T)
        ensures { self.new ≡ globally_declared name.0 what self.old }
    {
        let place = name.0 as usize;
        if self.frames.len() > 0 {
            return;
        }
        if place >= self.slots.len() {
            return;
        }
        let slot = Slot { what, level: 1 };
        self.file[place] = slot;
        self.slots[place] = slot;
    }

    /// Whether a name is declared at the file level.
    pub fn is_global(&self, name: NameId) -> bool
        ensures { result ≡ declares self.now.file name.0 }
    {
        let place = name.0 as usize;
        place < self.file.len() && self.file[place].level == 1
    }

    /// Enters the scope of a module, from which only the file level is seen.
    ///
    /// `NoMemory`: there was none left. The table is then as it was.
    pub fn enter_module(&mut self) -> Result<(), NoMemory>
        ensures enters { OnOk result (self.new ≡ module_entered self.old) }
        ensures unchanged { OnErr result (self.new ≡ self.old) }
    {
        push_frame(&mut self.frames, self.replaced.len(), self.base)?;
        self.base = self.frames.len() + 1;
        Ok(())
    }

    /// Enters a scope that stands in the present one.
    ///
    /// `NoMemory`: there was none left. The table is then as it was.
    pub fn enter(&mut self) -> Result<(), NoMemory>
        ensures enters { OnOk result (self.new ≡ entered self.old) }
        ensures unchanged { OnErr result (self.new ≡ self.old) }
    {
        push_frame(&mut self.frames, self.replaced.len(), self.base)?;
        Ok(())
    }

    /// Leaves the scope that was entered last. Names mean again what they meant before it.
    ///
    /// Nothing changes at the file level.
    pub fn leave(&mut self)
        ensures { self.new ≡ left self.old }
    {
        let Some(frame) = self.frames.pop() else {
            return;
        };
        put_back(&mut self.slots, &mut self.replaced, frame.replaced);
        self.base = frame.base;
    }

    /// Declares a name in the innermost scope. A second declaration replaces the first.
    ///
    /// Nothing changes where the number is past the table. `NoMemory`: there was none left. The
    /// table is then as it was.
    pub fn declare(&mut self, name: NameId, what: T) -> Result<(), NoMemory>
        ensures declares { OnOk result (self.new ≡ declared name.0 what self.old) }
        ensures unchanged { OnErr result (self.new ≡ self.old) }
    {
        let place = name.0 as usize;
        if self.frames.len() == 0 {
            self.declare_global(name, what);
            return Ok(());
        }
        if place >= self.slots.len() {
            return Ok(());
        }
        let slot = self.slots[place];
        let Ok(()) = self.replaced.push(Replaced { place, slot }) else {
            return Err(NoMemory);
        };
        let level = self.frames.len() + 1;
        self.slots[place] = Slot { what, level };
        Ok(())
    }

    /// What a name means here: what the innermost scope that declares it and is seen from here
    /// gave. `nothing` where there is none, or where the number is past the table.
    pub fn get(&self, name: NameId) -> T
        ensures { result ≡ meaning_here self.now name.0 }
    {
        let place = name.0 as usize;
        if place >= self.slots.len() {
            return self.nothing;
        }
        let slot = self.slots[place];
        if slot.level < self.base {
            self.file[place].what
        } else {
            slot.what
        }
    }

    /// Whether a name is declared in the innermost scope itself.
    pub fn is_declared_here(&self, name: NameId) -> bool
        ensures { result ≡ declares self.now.present name.0 }
    {
        let place = name.0 as usize;
        place < self.slots.len() && self.slots[place].level == self.frames.len() + 1
    }
}

// Slots of `count` names that are not declared.
fn empty_slots<T: Copy>(alloc: Global, count: usize, nothing: T) -> Result<Vec<Slot<T>>, NoMemory>
    ensures { IfOk result (λ slots. slots.items ≡ replicate count (record { what = nothing; level = 0 })) }
{
    let Ok(mut slots) = Vec::with_capacity(alloc, count) else {
        return Err(NoMemory);
    };
    for _ in 0..count {
        let slot = Slot {
            what: nothing,
            level: 0,
        };
        let Ok(()) = slots.push(slot) else {
            return Err(NoMemory);
        };
    }
    Ok(slots)
}

// Puts back what was replaced after the first `kept` replacements, the last one first.
fn put_back<T: Copy>(slots: &mut [Slot<T>], replaced: &mut Vec<Replaced<T>>, kept: usize)
    requires { kept ≤ length replaced.old.items }
    ensures slots { slots.new ≡ rewound (drop kept replaced.old.items) slots.old }
    ensures kept { replaced.new.items ≡ take kept replaced.old.items }
{
    while replaced.len() > kept {
        let Some(last) = replaced.pop() else {
            return;
        };
        if last.place < slots.len() {
            slots[last.place] = last.slot;
        }
    }
}

// Adds what is known of the scope that is entered from.
fn push_frame(frames: &mut Vec<Frame>, replaced: usize, base: usize) -> Result<(), NoMemory>
    ensures pushed { OnOk result (frames.new.items ≡ frames.old.items ++ record { replaced = replaced; base = base } ∷ []) }
    ensures unchanged { OnErr result (frames.new.items ≡ frames.old.items) }
{
    let Ok(()) = frames.push(Frame { replaced, base }) else {
        return Err(NoMemory);
    };
    Ok(())
}
