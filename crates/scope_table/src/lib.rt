//! What names mean at a place of a design (IEEE 1800-2017 23.9).
//!
//! A walk through a design enters and leaves scopes: modules, generate blocks, loops. A name means
//! what the nearest scope round the place declares it as, and this crate answers which meaning
//! that is, in constant time. Meanings are values of any type `T` that is `Copy`: numbers of
//! variables, places in a list of declarations. A name goes by its number in the table of names.
//!
//! # Terms
//!
//! - The *file level* is round all modules. Here stand imports.
//! - A *module* sees the file level and no other scope: a scope that holds an instance of it is not
//!   round it. [`ScopeTable::enter_module`] enters one.
//! - Any other scope sees what the scope round it sees. [`ScopeTable::enter`] enters one.
//! - A declaration *hides* one of the same name in a scope round it, until its scope is left.
//!
//! ```text
//! declare_global f      f is the import
//! enter_module          f is the import, a means nothing
//!   declare a           a is the module's
//!   enter               a is the module's
//!     declare a         a is the block's
//!     enter_module      a means nothing, f is the import
//!     leave             a is the block's
//!   leave               a is the module's
//! leave                 a means nothing
//! ```
//!
//! # What is proved
//!
//! Contracts see a table of scopes as a stack of whole tables, each with what every name means in
//! one scope and whether that scope declares it (`specs/Scopes.antt`). Each call is one definition
//! on this stack: entering copies the top, declaring writes one entry of it, leaving takes it away.
//! Where memory is wanted the stack is as it was. `specs/MeaningLaws.antt` says what follows for one
//! name at each step, and `specs/ScopeLaws.antt` for scopes that are entered and left in pairs.
//!
//! # How it is held
//!
//! No table is copied. There is one slot for each name, with the meaning that was declared last
//! and the level of its scope, counted from the file level, which is 1. A declaration notes what
//! its slot held before, and leaving a scope puts back what was noted since the scope was entered,
//! the last first. The slots of scopes that a module does not see stay where they are: they are of
//! a level below the module's, and the file level has slots of its own, which count in their place.
//! `specs/Slots.antt` reads slots, notes and frames as the stack of tables.
//!
//! # Cost
//!
//! Each call takes constant time, but [`ScopeTable::new`], which takes time in the number of names,
//! and [`ScopeTable::leave`], which takes time in the declarations made in the scope. Space is two
//! slots for each name, a note for each declaration in the scopes that are open, and a frame for
//! each of these.
#![tactic(auto)]

mod table;

pub use sv_tree::{NameId, NoMemory};
pub use table::ScopeTable;
