//! The macros that are defined.

ghost use Rattle.std.specs.Prelude.{◌≡◌, ◌<◌, length, set, IfOk, OnOk, OnErr, IfErr, Some, None};
ghost use Rattle.std.specs.Option.{option_map};
ghost use Rattle.sv_pp.specs.Table.{Keeps};
ghost use Rattle.sv_pp.specs.Reading.{Macros, no_macros};

use crate::fault::PpFault;
use std::alloc::Global;
use std::marker::Model;
use sv_tree::{NameId, Names, Token};

/// The text of each macro, at the number of its name.
#[derive(Drop)]
pub struct Table {
    bodies: Vec<Option<Vec<Token>>>,
}

impl Model for Table {
    ghost use Rattle.std.specs.Prelude.{List, Option, map};
    ghost use Rattle.std.specs.Option.{option_map};
    ghost use Rattle.sv_tree.specs.declared.token.Token.{Token};

    ghost Value = { List (Option (List Token)) };

    ghost view = { λ t. map (option_map (λ body. body.items)) t.bodies.items };
}

impl Table {
    /// No macro is defined.
    pub fn new(alloc: Global, names: &Names) -> Result<Table, PpFault>
        ensures empty { IfOk result (λ table. Keeps names.now table no_macros) }
        ensures fault { IfErr result (λ f. f ≡ PpFault.NoMemory) }
    {
        let mut bodies = Vec::new(alloc);
        while bodies.len() < names.len() {
            let Ok(()) = bodies.push(None) else {
                return Err(PpFault::NoMemory);
            };
        }
        Ok(Table { bodies })
    }

    /// The text of a macro by its name, if it is defined.
    pub fn body<'a>(&'a self, names: &Names, name: &[u8]) -> Option<&'a [Token]>
        ensures { (macros : Macros) → Keeps names.now self.now macros → option_map (λ body. body.now) result ≡ macros name.now }
    {
        let Some(id) = names.find(name) else {
            return None;
        };
        let Some(Some(body)) = self.bodies.get(id.0 as usize) else {
            return None;
        };
        Some(body.as_slice())
    }

    /// Gives a macro its text; what it had before is forgotten.
    pub fn define(&mut self, alloc: Global, name: NameId, body: &[Token]) -> Result<(), PpFault>
        requires { name.0 < length self.old }
        ensures kept { OnOk result (self.new ≡ set self.old name.0 (Some body.now)) }
        ensures fault { IfErr result (λ f. f ≡ PpFault.NoMemory) }
    {
        let Ok(kept) = Vec::from_slice(alloc, body) else {
            return Err(PpFault::NoMemory);
        };
        self.bodies[name.0 as usize] = Some(kept);
        Ok(())
    }

    /// Forgets a macro, defined or not.
    pub fn forget(&mut self, name: NameId)
        requires { name.0 < length self.old }
        ensures { self.new ≡ set self.old name.0 None }
    {
        self.bodies[name.0 as usize] = None;
    }
}
