ghost use Rattle.std.specs.Prelude.{◌≡◌, true, Some};
ghost use Rattle.sv_elab.specs.Rooted.{is_rooted, top_module};

use crate::scope::Scope;
use elab_parts::Stop;
use std::alloc::Global;
use sv_expr::Constant;
use sv_tree::NameId;
use vs_base::Text;

/// The scopes of a design, in the order of the walk: the first one is the top, which stands in no other, and each other one
/// stands in a scope before it.
#[derive(Drop)]
pub struct Scopes {
    pub scopes: Vec<Scope>,
    ghost rooted: { is_rooted scopes.items ≡ true },
}

impl Scopes {
    /// The top alone, of this path and without constants.
    pub fn new(alloc: Global, path: Text, module: NameId) -> Result<Scopes, Stop> {
        let mut scopes = Vec::new(alloc);
        let top = Scope {
            path,
            parent: None,
            block: false,
            module,
            values: Vec::new(alloc),
        };
        let Ok(()) = scopes.push(top) else {
            return Err(Stop::NoMemory);
        };
        Ok(Scopes { scopes })
    }

    /// Adds a constant to a scope.
    pub fn put(&mut self, scope: u32, constant: Constant) -> Result<(), Stop> {
        let place = scope as usize;
        if place >= self.scopes.len() {
            return Ok(());
        }
        let scope = &mut self.scopes[place];
        let Ok(()) = scope.values.push(constant) else {
            return Err(Stop::NoMemory);
        };
        Ok(())
    }

    /// Adds a scope in another, and gives its number. Of a number that no scope has the top is meant.
    pub fn add(
        &mut self,
        outer: u32,
        path: Text,
        block: bool,
        module: NameId,
        values: Vec<Constant>,
    ) -> Result<u32, Stop> {
        let Ok(number) = u32::try_from(self.scopes.len()) else {
            return Err(Stop::NoMemory);
        };
        let outer = if outer < number { outer } else { 0 };
        let scope = Scope {
            path,
            parent: Some(outer),
            block,
            module,
            values,
        };
        let Ok(()) = self.scopes.push(scope) else {
            return Err(Stop::NoMemory);
        };
        Ok(number)
    }

    /// Gives the top its module.
    pub fn name_top(&mut self, name: NameId)
        ensures { top_module self.new.scopes.items ≡ Some name.0 }
    {
        if self.scopes.len() > 0 {
            self.scopes[0].module = name;
        }
    }

    /// The path of a scope.
    pub fn path(&self, scope: u32) -> &[u8] {
        match self.scopes.get(scope as usize) {
            Some(scope) => scope.path.as_bytes(),
            None => b"",
        }
    }

    /// The constants of a scope.
    pub fn values(&self, scope: u32) -> &[Constant] {
        match self.scopes.get(scope as usize) {
            Some(scope) => scope.values.as_slice(),
            None => &[],
        }
    }
}
