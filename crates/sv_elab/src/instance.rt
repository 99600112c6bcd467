//! The walk over instances (IEEE 1800-2017 23.3).

use crate::walk::{End, Level, Source, Walk, add};
use elab_parts::{
    Head, HeadPort, List, Outer, Stop, declare_module, head_of, inner, join_ports, list_of,
};
use sv_expr::{Constant, Fixed};
use sv_names::module_at;
use sv_tree::{Connections, Module, Overrides, Token};

impl<'t> Walk<'t> {
    /// Enters the top, and leaves its items to be walked.
    pub fn top(&mut self, module: &'t Module) -> Result<(), Stop> {
        let head = self.top_head(module)?;
        self.enter(module, 0, head.overrides, head.ports.as_slice())
    }

    /// Counts the top, and gives its head, whose constants are those of the first scope.
    fn top_head(&mut self, module: &'t Module) -> Result<Head, Stop> {
        self.present.counts.instance()?;
        let head = self.head(module, List::Empty)?;
        for constant in head.values.as_slice() {
            self.scopes.put(0, *constant)?;
        }
        Ok(head)
    }

    /// An instance: it is counted; its overrides are looked at; its module's parameter list and ports are visited; its ports
    /// are connected in order. Its items are left to be walked.
    pub fn instance(
        &mut self,
        module: Token,
        overrides: &'t Option<Overrides>,
        name: Token,
        connections: &'t Connections,
    ) -> Result<(), Stop> {
        let given = match overrides {
            None => List::Empty,
            Some(overrides) => list_of(&overrides.connections),
        };
        self.present.counts.instance()?;
        self.present.check_list(given)?;
        match self.module_of(module) {
            None => Ok(()),
            Some(child) => self.instance_of(child, given, name, list_of(connections)),
        }
    }

    /// The module of a name.
    fn module_of(&self, name: Token) -> Option<&'t Module> {
        match self.modules.find(name.name) {
            Some(at) => module_at(self.tree, at),
            None => None,
        }
    }

    /// An instance of a module, whose overrides were looked at.
    fn instance_of(
        &mut self,
        module: &'t Module,
        given: List<'t>,
        name: Token,
        connections: List<'t>,
    ) -> Result<(), Stop> {
        let head = self.head(module, given)?;
        self.join(&head, connections)?;
        let scope = self.add_instance(module, name, head.values)?;
        self.enter(module, scope, head.overrides, head.ports.as_slice())
    }

    /// The head of an instance.
    fn head(&mut self, module: &'t Module, given: List<'t>) -> Result<Head, Stop> {
        self.places.fill(given);
        let outer = Outer {
            view: self.present.view(),
            list: given,
            places: &self.places,
        };
        let head = head_of(self.alloc, &outer, &mut self.child, module);
        self.places.clear(given);
        head
    }

    /// Connects the ports of an instance.
    fn join(&mut self, head: &Head, connections: List<'t>) -> Result<(), Stop> {
        self.places.fill(connections);
        let joined = join_ports(
            &mut self.present,
            &self.places,
            connections,
            head.ports.as_slice(),
        );
        self.places.clear(connections);
        joined
    }

    /// Adds the scope of an instance in the present scope.
    fn add_instance(
        &mut self,
        module: &Module,
        name: Token,
        values: Vec<Constant>,
    ) -> Result<u32, Stop> {
        let here = self.here();
        let segment = self.present.names.text_of(name.name);
        let path = inner(self.alloc, self.scopes.path(here), segment)?;
        self.scopes.add(here, path, false, module.name.name, values)
    }

    /// Enters an instance whose scope was added, and leaves its items to be walked.
    fn enter(
        &mut self,
        module: &'t Module,
        scope: u32,
        overrides: Vec<Option<Fixed>>,
        ports: &[HeadPort],
    ) -> Result<(), Stop> {
        self.open(scope, module.name.name, overrides)?;
        self.declare_head(module, scope, ports)?;
        add(
            &mut self.levels,
            &Level {
                source: Source::Module(module),
                next: 0,
                end: End::Leave,
            },
        )
    }

    /// Declares what is known in an instance before its items.
    fn declare_head(
        &mut self,
        module: &Module,
        scope: u32,
        ports: &[HeadPort],
    ) -> Result<(), Stop> {
        self.present.table.enter_module()?;
        self.declared.enter()?;
        declare_module(&mut self.declared, module)?;
        self.present.declare_head(self.scopes.values(scope), ports)
    }
}
