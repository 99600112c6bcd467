//! The walk over items.

use crate::walk::{End, Level, Source, Walk, add};
use elab_parts::{Stop, constant_of, is_parameter};
use elab_types::{ParameterType, item_type};
use sv_expr::{Denoted, Fixed};
use sv_tree::{CommaList, DataType, Item, NameId, Setting, Token};

impl<'t> Walk<'t> {
    /// An item of the present scope.
    pub fn item(&mut self, item: &'t Item) -> Result<(), Stop> {
        match item {
            Item::Empty(_) | Item::Genvars { .. } => Ok(()),
            Item::Import(import) => self.present.import(import),
            Item::Parameters {
                word,
                kind,
                settings,
                ..
            } => self.parameters(*word, kind, settings),
            Item::Variables {
                kind,
                declarations,
                ..
            } => self.present.variables(kind, declarations),
            Item::Assigns { assignments, .. } => self.present.assigns(assignments),
            Item::Comb { body, .. } | Item::Star { body, .. } | Item::ParenStar { body, .. } => {
                self.present.combinational(body)
            }
            Item::Clocked { events, body, .. } => self.present.clocked(events, body),
            Item::Generate { items, .. } => add(
                &mut self.levels,
                &Level {
                    source: Source::Region(items),
                    next: 0,
                    end: End::Nothing,
                },
            ),
            Item::For { head, .. } => self.generate_for(item, head),
            Item::If { .. } | Item::IfElse { .. } => self.generate_if(item),
            Item::Instance {
                module,
                overrides,
                name,
                connections,
                ..
            } => self.instance(*module, overrides, *name, connections),
        }
    }

    /// The parameters of an item: the type, and then each value.
    fn parameters(
        &mut self,
        word: Token,
        kind: &Option<DataType>,
        settings: &CommaList<Setting>,
    ) -> Result<(), Stop> {
        let kind = match item_type(&self.present.view(), kind) {
            Ok(kind) => kind,
            Err(fault) => return Err(Stop::from(fault)),
        };
        self.parameter(word, kind, &settings.first)?;
        for joined in settings.more.as_slice() {
            self.parameter(word, kind, &joined.item)?;
        }
        Ok(())
    }

    /// A parameter of an item: what the instance gives to it, or else its own value.
    fn parameter(
        &mut self,
        word: Token,
        kind: ParameterType,
        setting: &Setting,
    ) -> Result<(), Stop> {
        let fixed = match self.given_to(word) {
            Some(fixed) => fixed,
            None => self.present.parameter(kind, setting)?,
        };
        self.declare_value(setting.name.name, &fixed)
    }

    /// Declares a constant of the present scope.
    fn declare_value(&mut self, name: NameId, fixed: &Fixed) -> Result<(), Stop> {
        let held = *fixed;
        self.present.table.declare(name, Denoted::Constant(held))?;
        let constant = constant_of(name, *fixed);
        let here = self.here();
        self.scopes.put(here, constant)
    }

    /// What the instance gives to the next parameter of its module's items.
    fn given_to(&mut self, word: Token) -> Option<Fixed> {
        if !is_parameter(self.present.names, word) {
            return None;
        }
        let Some(open) = self.open.last_mut() else {
            return None;
        };
        let place = open.parameters;
        open.parameters = place.saturating_add(1);
        match open.overrides.get(place) {
            Some(given) => *given,
            None => None,
        }
    }
}
