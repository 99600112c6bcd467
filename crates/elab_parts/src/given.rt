//! What an instance gives the parameters and the ports of its module, by name or in order.

ghost use Rattle.std.specs.Prelude.{◌≡◌, map, replicate, slice_get, slice_set, IfOk};
ghost use Rattle.std.specs.Option.{option_copied, option_map};
ghost use Rattle.elab_parts.specs.Actuals as actuals;

use crate::stop::Stop;
use std::alloc::Global;
use sv_tree::{
    Args, CommaList, Connection, Connections, Expr, Joined, NameId, NoMemory, Step, Token,
};

/// What is given to a parameter or a port.
#[derive(Clone, Copy)]
pub enum Given<'t> {
    /// Nothing.
    Nothing,
    /// An expression.
    Value(&'t Expr),
    /// The name itself, which stands alone after the dot: `.p` means `.p(p)`.
    Same(Token),
}

/// What an instance gives.
#[derive(Clone, Copy)]
pub enum List<'t> {
    /// Nothing at all.
    Empty,
    /// In order: the first one and the others.
    Ordered(&'t Expr, &'t [Step]),
    /// By name.
    Named(&'t CommaList<Connection>),
}

/// The list of connections or overrides.
pub fn list_of(connections: &Connections) -> List<'_>
    ensures { actuals.IsListOf connections.now result }
{
    match connections {
        Connections::Ordered(Args::Empty) => List::Empty,
        Connections::Ordered(Args::Listed { first, more }) => {
            List::Ordered(first.get(), more.as_slice())
        }
        Connections::Named(list) => List::Named(list),
    }
}

/// Which connection of a list a name has, by the number of the name: 0 for none, 1 for the first one.
#[derive(Drop)]
pub struct Places {
    places: Vec<u32>,
}

impl Places {
    /// No name has one. `count`: how many names there are.
    pub fn none(alloc: Global, count: usize) -> Result<Places, NoMemory>
        ensures { IfOk result (λ places. actuals.places_in places ≡ replicate count 0) }
    {
        match Vec::from_elem(alloc, 0, count) {
            Ok(places) => Ok(Places { places }),
            Err(_) => Err(NoMemory),
        }
    }

    /// Gives a name its place.
    fn put(&mut self, name: NameId, place: u32)
        ensures { actuals.places_in self.new ≡ slice_set (actuals.places_in self.old) name.0 place }
    {
        let at = name.0 as usize;
        if at < self.places.len() {
            self.places[at] = place;
        }
    }

    /// The place of a name.
    fn place(&self, name: NameId) -> u32
        ensures { result ≡ actuals.place_of (actuals.places_in self.now) name.0 }
    {
        match self.places.get(name.0 as usize) {
            Some(place) => *place,
            None => 0,
        }
    }

    /// Gives each name of a list its place in it. Of a name that stands twice the last place counts.
    pub fn fill(&mut self, list: List<'_>)
        ensures { actuals.places_in self.new ≡ actuals.filled list.entry (actuals.places_in self.old) }
    {
        match list {
            List::Empty => {}
            List::Ordered(_, _) => {}
            List::Named(named) => {
                self.put(named.first.name.name, 1);
                self.put_more(named.more.as_slice());
            }
        }
    }

    /// Gives the names after the first one their places.
    fn put_more(&mut self, more: &[Joined<Connection>])
        ensures { actuals.places_in self.new ≡ actuals.placed_from 2 (map (λ j. j.item) more.now) (actuals.places_in self.old) }
    {
        let mut place: u32 = 2;
        for joined in more {
            self.put(joined.item.name.name, place);
            place = place.saturating_add(1);
        }
    }

    /// Takes the places of the names of a list away.
    pub fn clear(&mut self, list: List<'_>)
        ensures { actuals.places_in self.new ≡ actuals.cleared list.entry (actuals.places_in self.old) }
    {
        match list {
            List::Empty => {}
            List::Ordered(_, _) => {}
            List::Named(named) => {
                self.put(named.first.name.name, 0);
                self.clear_more(named.more.as_slice());
            }
        }
    }

    /// Takes the places of the names after the first one away.
    fn clear_more(&mut self, more: &[Joined<Connection>])
        ensures { actuals.places_in self.new ≡ actuals.without (map (λ j. j.item) more.now) (actuals.places_in self.old) }
    {
        for joined in more {
            self.put(joined.item.name.name, 0);
        }
    }

    /// The connection of this name in a list whose names have their places. `None`: it has none.
    pub fn named<'t>(&self, list: List<'t>, name: NameId) -> Option<&'t Connection>
        ensures { option_copied result ≡ actuals.named list.entry (actuals.places_in self.now) name.0 }
    {
        match list {
            List::Empty => None,
            List::Ordered(_, _) => None,
            List::Named(named) => at_place(named, self.place(name)),
        }
    }

    /// What a list, whose names have their places, gives to the parameter or port of this name, which is the one of
    /// this number in its module.
    pub fn given<'t>(&self, list: List<'t>, name: NameId, number: usize) -> Given<'t>
        ensures { actuals.actual result ≡ actuals.given_in list.entry (actuals.places_in self.now) name.0 number }
    {
        match list {
            List::Empty => Given::Nothing,
            List::Ordered(first, more) => in_order(first, more, number),
            List::Named(_) => of_connection_if(self.named(list, name)),
        }
    }
}

/// What is given to the one of this number.
fn in_order<'t>(first: &'t Expr, more: &'t [Step], number: usize) -> Given<'t>
    ensures { actuals.actual result ≡ actuals.in_order first.now more.now number }
{
    if number == 0 {
        return Given::Value(first);
    }
    match more.get(number - 1) {
        Some(step) => Given::Value(&step.operand),
        None => Given::Nothing,
    }
}

/// The connection of this place, counted from 1.
fn at_place(named: &CommaList<Connection>, place: u32) -> Option<&Connection>
    ensures { option_copied result ≡ actuals.at_place (actuals.connections_in named.now) place }
{
    if place == 0 {
        return None;
    }
    if place == 1 {
        return Some(&named.first);
    }
    later(named.more.as_slice(), (place - 2) as usize)
}

/// The connection of this number after the first one, counted from 0.
fn later(more: &[Joined<Connection>], number: usize) -> Option<&Connection>
    ensures { option_copied result ≡ option_map (λ j. j.item) (slice_get more.now number) }
{
    match more.get(number) {
        Some(joined) => Some(&joined.item),
        None => None,
    }
}

/// What the connection of a name gives, where it has one.
fn of_connection_if(connection: Option<&Connection>) -> Given<'_>
    ensures { actuals.actual result ≡ actuals.of_connection_if (option_copied connection.entry) }
{
    match connection {
        Some(connection) => of_connection(connection),
        None => Given::Nothing,
    }
}

/// What a connection gives: `.p` means `.p(p)`, and `.p()` nothing.
pub fn of_connection(connection: &Connection) -> Given<'_>
    ensures { actuals.actual result ≡ actuals.of_connection connection.now }
{
    match &connection.value {
        None => Given::Same(connection.name),
        Some(connected) => match &connected.value {
            None => Given::Nothing,
            Some(value) => Given::Value(value),
        },
    }
}
