//! The ports of an instance, and what they are connected to (IEEE 1800-2017 23.3.3).

use crate::counts::Tally;
use crate::given::{Given, List, Places, of_connection};
use crate::head::{HeadPort, port_denoted};
use crate::present::Present;
use crate::stop::Stop;
use elab_types::Direction;
use sv_expr::{Constant, Denoted, Fixed};
use sv_tree::{CommaList, Connection, Expr};
use sv_walk::{visit_expr, visit_target};

/// Connects ports in their order, each a process of the scope that holds the instance.
pub fn join_ports(
    present: &mut Present<'_>,
    places: &Places,
    connections: List<'_>,
    ports: &[HeadPort],
) -> Result<(), Stop> {
    for (number, port) in ports.iter().enumerate() {
        let given = places.given(connections, port.name.name, number);
        present.connect(port.kind.direction, given)?;
    }
    Ok(())
}

impl Present<'_> {
    /// The first fault of what is given in a list, in token order.
    pub fn check_list(&self, list: List<'_>) -> Result<(), Stop> {
        match list {
            List::Empty => Ok(()),
            List::Ordered(first, more) => {
                self.check(first)?;
                self.check_steps(more)
            }
            List::Named(named) => self.check_named(named),
        }
    }

    /// The first fault of what is given by name.
    fn check_named(&self, named: &CommaList<Connection>) -> Result<(), Stop> {
        self.check_given(of_connection(&named.first))?;
        for joined in named.more.as_slice() {
            self.check_given(of_connection(&joined.item))?;
        }
        Ok(())
    }

    /// The first fault of what is given. A name alone has none.
    fn check_given(&self, given: Given<'_>) -> Result<(), Stop> {
        match given {
            Given::Value(expr) => self.check(expr),
            Given::Nothing | Given::Same(_) => Ok(()),
        }
    }

    /// Connects a port.
    fn connect(&mut self, direction: Direction, given: Given<'_>) -> Result<(), Stop> {
        match given {
            Given::Nothing => Ok(()),
            Given::Same(_) => self.connect_name(direction),
            Given::Value(expr) => self.connect_value(direction, expr),
        }
    }

    /// Counts a connection to a name. For an input the name is a term, for an output it is written.
    fn connect_name(&mut self, direction: Direction) -> Result<(), Stop> {
        self.counts.process()?;
        match direction {
            Direction::Input => self.counts.lay(Tally::of(2)),
            Direction::Output => self.counts.lay(Tally::of(1)),
        }
    }

    /// A connection to an expression: what it counts, then its first fault.
    fn connect_value(&mut self, direction: Direction, expr: &Expr) -> Result<(), Stop> {
        let mut tally = Tally::of(1);
        match direction {
            Direction::Input => visit_expr(self.names, &mut tally, expr, false),
            Direction::Output => visit_target(self.names, &mut tally, expr),
        }
        self.counts.process()?;
        self.counts.lay(tally)?;
        self.check(expr)
    }

    /// Declares the constants and the ports of an instance in its scope.
    pub fn declare_head(&mut self, values: &[Constant], ports: &[HeadPort]) -> Result<(), Stop> {
        for constant in values {
            let constant = *constant;
            let fixed = Fixed {
                kind: constant.kind,
                value: constant.value,
            };
            self.table.declare(constant.name, Denoted::Constant(fixed))?;
        }
        for port in ports {
            self.table.declare(port.name.name, port_denoted(port.kind))?;
        }
        Ok(())
    }
}
