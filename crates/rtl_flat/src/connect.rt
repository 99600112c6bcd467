//! What connections read and write (IEEE 1800-2017 23.3.3).

use elab_parts::Given;
use rtl_ir::{Expr, ExprNode, Place, Width};
use rtl_lower::{
    FlatFault, Here, assigned, connected_place, kind_of, kind_of_name, named, of_declared, target,
    variable,
};
use sqlite_items::Items;
use sv_expr::Declared;
use sv_tree::{Connection, Token};
use sv_walk::first_token;
use vs_base::Origin;

/// What an output is connected to: the place, and how many bits it has.
#[derive(Drop)]
pub struct Connected {
    pub place: Place,
    pub width: Width,
}

/// The value of a name that is assigned to so many bits.
pub fn named_value(name: Token, here: &Here<'_>, width: Width) -> Result<Expr, FlatFault> {
    let kind = assigned(kind_of_name(name, here)?, width);
    let node = named(&[], name, here, kind)?;
    Ok(Expr {
        width: kind.width,
        signed: kind.signed,
        node,
    })
}

/// The value of a port that is assigned to so many bits.
pub fn port_value(port: Declared, width: Width) -> Expr {
    let kind = assigned(of_declared(port), width);
    Expr {
        width: kind.width,
        signed: kind.signed,
        node: ExprNode::Read(variable(port.item)),
    }
}

/// The place of the process of a connection: that of its dot where it is by name, or else of the first token of the
/// expression. `None`: nothing is connected.
pub fn process_at(given: Given<'_>, named: Option<&Connection>) -> Option<Origin> {
    match given {
        Given::Nothing => None,
        Given::Value(expr) => match named {
            Some(connection) => Some(connection.dot.at),
            None => Some(first_token(expr).at),
        },
        Given::Same(name) => match named {
            Some(connection) => Some(connection.dot.at),
            None => Some(name.at),
        },
    }
}

/// What an output is connected to, if to anything.
pub fn connection(given: Given<'_>, here: &Here<'_>) -> Result<Option<Connected>, FlatFault> {
    match given {
        Given::Nothing => Ok(None),
        Given::Value(expr) => {
            let width = kind_of(expr, here)?.width;
            let place = connected_place(expr, here)?;
            Ok(Some(Connected { place, width }))
        }
        Given::Same(name) => {
            let width = kind_of_name(name, here)?.width;
            let place = named_place(name, here)?;
            Ok(Some(Connected { place, width }))
        }
    }
}

/// The place of a name.
fn named_place(name: Token, here: &Here<'_>) -> Result<Place, FlatFault> {
    let mut parts = Items::new(here.alloc);
    parts.push(target(&[], name, here)?)?;
    Ok(Place { parts })
}
