//! The types of ports.

ghost use Rattle.std.specs.Prelude.{◌≡◌, IfOk};
ghost use Rattle.sv_expr.specs.Bound.{fault_in};
ghost use Rattle.sv_expr.specs.Environment.{environment};
ghost use Rattle.elab_types.specs.Port as ports;

use crate::kinds::{Direction, PortType};
use crate::packed::{one_bit, packed_type};
use sv_expr::{ScopeView, WalkFault, symbol};
use sv_tree::{Names, Port, Symbol, Token};

/// Before the first port of a list, which has a direction of its own.
pub fn no_port() -> PortType
    ensures { ports.port_shape result ≡ ports.no_port }
{
    PortType {
        direction: Direction::Input,
        packed: one_bit(false),
    }
}

/// The direction and the type of a port, from those of the port before it (IEEE 1800-2017 23.2.2.3): without a
/// direction it takes that of the port before, with neither direction nor type it takes both, and a direction
/// without a type gives one bit without a sign.
///
/// The fault is that of its type.
pub fn port_type(
    scope: &ScopeView<'_>,
    port: &Port,
    before: PortType,
) -> Result<PortType, WalkFault>
    ensures kind { IfOk result (λ found. ports.port_shape found ≡ ports.port_of (environment scope.now) port.now (ports.port_shape before)) }
    ensures fault { fault_in result ≡ ports.fault_of (environment scope.now) port.now }
{
    let direction = match port.direction {
        None => before.direction,
        Some(word) => direction(scope.names, word),
    };
    let Some(kind) = &port.kind else {
        let packed = match port.direction {
            None => before.packed,
            Some(_) => one_bit(false),
        };
        return Ok(PortType { direction, packed });
    };
    match packed_type(scope, kind) {
        Ok(packed) => Ok(PortType { direction, packed }),
        Err(fault) => Err(fault),
    }
}

/// The direction of its word.
fn direction(names: &Names, word: Token) -> Direction
    ensures { result ≡ ports.direction names.now word }
{
    match symbol(names, word) {
        Symbol::Output => Direction::Output,
        _ => Direction::Input,
    }
}
