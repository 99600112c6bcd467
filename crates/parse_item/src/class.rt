//! Classes of symbols.

ghost use Rattle.std.specs.Prelude.{◌≡◌};
ghost use Rattle.sv_tree.specs.Symbol as spec;

use sv_tree::Symbol;

/// Whether it is the direction of a port.
pub fn is_direction(symbol: Symbol) -> bool
    ensures { result ≡ spec.is_direction symbol }
{
    matches!(symbol, Symbol::Input | Symbol::Output)
}

/// Whether it says how an import is called.
pub fn is_manner(symbol: Symbol) -> bool
    ensures { result ≡ spec.is_manner symbol }
{
    matches!(symbol, Symbol::Pure | Symbol::Context)
}

/// Whether it is the word of a parameter among items.
pub fn is_parameter(symbol: Symbol) -> bool
    ensures { result ≡ spec.is_parameter symbol }
{
    matches!(symbol, Symbol::Parameter | Symbol::Localparam)
}

/// Whether it is the edge of an event.
pub fn is_edge(symbol: Symbol) -> bool
    ensures { result ≡ spec.is_edge symbol }
{
    matches!(symbol, Symbol::Posedge | Symbol::Negedge)
}

/// Whether it is the mark between two events.
pub fn is_event_mark(symbol: Symbol) -> bool
    ensures { result ≡ spec.is_event_mark symbol }
{
    matches!(symbol, Symbol::Or | Symbol::Comma)
}
