use crate::Bits;

/// One step of a stimulus. Ports are numbered by their places in the design's list of ports.
#[derive(Clone, Copy, Debug, PartialEq, Eq)]
pub enum Act {
    /// Sets an input port, whose width the value has, from the next eval on.
    Set { port: u32, value: Bits },
    /// Evaluates the design once.
    Eval,
    /// Sets the port to 1, evaluates, sets it to 0 and evaluates, for each turn.
    Clock { port: u32, turns: u32 },
}
