//! What lasts from eval to eval.
use vcd_out::VcdBuf;
use vs_base::Bits;

/// Room for the longest texts of an eval, and how many entries were done so far.
#[derive(Drop)]
pub struct Output {
    pub line: Vec<u8>,
    pub log: Vec<u8>,
    pub changes: VcdBuf,
    pub done: u64,
}

/// What lasts from eval to eval: what is set, the values after the eval before, the number of the next eval, and room.
#[derive(Drop)]
pub struct Session {
    /// The value of each port. Those of outputs are not looked at.
    pub set: Vec<Bits>,
    /// Those of the inputs.
    pub inputs: Vec<Bits>,
    /// The values of the variables after the eval before.
    pub before: Vec<Bits>,
    /// Those after the eval under way.
    pub after: Vec<Bits>,
    pub out: Output,
    /// The number of the next eval.
    pub number: u64,
}
