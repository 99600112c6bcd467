//! A run of a part.
use plan_graph::Part;
use thiserror::Error;

/// One run of a part.
#[derive(Drop)]
pub struct RunNow {
    pub part: Part,
    /// Tells one run from the next.
    pub odd: bool,
    /// Of each process, whether it fired. What stands at a combinational one is not looked at.
    pub fired: Vec<bool>,
}

/// How often the clocked nodes may run in one eval. What still fires after that does not converge.
pub const MOST_RUNS: u32 = 99;

/// Why an eval was given up.
#[derive(Clone, Copy, Debug, PartialEq, Eq, Error)]
pub enum RunFault {
    /// A process still fired when the clocked nodes had run as often as they may.
    #[error("not converged")]
    NotConverged,
}
