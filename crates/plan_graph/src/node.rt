/// One of the two parts of a run: *settle* comes after the inputs were set, *clocked* where a clock edge fired.
#[derive(Clone, Copy, Debug, PartialEq, Eq)]
pub enum Part {
    Settle,
    Clocked,
}

/// What a plan runs as one piece. Each number is that of a process of the design, in elaboration order.
#[derive(Clone, Copy, Debug, PartialEq, Eq)]
pub enum Node {
    /// A combinational process.
    Comb(u32),
    /// The body of a clocked process.
    Body(u32),
    /// The commit of a clocked process, which puts its nonblocking writes in place.
    Commit(u32),
}

/// An edge of a graph: `to` runs after `from`. Both are numbers of nodes.
#[derive(Clone, Copy, Debug, PartialEq, Eq)]
pub struct Edge {
    pub from: u32,
    pub to: u32,
}
