/// A task: the thread that runs a group, and the time at which it may begin, in costs of nodes.
#[derive(Clone, Copy, Debug, PartialEq, Eq)]
pub struct Task {
    pub thread: u32,
    pub start: u64,
}
