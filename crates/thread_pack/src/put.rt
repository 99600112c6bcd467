/// A task that is placed: on a thread, at a time.
#[derive(Clone, Copy, Debug, PartialEq, Eq)]
pub struct Put {
    pub task: u32,
    pub thread: u32,
    pub start: u64,
}
