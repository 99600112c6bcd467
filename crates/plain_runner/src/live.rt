//! What a run changes.

use dpi_host::CallBuf;

// The host, the words, and the calls that are kept.
#[derive(Drop)]
pub(crate) struct Live<C> {
    pub(crate) host: C,
    pub(crate) words: Vec<u64>,
    pub(crate) calls: CallBuf,
}

// The words at the test before, and which processes fired at it.
#[derive(Drop)]
pub(crate) struct Past {
    pub(crate) last: Vec<u64>,
    pub(crate) fired: Vec<bool>,
}
