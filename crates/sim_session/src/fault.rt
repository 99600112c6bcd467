use thiserror::Error;
use vs_world::Stream;

/// Why a run ended early. Its entries are numbered from 0: the files that are created, and then what is written, piece by
/// piece.
#[derive(Clone, Copy, Debug, PartialEq, Eq, Error)]
pub enum SessionFault {
    /// There was no memory left. Nothing was created and nothing was written.
    #[error("out of memory")]
    NoMemory,
    /// The world failed at an entry. So many before it, `pieces`, were done whole, and of the bytes of this one, which is on
    /// `stream`, exactly the first `bytes` were written: 0 where it creates a file.
    #[error("a stream failed")]
    World {
        stream: Stream,
        pieces: u64,
        bytes: u64,
    },
    /// The eval of this number, from 0, does not converge. The entries of those before it were done whole, and nothing of
    /// this one.
    #[error("not converged")]
    NotConverged(u64),
}
