ghost use Rattle.std.specs.Prelude.{◌≡◌, ◌≤◌, ◌<◌, [], ◌∷◌, ◌++◌, length, take, slice_index, vec_capacity, IfOk};
ghost use Rattle.dpi_host.specs.Calls.{Call, Buffer, IsPadded, padded, length-take_padded, padded-take};

use crate::NoMemory;
use std::alloc::Global;
use std::marker::Model;

/// The record of one call. Contracts see the import's number, the list of the arguments and the
/// reply.
#[derive(Clone, Copy, Debug, PartialEq, Eq)]
pub struct CallRec {
    /// The import's number in the list of the design's imports.
    pub import: u32,
    /// How many arguments the call had, at most 8.
    pub count: u32,
    /// The arguments, of 64 bits, and 0 from `count` on.
    pub args: [u64; 8],
    /// The reply, cut to the width of the declared result; 0 where the import is void.
    pub reply: u64,
}

impl Model for CallRec {
    ghost Value = { Call };

    ghost view = { λ r. record { import = r.import; args = take r.count r.args; reply = r.reply } };

    ghost invariant = { λ r. IsPadded r.count r.args };

    ghost inverse = { λ c. record { import = c.import; count = length c.args; args = padded c.args; reply = c.reply } };

    ghost inverse_ok = { λ r is i. record {
      import = r.import;
      count = length-take_padded r.count r.args is i;
      args = padded-take r.count r.args is i;
      reply = r.reply;
    } };
}

impl CallRec {
    /// The record of a call of an import, by its number in the design, with at most 8 arguments and
    /// a reply that is cut already.
    pub fn new(import: u32, args: &[u64], reply: u64) -> CallRec
        requires { length args.now ≤ 8 }
        ensures { result ≡ record { import = import; args = args.now; reply = reply } }
    {
        CallRec {
            import,
            count: args.len() as u32,
            args: eight(args),
            reply,
        }
    }

    /// The arguments, of which there are at most 8.
    pub fn args(&self) -> &[u64]
        ensures value { result.now ≡ self.now.args }
        ensures few { length result.now ≤ 8 }
    {
        &self.args[..self.count as usize]
    }
}

/// The argument at a place, from 0, or 0 where it is missing.
pub fn argument(args: &[u64], place: usize) -> u64
    ensures { result ≡ slice_index args.now place }
{
    args.get(place).copied().unwrap_or(0)
}

// At most 8 arguments with zeros behind them.
fn eight(args: &[u64]) -> [u64; 8]
    requires { length args.now ≤ 8 }
    ensures { result ≡ padded args.now }
{
    [
        argument(args, 0),
        argument(args, 1),
        argument(args, 2),
        argument(args, 3),
        argument(args, 4),
        argument(args, 5),
        argument(args, 6),
        argument(args, 7),
    ]
}

/// A list of calls that has room for so many, and takes no memory after it was made. Contracts see
/// the calls and the room in all.
#[derive(Drop)]
pub struct CallBuf {
    records: Vec<CallRec>,
    room: u32,
}

impl Model for CallBuf {
    ghost Value = { Buffer };

    ghost view = { λ b. record { calls = b.records.items; room = b.room } };

    ghost invariant = { λ b. b.room ≤ vec_capacity b.records };
}

impl CallBuf {
    /// A buffer without calls, with room for `n`. `NoMemory`: there was none left.
    pub fn with_room(alloc: Global, n: u32) -> Result<CallBuf, NoMemory>
        ensures { IfOk result (λ buffer. buffer ≡ record { calls = []; room = n }) }
    {
        let Ok(records) = Vec::with_capacity(alloc, n as usize) else {
            return Err(NoMemory);
        };
        Ok(CallBuf { records, room: n })
    }

    /// Puts a call at the end. Takes no memory and cannot fail.
    pub fn push(&mut self, rec: CallRec)
        requires { length self.old.calls < self.old.room }
        ensures { self.new ≡ record self.old { calls = self.old.calls ++ rec ∷ [] } }
    {
        self.records.push_reserved(rec);
    }

    /// Drops the calls and gives all room back. Takes no memory.
    pub fn clear(&mut self)
        ensures { self.new ≡ record self.old { calls = [] } }
    {
        self.records.clear();
    }

    /// The records that were pushed since the last `clear`, in order.
    pub fn records(&self) -> &[CallRec]
        ensures { result.now ≡ self.now.calls }
    {
        self.records.as_slice()
    }
}
