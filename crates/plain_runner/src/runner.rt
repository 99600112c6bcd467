//! The runner.
ghost use Rattle.std.specs.Prelude.{◌≡◌, ◌≤◌, length, IfOk};
ghost use Rattle.task_eval.specs.Codes.{deepest};
ghost use Rattle.plan_types.specs.Machine.{opening};
ghost use Rattle.plan_types.specs.Room.{call_room};
ghost use Rattle.plain_runner.specs.Seen.{seen_of, env_of, machine_of};
ghost use Rattle.plain_runner.specs.Tabled.{AreTables};

use crate::callee::Called;
use crate::eval::evaluate;
use crate::live::{Live, Past};
use crate::open::{CallRoom, Room, memory, room_for_calls, tables as tables_of};
use crate::tables::Tables;
use dpi_host::{CallRec, Host, NoMemory};
use plan_types::{Built, RunFault, Runner};
use std::alloc::Global;
use task_eval::Frame;
use vs_base::Bits;

/// Runs a model on one thread, node by node in serial order.
#[derive(Drop)]
pub struct PlainRunner<'a, H> {
    built: &'a Built,
    tables: Tables,
    frame: Frame,
    live: Live<Called<H>>,
    past: Past,
    room: u32,
    ghost tabled: { AreTables built.now tables },
    ghost deep: { deepest built.now.codes ≤ frame.room },
    ghost words: { length live.words.items ≡ length built.now.layout.words.items },
    ghost last: { length past.last.items ≡ length built.now.layout.words.items },
    ghost fired: { length past.fired.items ≡ length built.now.design.procs },
    ghost most: { room ≡ call_room built.now },
    ghost place: { live.calls.room ≡ call_room built.now },
    ghost few: { length live.calls.calls ≤ call_room built.now },
}

impl<'a, H: Host> PlainRunner<'a, H> {
    /// A runner of a model on a host, before its first eval. All memory of a run is taken here. `NoMemory`: there was none left.
    pub fn open(alloc: Global, built: &'a Built, host: H) -> Result<PlainRunner<'a, H>, NoMemory>
        ensures built { IfOk result (λ runner. ⟦<PlainRunner<'a, H> as Runner>⟧.built runner ≡ built.now) }
        ensures machine { IfOk result (λ runner. ⟦<PlainRunner<'a, H> as Runner>⟧.machine runner ≡ opening built.now (H.fixed host) (H.state host)) }
    {
        let tables = tables_of(alloc, built)?;
        let Room { frame, words, past } = memory(alloc, built)?;
        let CallRoom { calls, room } = room_for_calls(alloc, built, &tables)?;
        Ok(PlainRunner {
            built,
            tables,
            frame,
            live: Live {
                host: Called { host },
                words,
                calls,
            },
            past,
            room,
        })
    }
}

impl<'a, H: Host> Runner for PlainRunner<'a, H> {
    type Host = H;

    ghost built = { λ r. r.built.now };

    ghost machine = { λ r. machine_of (env_of (H.fixed r.live.host.host) r.built.now.ids r.tables.widths.items r.built.now.deemed) r.past.last.items (seen_of r.live.words.items (H.state r.live.host.host) r.live.calls.calls) };

    fn eval(&mut self, inputs: &[Bits]) -> Result<(), RunFault> {
        if evaluate(
            self.built,
            &self.tables,
            &mut self.frame,
            &mut self.live,
            &mut self.past,
            inputs,
        ) {
            return Ok(());
        }
        Err(RunFault::NotConverged)
    }

    fn word(&self, word: u32) -> u64 {
        self.live.words[word as usize]
    }

    fn calls(&self) -> &[CallRec] {
        self.live.calls.records()
    }

    fn room(&self) -> u32 {
        self.room
    }
}
