//! What a runner takes when it is opened.
ghost use Rattle.std.specs.Prelude.{◌≡◌, ◌<◌, ℕ, [], length, map, slice_index, true, IfOk};
ghost use Rattle.std.specs.List.{list_all};
ghost use Rattle.task_eval.specs.Codes.{deepest};
ghost use Rattle.plan_types.specs.Machine.{input_words as words_of_inputs, event_word, opening_words as words_at_opening};
ghost use Rattle.plan_types.specs.Room.{call_room as room_of};
ghost use Rattle.run_tables.specs.Tables.{is_narrow};
ghost use Rattle.plain_runner.specs.Tabled.{AreTables};

use crate::live::Past;
use crate::tables::Tables;
use dpi_host::{CallBuf, NoMemory};
use plan_types::{Built, InputWord};
use rtl_pieces::Word;
use run_tables::{call_room, event_words, input_words, node_codes, opening_words, result_widths};
use std::alloc::Global;
use task_eval::Frame;

// The tables of a model.
pub(crate) fn tables(alloc: Global, built: &Built) -> Result<Tables, NoMemory>
    ensures { IfOk result (λ tables. AreTables built.now tables) }
{
    let inputs = input_words(alloc, &built.design, &built.layout)?;
    let events = event_words(alloc, &built.design, &built.layout)?;
    with_codes(alloc, built, inputs, events)
}

fn with_codes(
    alloc: Global,
    built: &Built,
    inputs: Vec<InputWord>,
    events: Vec<usize>,
) -> Result<Tables, NoMemory>
    requires inputs { inputs.items ≡ words_of_inputs built.now.design.ports built.now.layout.words.items }
    requires narrow { list_all is_narrow inputs.items ≡ true }
    requires events { (v : ℕ) → v < length built.now.design.vars → slice_index events.items v ≡ event_word built.now.layout.words.items v }
    ensures { IfOk result (λ tables. AreTables built.now tables) }
{
    let widths = result_widths(alloc, &built.design)?;
    let procs = built.design.procs.as_slice();
    let codes = built.codes.len();
    let settle = node_codes(alloc, procs, codes, built.settle.nodes.as_slice())?;
    let clocked = node_codes(alloc, procs, codes, built.clocked.nodes.as_slice())?;
    Ok(Tables {
        inputs,
        events,
        widths,
        settle,
        clocked,
    })
}

// The place of the calls that are kept, and for how many it is.
#[derive(Drop)]
pub(crate) struct CallRoom {
    pub(crate) calls: CallBuf,
    pub(crate) room: u32,
}

// The memory of a run.
#[derive(Drop)]
pub(crate) struct Room {
    pub(crate) frame: Frame,
    pub(crate) words: Vec<u64>,
    pub(crate) past: Past,
}

pub(crate) fn memory(alloc: Global, built: &Built) -> Result<Room, NoMemory>
    ensures frame { IfOk result (λ m. m.frame.room ≡ deepest built.now.codes) }
    ensures words { IfOk result (λ m. m.words.items ≡ words_at_opening built.now.design.vars built.now.layout.words.items) }
    ensures last { IfOk result (λ m. m.past.last.items ≡ map (λ (w : Word). 0) built.now.layout.words.items) }
    ensures fired { IfOk result (λ m. length m.past.fired.items ≡ length built.now.design.procs) }
{
    let frame = Frame::for_code(alloc, built.codes.as_slice())?;
    let words = opening_words(alloc, &built.design, &built.layout)?;
    let past = past(alloc, built)?;
    Ok(Room { frame, words, past })
}

// The place of the calls that an eval can keep. There is no memory for 2^32 of them or more.
pub(crate) fn room_for_calls(
    alloc: Global,
    built: &Built,
    tables: &Tables,
) -> Result<CallRoom, NoMemory>
    requires { AreTables built.now tables.now }
    ensures calls { IfOk result (λ r. r.calls ≡ record { calls = []; room = room_of built.now }) }
    ensures room { IfOk result (λ r. r.room ≡ room_of built.now) }
{
    let all = call_room(built, tables.settle.as_slice(), tables.clocked.as_slice());
    let Ok(room) = u32::try_from(all) else {
        return Err(NoMemory);
    };
    let calls = CallBuf::with_room(alloc, room)?;
    Ok(CallRoom { calls, room })
}

fn past(alloc: Global, built: &Built) -> Result<Past, NoMemory>
    ensures last { IfOk result (λ p. p.last.items ≡ map (λ (w : Word). 0) built.now.layout.words.items) }
    ensures fired { IfOk result (λ p. length p.fired.items ≡ length built.now.design.procs) }
{
    let last = zeros(alloc, built.layout.words.as_slice())?;
    let fired = nothing_fired(alloc, built.design.procs.len())?;
    Ok(Past { last, fired })
}

fn zeros(alloc: Global, words: &[Word]) -> Result<Vec<u64>, NoMemory>
    ensures { IfOk result (λ out. out.items ≡ map (λ (w : Word). 0) words.now) }
{
    let mut out = Vec::new(alloc);
    for word in words {
        let Ok(()) = out.push(0) else {
            return Err(NoMemory);
        };
    }
    Ok(out)
}

fn nothing_fired(alloc: Global, procs: usize) -> Result<Vec<bool>, NoMemory>
    ensures { IfOk result (λ out. length out.items ≡ procs) }
{
    let mut out = Vec::new(alloc);
    for n in 0..procs {
        let Ok(()) = out.push(false) else {
            return Err(NoMemory);
        };
    }
    Ok(out)
}
