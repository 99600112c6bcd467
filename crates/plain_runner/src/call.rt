//! Calls of imports.
ghost use Rattle.std.specs.Prelude.{◌≡◌, ◌<◌, ◌≤◌, length, slice_index, slice_index_or, false};
ghost use Rattle.plain_runner.specs.Seen.{seen_of, env_of, reply_in, call_in};

use crate::callee::Callee;
use crate::live::Live;
use crate::tables::Tables;
use dpi_host::CallRec;
use plan_types::Built;
use run_tables::cut;

// Calls an import, and keeps the call where it is not deemed safe.
pub(crate) fn call<C: Callee>(
    built: &Built,
    tables: &Tables,
    import: u32,
    args: &[u64],
    live: &mut Live<C>,
) -> u64
    requires there { import < length built.now.ids }
    requires few { length args.now ≤ 8 }
    requires fits { length (call_in C.answer C.after (env_of (C.fixed live.old.host) built.now.ids tables.now.widths.items built.now.deemed) import args.now (seen_of live.old.words.items (C.state live.old.host) live.old.calls.calls)).calls ≤ live.old.calls.room }
    ensures reply { result ≡ reply_in C.answer C.after (env_of (C.fixed live.old.host) built.now.ids tables.now.widths.items built.now.deemed) import args.now (C.state live.old.host) }
    ensures seen { seen_of live.new.words.items (C.state live.new.host) live.new.calls.calls ≡ call_in C.answer C.after (env_of (C.fixed live.old.host) built.now.ids tables.now.widths.items built.now.deemed) import args.now (seen_of live.old.words.items (C.state live.old.host) live.old.calls.calls) }
    ensures fixed { C.fixed live.new.host ≡ C.fixed live.old.host }
    ensures words { live.new.words.items ≡ live.old.words.items }
    ensures place { live.new.calls.room ≡ live.old.calls.room }
{
    let answered = live.host.call(built.ids.as_slice()[import as usize], args);
    let width = width_of(tables.widths.as_slice(), import);
    let reply = cut(answered, width);
    if !is_deemed(built.deemed.as_slice(), import) {
        live.calls.push(CallRec::new(import, args, reply));
    }
    reply
}

fn width_of(widths: &[u32], import: u32) -> u32
    ensures { result ≡ slice_index widths.now import }
{
    widths.get(import as usize).copied().unwrap_or(0)
}

fn is_deemed(deemed: &[bool], import: u32) -> bool
    ensures { result ≡ slice_index_or deemed.now import false }
{
    deemed.get(import as usize).copied().unwrap_or(false)
}
