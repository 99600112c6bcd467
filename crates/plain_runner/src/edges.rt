//! Which processes fire.
ghost use Rattle.std.specs.Prelude.{◌≡◌, ◌<◌, ℕ, Bool, length, true, slice_index};
ghost use Rattle.std.specs.List.{list_all, list_any};
ghost use Rattle.rtl_ir.specs.WithinDesign.{event_fits, kind_fits};
ghost use Rattle.plan_types.specs.Machine.{event_word, is_edge as steps, occurs as has_edge, kind_fires, fired_of};

use plan_types::Built;
use rtl_ir::{Event, ProcKind};

// Notes which processes fire between two lists of words, and tells whether one does.
pub(crate) fn fire(
    built: &Built,
    events: &[usize],
    last: &[u64],
    now: &[u64],
    fired: &mut [bool],
) -> bool
    requires each { (v : ℕ) → v < length built.now.design.vars → slice_index events.now v ≡ event_word built.now.layout.words.items v }
    requires many { length fired.old ≡ length built.now.design.procs }
    ensures fired { fired.new ≡ fired_of built.now.design.procs built.now.layout.words.items last.now now.now }
    ensures any { result ≡ list_any (λ (f : Bool). f) (fired_of built.now.design.procs built.now.layout.words.items last.now now.now) }
{
    let procs = built.design.procs.as_slice();
    let mut any = false;
    for proc in 0..procs.len() {
        let fires = fires(&procs[proc].kind, built, events, last, now);
        fired[proc] = fires;
        any = any || fires;
    }
    any
}

fn fires(kind: &ProcKind, built: &Built, events: &[usize], last: &[u64], now: &[u64]) -> bool
    requires each { (v : ℕ) → v < length built.now.design.vars → slice_index events.now v ≡ event_word built.now.layout.words.items v }
    requires fits { kind_fits (length built.now.design.vars) kind.now ≡ true }
    ensures { result ≡ kind_fires built.now.layout.words.items last.now now.now kind.now }
{
    match kind {
        ProcKind::Comb => false,
        ProcKind::Clocked(list) => some_occurs(list.as_slice(), built, events, last, now),
    }
}

fn some_occurs(list: &[Event], built: &Built, events: &[usize], last: &[u64], now: &[u64]) -> bool
    requires each { (v : ℕ) → v < length built.now.design.vars → slice_index events.now v ≡ event_word built.now.layout.words.items v }
    requires fits { list_all (event_fits (length built.now.design.vars)) list.now ≡ true }
    ensures { result ≡ list_any (has_edge built.now.layout.words.items last.now now.now) list.now }
{
    let mut some = false;
    for event in list {
        some = some || occurs(*event, built, events, last, now);
    }
    some
}

fn occurs(event: Event, built: &Built, events: &[usize], last: &[u64], now: &[u64]) -> bool
    requires each { (v : ℕ) → v < length built.now.design.vars → slice_index events.now v ≡ event_word built.now.layout.words.items v }
    requires fits { event_fits (length built.now.design.vars) event ≡ true }
    ensures { result ≡ has_edge built.now.layout.words.items last.now now.now event }
{
    let word = at(events, event.var as usize);
    is_edge(event.rising, value(last, word), value(now, word))
}

fn at(list: &[usize], place: usize) -> usize
    ensures { result ≡ slice_index list.now place }
{
    list.get(place).copied().unwrap_or(0)
}

fn value(words: &[u64], word: usize) -> u64
    ensures { result ≡ slice_index words.now word }
{
    words.get(word).copied().unwrap_or(0)
}

fn is_edge(rising: bool, was: u64, is: u64) -> bool
    ensures { result ≡ steps rising was is }
{
    if rising {
        return was == 0 && is == 1;
    }
    was == 1 && is == 0
}
