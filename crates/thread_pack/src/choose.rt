//! Which task is placed next, and where.
ghost use Rattle.std.specs.Prelude.{◌≡◌, ◌<◌, ◌≤◌, ◌*◌, ◌^◌, ℕ, [], None, length, vec_len, slice_index, slice_index_or};
ghost use Rattle.thread_pack.specs.Packing.{goes_first, pick, first_of};
ghost use Rattle.thread_pack.specs.Tables.{put_on, row_choices, choices_by, members_below};

use crate::put::Put;
use node_sets::NodeSet;
use sqlite_items::Items;

/// Of the ready tasks on all threads the one that goes first.
#[tactic(auto, using(crate::proofs::TableLemmas::choose_more))]
pub fn choose(ready: &NodeSet, free: &[u64], arrive: &[Items<u64>], tails: &[u128]) -> Option<Put>
    requires few { length arrive.now < 2 ^ 32 }
    requires threads { length free.now < 2 ^ 32 }
    requires room { length arrive.now ≤ 64 * vec_len ready.now.words }
    requires rows { (t : ℕ) → t < length arrive.now → length (slice_index_or arrive.now t []) ≡ length free.now }
    requires tails { length tails.now ≡ length arrive.now }
    ensures { result ≡ first_of (slice_index tails.now) None (choices_by free.now arrive.now (length free.now) (members_below ready.now.words.items (length arrive.now))) }
{
    let mut best = None;
    for t in 0..arrive.len() {
        if ready.has(t as u32) {
            best = best_on(best, t as u32, free, arrive[t].as_slice(), tails);
        }
    }
    best
}

// The best so far, or one of this task on the threads.
#[tactic(auto, using(crate::proofs::TableLemmas::on_one_more))]
fn best_on(best: Option<Put>, task: u32, free: &[u64], row: &[u64], tails: &[u128]) -> Option<Put>
    requires threads { length free.now < 2 ^ 32 }
    requires row { length row.now ≡ length free.now }
    ensures { result ≡ first_of (slice_index tails.now) best (row_choices task free.now row.now (length free.now)) }
{
    let mut now = best;
    for thread in 0..free.len() {
        let put = Put {
            task,
            thread: thread as u32,
            start: free[thread].max(row[thread]),
        };
        now = Some(better_of(now, put, tails));
    }
    now
}

fn better_of(best: Option<Put>, put: Put, tails: &[u128]) -> Put
    ensures { result ≡ pick (slice_index tails.now) best put }
{
    let Some(other) = best else {
        return put;
    };
    if goes_first(put, other, tails) {
        put
    } else {
        other
    }
}

// Whether a task on a thread goes before another: the earlier start, then the longer tail.
fn goes_first(put: Put, other: Put, tails: &[u128]) -> bool
    ensures { result ≡ goes_first (slice_index tails.now) put other }
{
    put.start < other.start
        || (put.start == other.start && tail_of(other, tails) < tail_of(put, tails))
}

fn tail_of(put: Put, tails: &[u128]) -> u128
    ensures { result ≡ slice_index tails.now put.task }
{
    let at = put.task as usize;
    if at < tails.len() { tails[at] } else { 0 }
}
