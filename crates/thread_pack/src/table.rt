//! Since when each thread is free, and when it has what each task waits for.
ghost use Rattle.std.specs.Prelude.{◌≡◌, ◌<◌, ◌≤◌, ◌+◌, ◌/◌, ◌==◌, ◌^◌, ℕ, true, IfOk, length, [], max, if◌then◌else◌, slice_index, slice_index_or};
ghost use Rattle.std.specs.List.{list_all};
ghost use Rattle.plan_graph.specs.Graphs.{is_among};
ghost use Rattle.plan_graph.specs.ListLaws.{all_below};

use crate::put::Put;
use sqlite_items::Items;
use std::alloc::{AllocError, Global};

/// For each thread the end of its last task, and for each task and thread the time at which all is there that the task
/// waits for, of what is placed.
#[derive(Drop)]
pub struct Table {
    pub free: Vec<u64>,
    pub arrive: Vec<Items<u64>>,
}

/// The table before any task is placed.
pub fn empty_table(alloc: Global, tasks: usize, threads: usize) -> Result<Table, AllocError>
    ensures free { IfOk result (λ t. (k : ℕ) → slice_index t.free.items k ≡ 0) }
    ensures free_len { IfOk result (λ t. length t.free.items ≡ threads) }
    ensures rows { IfOk result (λ t. (n k : ℕ) → slice_index (slice_index_or t.arrive.items n []) k ≡ 0) }
    ensures rows_len { IfOk result (λ t. length t.arrive.items ≡ tasks) }
    ensures row_len { IfOk result (λ t. (n : ℕ) → n < tasks → length (slice_index_or t.arrive.items n []) ≡ threads) }
{
    let free = vec![in alloc; 0; threads]?;
    let arrive = empty_rows(alloc, tasks, threads)?;
    Ok(Table { free, arrive })
}

fn empty_rows(alloc: Global, tasks: usize, threads: usize) -> Result<Vec<Items<u64>>, AllocError>
    ensures len { IfOk result (λ v. length v.items ≡ tasks) }
    ensures row_len { IfOk result (λ v. (n : ℕ) → n < tasks → length (slice_index_or v.items n []) ≡ threads) }
    ensures rows { IfOk result (λ v. (n k : ℕ) → slice_index (slice_index_or v.items n []) k ≡ 0) }
{
    let mut rows = Vec::with_capacity(alloc, tasks)?;
    'fill: while rows.len() < tasks {
        let row: Vec<u64> = vec![in alloc; 0; threads]?;
        rows.push(Items::from_vec(row))?;
    }
    Ok(rows)
}

impl Table {
    /// A task is placed: its thread is busy until its end, and those that wait for it can begin there at its end, and
    /// elsewhere a quarter of its cost later, rounded up.
    pub fn place(&mut self, put: Put, cost: u64, targets: &[u32])
        requires thread { put.thread < length self.old.free.items }
        requires within { all_below (length self.old.arrive.items) targets.now ≡ true }
        requires fits { put.start + cost + cost < 2 ^ 64 }
        ensures free { (k : ℕ) → slice_index self.new.free.items k ≡ (if put.thread == k then put.start + cost else slice_index self.old.free.items k) }
        ensures free_len { length self.new.free.items ≡ length self.old.free.items }
        ensures rows_len { length self.new.arrive.items ≡ length self.old.arrive.items }
        ensures row_len { (n : ℕ) → length (slice_index_or self.new.arrive.items n []) ≡ length (slice_index_or self.old.arrive.items n []) }
        ensures rows { (n k : ℕ) → k < length (slice_index_or self.old.arrive.items n []) → slice_index (slice_index_or self.new.arrive.items n []) k ≡ (if is_among n targets.now then max (slice_index (slice_index_or self.old.arrive.items n []) k) (put.start + cost + (if put.thread == k then 0 else (cost + 3) / 4)) else slice_index (slice_index_or self.old.arrive.items n []) k) }
    {
        let end = put.start + cost;
        let late = end + quarter(cost);
        self.free[put.thread as usize] = end;
        raise_all(&mut self.arrive, targets, put.thread, end, late);
    }
}

// A quarter, rounded up.
fn quarter(cost: u64) -> u64
    ensures quarter { result ≡ (cost + 3) / 4 }
    ensures small { result ≤ cost }
{
    cost / 4 + if cost % 4 == 0 { 0 } else { 1 }
}

#[tactic(auto, using(crate::proofs::GroupLemmas::below_at))]
fn raise_all(rows: &mut Vec<Items<u64>>, targets: &[u32], thread: u32, end: u64, late: u64)
    requires within { all_below (length rows.old.items) targets.now ≡ true }
    ensures len { length rows.new.items ≡ length rows.old.items }
    ensures row_len { (n : ℕ) → length (slice_index_or rows.new.items n []) ≡ length (slice_index_or rows.old.items n []) }
    ensures rows { (n k : ℕ) → k < length (slice_index_or rows.old.items n []) → slice_index (slice_index_or rows.new.items n []) k ≡ (if is_among n targets.now then max (slice_index (slice_index_or rows.old.items n []) k) (if thread == k then end else late) else slice_index (slice_index_or rows.old.items n []) k) }
{
    for t in targets {
        raise(&mut rows[*t as usize], thread, end, late);
    }
}

// No entry of a row is below what is given there.
fn raise(row: &mut Items<u64>, thread: u32, end: u64, late: u64)
    ensures len { length row.new ≡ length row.old }
    ensures row { (k : ℕ) → k < length row.old → slice_index row.new k ≡ max (slice_index row.old k) (if thread == k then end else late) }
{
    for k in 0..row.len() {
        let given = if k == thread as usize { end } else { late };
        let most = row.as_slice()[k].max(given);
        row.set(k, most);
    }
}
