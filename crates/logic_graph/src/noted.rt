//! The readers that are noted at their writers.
ghost use Rattle.std.specs.Prelude.{◌≡◌, ◌<◌, ◌≤◌, ◌-◌, ◌^◌, ◌==◌, ◌&&◌, ℕ, nat_lt, nat_le, IfOk, OnOk, All, MatchOption, sum_by, [], length, slice_index, slice_index_or, vec_len};
ghost use Rattle.logic_graph.specs.Reading.{OneWriter, edges_of};
ghost use Rattle.logic_graph.specs.Noting.{WritersAre, RunsEnd, Counted, HasNoted, note_in, note_range_in, note_all_in, is_last};
ghost use Rattle.vs_base.specs.declared.limits.TheConstants.{EDGES};

use crate::ranges::{Touched, WordRange};
use crate::writers::Writers;
use sqlite_items::Items;
use std::alloc::{AllocError, Global};
use vs_base::limits;

/// For each process those that read what it writes, ascending, and how many they are together.
#[derive(Drop)]
pub struct Noted {
    pub readers: Vec<Items<u32>>,
    pub count: usize,
}

/// Notes each process at those that it reads from, or gives nothing where there are too many such pairs. It ends after
/// the first process with which there are too many.
pub fn note_readers(
    alloc: Global,
    writers: &Writers,
    procs: &[Touched],
) -> Result<Option<Vec<Items<u32>>>, AllocError>
    requires few { length procs.now < 2 ^ 32 }
    requires one_writer { OneWriter procs.now }
    requires writers { WritersAre procs.now writers.now.of_word.items writers.now.run_end.items }
    ensures readers { IfOk result (λ o. MatchOption o (EDGES < length (edges_of procs.now)) (λ v. HasNoted procs.now procs.now v.items)) }
    ensures within { IfOk result (λ o. MatchOption o (EDGES < length (edges_of procs.now)) (λ v. length (edges_of procs.now) ≤ EDGES)) }
{
    let readers = no_readers(alloc, procs.len())?;
    let mut noted = Noted { readers, count: 0 };
    for j in 0..procs.len() {
        note_ranges(&mut noted, writers, procs[j].reads.as_slice(), j as u32)?;
        if noted.count > limits::EDGES {
            return Ok(None);
        }
    }
    Ok(Some(noted.readers))
}

fn no_readers(alloc: Global, procs: usize) -> Result<Vec<Items<u32>>, AllocError>
    ensures len { IfOk result (λ v. length v.items ≡ procs) }
    ensures empty { IfOk result (λ v. (i : ℕ) → slice_index_or v.items i [] ≡ []) }
    ensures none { IfOk result (λ v. sum_by (λ list. length list) v.items ≡ 0) }
{
    let mut readers = Vec::with_capacity(alloc, procs)?;
    'fill: while readers.len() < procs {
        readers.push(Items::new(alloc))?;
    }
    Ok(readers)
}

fn note_ranges(
    noted: &mut Noted,
    writers: &Writers,
    ranges: &[WordRange],
    reader: u32,
) -> Result<(), AllocError>
    requires runs { RunsEnd writers.now.of_word.items writers.now.run_end.items }
    requires counted { Counted noted.old.count noted.old.readers.items }
    ensures readers { OnOk result (noted.new.readers.items ≡ note_all_in writers.now.of_word.items reader noted.old.readers.items ranges.now) }
    ensures counted { OnOk result (Counted noted.new.count noted.new.readers.items) }
{
    for r in ranges {
        note_range(noted, writers, *r, reader)?;
    }
    Ok(())
}

// Each step takes the run of words that one process writes.
fn note_range(
    noted: &mut Noted,
    writers: &Writers,
    range: WordRange,
    reader: u32,
) -> Result<(), AllocError>
    requires runs { RunsEnd writers.now.of_word.items writers.now.run_end.items }
    requires counted { Counted noted.old.count noted.old.readers.items }
    ensures readers { OnOk result (noted.new.readers.items ≡ note_range_in writers.now.of_word.items reader noted.old.readers.items range) }
    ensures counted { OnOk result (Counted noted.new.count noted.new.readers.items) }
{
    let end = (range.end as usize).min(writers.of_word.len());
    let mut w = range.first as usize;
    'runs: while w < end {
        note(noted, writers.of_word[w], reader)?;
        w = writers.run_end[w] as usize;
    }
    Ok(())
}

fn note(noted: &mut Noted, writer: u32, reader: u32) -> Result<(), AllocError>
    requires counted { Counted noted.old.count noted.old.readers.items }
    ensures readers { OnOk result (noted.new.readers.items ≡ note_in reader noted.old.readers.items writer) }
    ensures counted { OnOk result (Counted noted.new.count noted.new.readers.items) }
{
    // A word that nobody writes has a writer past all processes.
    if writer == reader || writer as usize >= noted.readers.len() {
        return Ok(());
    }
    if is_last(noted.readers[writer as usize].as_slice(), reader) {
        return Ok(());
    }
    noted.readers[writer as usize].push(reader)?;
    noted.count = noted.count.saturating_add(1);
    Ok(())
}

// Readers come in order, so one that is noted stands last.
fn is_last(list: &[u32], reader: u32) -> bool
    ensures { result ≡ is_last reader list.now }
{
    list.len() > 0 && list[list.len() - 1] == reader
}
