//! Lists.
ghost use Rattle.std.specs.Prelude.{◌≡◌, slice_set, replicate, IfOk};

use dpi_host::NoMemory;
use std::alloc::Global;

/// Puts an item at a place. Where there is no such place, nothing happens.
pub fn set_at<T: Copy>(list: &mut [T], at: usize, item: T)
    ensures { list.new ≡ slice_set list.old at item }
{
    if at < list.len() {
        list[at] = item;
    }
}

// So many of one item.
pub(crate) fn filled<T: Copy>(alloc: Global, item: T, count: usize) -> Result<Vec<T>, NoMemory>
    ensures { IfOk result (λ list. list.items ≡ replicate count item) }
{
    let mut list = Vec::new(alloc);
    for n in 0..count {
        let Ok(()) = list.push(item) else {
            return Err(NoMemory);
        };
    }
    Ok(list)
}
