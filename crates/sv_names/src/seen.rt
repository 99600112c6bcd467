use std::alloc::Global;
use sv_tree::{NameId, NoMemory};

/// Which names stood in the present list: for each name the number of the last list in which it stood.
#[derive(Drop)]
pub struct Seen {
    lists: Vec<usize>,
    present: usize,
}

impl Seen {
    /// No list, over `count` names.
    ///
    /// `NoMemory`: there was none left.
    pub fn new(alloc: Global, count: usize) -> Result<Seen, NoMemory> {
        let Ok(mut lists) = Vec::with_capacity(alloc, count) else {
            return Err(NoMemory);
        };
        for _ in 0..count {
            let Ok(()) = lists.push(0) else {
                return Err(NoMemory);
            };
        }
        Ok(Seen { lists, present: 0 })
    }

    /// Begins a list.
    pub fn begin(&mut self) {
        self.present = self.present.saturating_add(1);
    }

    /// Whether a name of the present list stood in it before. It stands in it from now on.
    pub fn again(&mut self, name: NameId) -> bool {
        let present = self.present;
        match self.lists.get_mut(name.0 as usize) {
            Some(list) => {
                let again = *list == present;
                *list = present;
                again
            }
            None => false,
        }
    }
}
