ghost use Rattle.std.specs.Prelude.{◌≡◌, ◌<◌, ◌≤◌, ◌^◌, [], get_or, length, slice_get, Some, IfOk, OnOk, OnErr, MatchOption};
ghost use Rattle.sv_tree.specs.Names.{EachOnce, Interns, IsAbsent};

use indexmap::IndexSet;
use std::alloc::Global;
use std::marker::Model;
use thiserror::Error;

/// The number of a text in a table of names: its place, from 0.
#[derive(Clone, Copy, Debug, PartialEq, Eq)]
pub struct NameId(pub u32);

/// There was no memory left.
#[derive(Clone, Copy, Debug, PartialEq, Eq, Error)]
#[error("out of memory")]
pub struct NoMemory;

/// A table of spellings, each once; contracts see the list of its texts.
#[derive(Drop)]
pub struct Names {
    texts: IndexSet<Vec<u8>>,
}

impl Model for Names {
    ghost use Rattle.std.specs.Prelude.{List, ℕ, map};
    ghost use Rattle.sv_tree.specs.Names.{IsTable};

    ghost Value = { List (List ℕ) };

    ghost view = { λ n. map (λ t. t.items) n.texts.keys };

    ghost invariant = { λ n. IsTable (map (λ t. t.items) n.texts.keys) };
}

impl Names {
    /// An empty table. Takes no memory; the answer is a `Result` as that of every maker is.
    pub fn new(alloc: Global) -> Result<Names, NoMemory>
        ensures { IfOk result (λ names. names ≡ []) }
    {
        Ok(Names {
            texts: IndexSet::new(alloc),
        })
    }

    /// The number of a text, which is put at the end of the table where it is new.
    ///
    /// `NoMemory`: there was none left, or the table has 2^32 names and the text is new. The
    /// table is then as it was.
    pub fn intern(&mut self, alloc: Global, text: &[u8]) -> Result<NameId, NoMemory>
        ensures interns { IfOk result (λ id. Interns self.old self.new text.now id.0) }
        ensures once { OnOk result (EachOnce self.new) }
        ensures unchanged { OnErr result (self.new ≡ self.old) }
    {
        if let Some(id) = self.find(text) {
            return Ok(id);
        }
        let Ok(place) = u32::try_from(self.len()) else {
            return Err(NoMemory);
        };
        let Ok(key) = Vec::from_slice(alloc, text) else {
            return Err(NoMemory);
        };
        let Ok(_) = self.texts.insert_full(key) else {
            return Err(NoMemory);
        };
        Ok(NameId(place))
    }

    /// The number of a text, if the table has it.
    pub fn find(&self, text: &[u8]) -> Option<NameId>
        ensures { MatchOption result (IsAbsent self.now text.now) (λ id. slice_get self.now id.0 ≡ Some text.now) }
    {
        let Some(place) = self.texts.get_index_of(text) else {
            return None;
        };
        Some(NameId(place as u32))
    }

    /// The text of a number that the table gave.
    pub fn text(&self, id: NameId) -> &[u8]
        requires { id.0 < length self.now }
        ensures { slice_get self.now id.0 ≡ Some result.now }
    {
        self.texts.as_slice()[id.0 as usize].as_slice()
    }

    /// The text of any number: empty where the table has no such number.
    pub fn text_of(&self, id: NameId) -> &[u8]
        ensures { result.now ≡ get_or self.now id.0 [] }
    {
        if (id.0 as usize) < self.len() {
            return self.text(id);
        }
        &[]
    }

    /// How many names the table has, each once and at most 2^32.
    pub fn len(&self) -> usize
        ensures value { result ≡ length self.now }
        ensures once { EachOnce self.now }
        ensures few { result ≤ 2 ^ 32 }
    {
        self.texts.len()
    }
}
