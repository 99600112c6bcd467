//! The library as a host.
ghost use Rattle.std.specs.Prelude.{◌≡◌, ◌+◌, ◌%◌, ◌^◌, [], replicate, position};
ghost use Rattle.std.specs.Str.{bytes_eq};
ghost use Rattle.dpi_lib.specs.Library.{next_of, sum_of, cell_of, with_next, with_sum, with_cell, library_id, library_by_args, library_answer, library_after};
ghost use Rattle.dpi_lib.specs.LibraryLaws.{library_lawful};

use crate::answers::answer_alone;
use crate::{LibAnswers, number};
use dpi_host::{Host, NoMemory, argument};
use std::alloc::Global;
use std::marker::Model;

// The names of the imports, in the order of their numbers, from 0.
const NAMES: [&[u8]; 12] = [
    b"vs_popcount",
    b"vs_parity",
    b"vs_reverse",
    b"vs_mix",
    b"vs_max",
    b"vs_min",
    b"vs_rotl",
    b"vs_next",
    b"vs_put",
    b"vs_sum",
    b"vs_peek",
    b"vs_poke",
];

/// The library with its state: the number that `vs_next` gave last, the sum of what `vs_put` was
/// given, and 16 cells. Contracts see the list of these 18 numbers.
#[derive(Drop)]
pub struct LibHost {
    next: u64,
    sum: u64,
    cells: [u64; 16],
}

impl Model for LibHost {
    ghost use Rattle.std.specs.Prelude.{ℕ, List, ◌∷◌};

    ghost Value = { List ℕ };

    ghost view = { λ h. h.next ∷ h.sum ∷ h.cells };
}

impl LibHost {
    /// The library with everything 0. Takes no memory.
    pub fn new() -> LibHost
        ensures { result ≡ replicate 18 0 }
    {
        LibHost {
            next: 0,
            sum: 0,
            cells: [0; 16],
        }
    }

    // vs_next: the next number.
    fn advance(&mut self) -> u64
        ensures answer { result ≡ (next_of self.old + 1) % 2 ^ 64 }
        ensures state { self.new ≡ with_next self.old result }
    {
        self.next = self.next.wrapping_add(1);
        self.next
    }

    // vs_put: adds to the sum, and answers 0.
    fn put(&mut self, a: u64) -> u64
        ensures answer { result ≡ 0 }
        ensures state { self.new ≡ with_sum self.old ((sum_of self.old + a) % 2 ^ 64) }
    {
        self.sum = self.sum.wrapping_add(a);
        0
    }

    // vs_sum: the sum.
    fn sum(&self) -> u64
        ensures { result ≡ sum_of self.now }
    {
        self.sum
    }

    // vs_peek: a cell.
    fn peek(&self, i: u64) -> u64
        ensures { result ≡ cell_of self.now i }
    {
        self.cells[(i % 16) as usize]
    }

    // vs_poke: writes a cell, and gives its old value.
    fn poke(&mut self, i: u64, v: u64) -> u64
        ensures answer { result ≡ cell_of self.old i }
        ensures state { self.new ≡ with_cell self.old i v }
    {
        let place = (i % 16) as usize;
        let old = self.cells[place];
        self.cells[place] = v;
        old
    }
}

impl Host for LibHost {
    type Shared = LibAnswers;

    ghost fixed = { λ h. [] };

    ghost state = { λ h. h };

    ghost id_of = { λ fixed name. library_id name };

    ghost answer = { library_answer };

    ghost after = { library_after };

    ghost by_args = { λ fixed id. library_by_args id };

    fn find(&self, name: &[u8]) -> Option<u32> {
        match place_of(&NAMES, name) {
            Some(place) => Some(place as u32),
            None => None,
        }
    }

    fn by_args(&self, id: u32) -> bool {
        id < number::NEXT || id > number::POKE
    }

    fn call(&mut self, id: u32, args: &[u64]) -> u64 {
        let a = argument(args, 0);
        match id {
            number::NEXT => self.advance(),
            number::PUT => self.put(a),
            number::SUM => self.sum(),
            number::PEEK => self.peek(a),
            number::POKE => self.poke(a, argument(args, 1)),
            _ => answer_alone(id, args),
        }
    }

    fn share(&self, _alloc: Global) -> Result<LibAnswers, NoMemory> {
        Ok(LibAnswers)
    }

    ghost lawful = { library_lawful };
}

// The place of a name in a table of names.
fn place_of(names: &[&[u8]], name: &[u8]) -> Option<usize>
    ensures { result ≡ position (λ known. bytes_eq known.now name.now) names.now }
{
    names.iter().position(|known| *known == name)
}
