//! Places by key, so that those of one key are gone through without a look at the others.

ghost use Rattle.std.specs.Prelude.{◌≡◌, ◌<◌, All, IfOk, None, get_or, length, replicate};
ghost use Rattle.vcd_out.specs.Places.{IsLinked};

use std::alloc::{AllocError, Global};

/// Keys, for each possible key the first place that has it, and for each place the next one that has its key.
#[derive(Drop)]
pub struct Links {
    pub keys: Vec<usize>,
    pub first: Vec<Option<usize>>,
    pub next: Vec<Option<usize>>,
}

impl Links {
    /// The links of these keys, which are below a bound. It goes over them once.
    pub fn new(alloc: Global, keys: Vec<usize>, bound: usize) -> Result<Links, AllocError>
        requires { All (λ k. k < bound) keys.items }
        ensures keys { IfOk result (λ l. l.keys.items ≡ keys.items) }
        ensures bound { IfOk result (λ l. length l.first.items ≡ bound) }
        ensures linked { IfOk result (λ l. IsLinked l.keys.items l.first.items l.next.items) }
    {
        let mut at = keys.len();
        let mut first = no_places(alloc, bound)?;
        let mut next = no_places(alloc, at)?;
        'link: while at > 0 {
            at -= 1;
            let key = keys[at];
            let was = first[key];
            next[at] = was;
            first[key] = Some(at);
        }
        Ok(Links { keys, first, next })
    }

    /// The first place of a key.
    pub fn first_of(&self, key: usize) -> Option<usize>
        ensures { result ≡ get_or self.now.first.items key None }
    {
        match self.first.get(key) {
            Some(place) => *place,
            None => None,
        }
    }

    /// The next place with the key of this one.
    pub fn after(&self, place: usize) -> Option<usize>
        ensures { result ≡ get_or self.now.next.items place None }
    {
        match self.next.get(place) {
            Some(next) => *next,
            None => None,
        }
    }
}

// None so many times.
fn no_places(alloc: Global, count: usize) -> Result<Vec<Option<usize>>, AllocError>
    ensures { IfOk result (λ places. places.items ≡ replicate count None) }
{
    let mut places = Vec::with_capacity(alloc, count)?;
    for _ in 0..count {
        places.push(None)?;
    }
    Ok(places)
}
