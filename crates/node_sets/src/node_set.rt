ghost use Rattle.std.specs.Prelude.{◌≡◌, ◌≤◌, ◌<◌, ◌+◌, ◌*◌, ◌/◌, ◌^◌, ◌==◌, ◌||◌, ◌&&◌, not, true, false, ℕ, IfOk, MatchOption, vec_len};
ghost use Rattle.node_sets.specs.Sets.{is_member};

use crate::search::{first_from, last_below};
use std::alloc::{AllocError, Global};

/// A set of numbers below 64 times its words.
#[derive(Drop)]
pub struct NodeSet {
    pub words: Vec<u64>,
    ghost short: { vec_len words ≤ 2 ^ 26 },
}

impl NodeSet {
    /// An empty set with room for so many nodes.
    #[tactic(auto, using(crate::proofs::SetLemmas::none_in_zeros))]
    pub fn new(alloc: Global, nodes: u32) -> Result<NodeSet, AllocError>
        ensures empty { IfOk result (λ s. (m : ℕ) → is_member s.words.items m ≡ false) }
        ensures room { IfOk result (λ s. nodes ≤ 64 * vec_len s.words) }
        ensures size { IfOk result (λ s. vec_len s.words ≡ nodes / 64 + 1) }
    {
        let count = nodes as usize / 64 + 1;
        let words = vec![in alloc; 0; count]?;
        Ok(NodeSet { words })
    }

    /// A set with the same members and the same room.
    pub fn copy(&self, alloc: Global) -> Result<NodeSet, AllocError>
        ensures members { IfOk result (λ s. s.words.items ≡ self.now.words.items) }
        ensures room { IfOk result (λ s. vec_len s.words ≡ vec_len self.now.words) }
    {
        let words = Vec::from_slice(alloc, self.words.as_slice())?;
        Ok(NodeSet { words })
    }

    /// Whether a number is in it.
    #[tactic(auto, using(crate::proofs::SetLemmas::bit_tells))]
    pub fn has(&self, n: u32) -> bool
        requires within { n < 64 * vec_len self.now.words }
        ensures { result ≡ is_member self.now.words.items n }
    {
        let word = self.words[n as usize / 64];
        word >> (n % 64) & 1 == 1
    }

    #[tactic(auto, using(crate::proofs::SetLemmas::inserted))]
    pub fn insert(&mut self, n: u32)
        requires within { n < 64 * vec_len self.old.words }
        ensures members { (m : ℕ) → is_member self.new.words.items m ≡ ((m == n) || is_member self.old.words.items m) }
        ensures room { vec_len self.new.words ≡ vec_len self.old.words }
    {
        let at = n as usize / 64;
        self.words[at] |= 1 << (n % 64);
    }

    #[tactic(auto, using(crate::proofs::SetLemmas::removed))]
    pub fn remove(&mut self, n: u32)
        requires within { n < 64 * vec_len self.old.words }
        ensures members { (m : ℕ) → is_member self.new.words.items m ≡ (not (m == n) && is_member self.old.words.items m) }
        ensures room { vec_len self.new.words ≡ vec_len self.old.words }
    {
        let at = n as usize / 64;
        self.words[at] &= !(1 << (n % 64));
    }

    /// All members of another set are put in.
    #[tactic(auto, using(crate::proofs::SetLemmas::joined_more, crate::proofs::SetLemmas::all_added))]
    pub fn add_all(&mut self, other: &NodeSet)
        requires room { vec_len other.now.words ≡ vec_len self.old.words }
        ensures members { (m : ℕ) → is_member self.new.words.items m ≡ (is_member self.old.words.items m || is_member other.now.words.items m) }
        ensures room { vec_len self.new.words ≡ vec_len self.old.words }
    {
        let words = other.words.as_slice();
        for i in 0..words.len() {
            self.words[i] |= words[i];
        }
    }

    /// The least member.
    pub fn first(&self) -> Option<u32>
        ensures { MatchOption result ((m : ℕ) → is_member self.now.words.items m ≡ false) (λ n. (is_member self.now.words.items n ≡ true) × ((m : ℕ) → m < n → is_member self.now.words.items m ≡ false)) }
    {
        first_from(self.words.as_slice(), 0)
    }

    /// The least member above a number.
    pub fn next_after(&self, n: u32) -> Option<u32>
        requires within { n < 64 * vec_len self.now.words }
        ensures { MatchOption result ((m : ℕ) → n < m → is_member self.now.words.items m ≡ false) (λ k. (n < k) × (is_member self.now.words.items k ≡ true) × ((m : ℕ) → n < m → m < k → is_member self.now.words.items m ≡ false)) }
    {
        let words = self.words.as_slice();
        let at = n as usize / 64;
        let above = words[at] >> (n % 64) >> 1;
        if above != 0 {
            return Some(n + 1 + above.trailing_zeros());
        }
        first_from(words, at + 1)
    }

    /// The greatest member below a number.
    pub fn before(&self, n: u32) -> Option<u32>
        requires within { n < 64 * vec_len self.now.words }
        ensures { MatchOption result ((m : ℕ) → m < n → is_member self.now.words.items m ≡ false) (λ k. (k < n) × (is_member self.now.words.items k ≡ true) × ((m : ℕ) → k < m → m < n → is_member self.now.words.items m ≡ false)) }
    {
        let words = self.words.as_slice();
        let at = n as usize / 64;
        let below = words[at] & ((1 << (n % 64)) - 1);
        if below != 0 {
            return Some(at as u32 * 64 + (63 - below.leading_zeros()));
        }
        last_below(words, at)
    }
}
