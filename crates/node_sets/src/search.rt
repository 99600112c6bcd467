//! The least and the greatest member of a run of words.
ghost use Rattle.std.specs.Prelude.{◌≡◌, ◌≤◌, ◌<◌, ◌*◌, ◌^◌, true, false, ℕ, MatchOption, length};
ghost use Rattle.node_sets.specs.Sets.{is_member};

/// The least member in the words from one on.
pub fn first_from(words: &[u64], from: usize) -> Option<u32>
    requires short { length words.now ≤ 2 ^ 26 }
    ensures { MatchOption result ((m : ℕ) → 64 * from ≤ m → is_member words.now m ≡ false) (λ n. (64 * from ≤ n) × (is_member words.now n ≡ true) × ((m : ℕ) → 64 * from ≤ m → m < n → is_member words.now m ≡ false)) }
{
    for i in from..words.len() {
        let word = words[i];
        if word != 0 {
            return Some(i as u32 * 64 + word.trailing_zeros());
        }
    }
    None
}

/// The greatest member in the words before one.
pub fn last_below(words: &[u64], end: usize) -> Option<u32>
    requires short { length words.now ≤ 2 ^ 26 }
    requires within { end ≤ length words.now }
    ensures { MatchOption result ((m : ℕ) → m < 64 * end → is_member words.now m ≡ false) (λ n. (n < 64 * end) × (is_member words.now n ≡ true) × ((m : ℕ) → n < m → m < 64 * end → is_member words.now m ≡ false)) }
{
    let mut i = end;
    'down: while i > 0 {
        i -= 1;
        let word = words[i];
        if word != 0 {
            return Some(i as u32 * 64 + (63 - word.leading_zeros()));
        }
    }
    None
}
