//! Numbers on the stack that name a bit or an element.
ghost use Rattle.std.specs.Prelude.{◌≡◌, ◌≤◌, ◌+◌, ◌*◌, ◌^◌};
ghost use Rattle.vs_base.specs.Number.{reading};
ghost use Rattle.std.specs.Int.{saturate_to_bits};
ghost use Rattle.task_eval.specs.Places.{place_of, word_at};

use vs_base::Bits;

/// How an index is read: with its sign or without, less the lowest declared index.
#[derive(Clone, Copy, Debug, PartialEq, Eq)]
pub struct Index {
    pub signed: bool,
    pub low: i64,
}

/// The words of one piece of each element of a memory. They stand in the order of the addresses, at one distance.
#[derive(Clone, Copy, Debug, PartialEq, Eq)]
pub struct Elements {
    /// The word of the first element.
    pub base: u32,
    /// How far the words of neighbouring elements lie apart.
    pub stride: u32,
    /// How many elements there are.
    pub count: u32,
    /// How an address is read; the first element has place 0.
    pub address: Index,
}

impl Index {
    /// The place that an index names, from 0, limited to 64 bits. What is limited lies outside of every value.
    pub fn place(self, index: Bits) -> i64
        ensures { result ≡ place_of self index }
    {
        limit(distant(index, self.signed).saturating_sub(i128::from(self.low)))
    }
}

impl Elements {
    /// The word of the element that an address names, if there is one.
    pub fn word(self, address: Bits) -> Option<u32>
        requires { self.base + self.count * self.stride ≤ 2 ^ 32 }
        ensures { result ≡ word_at self address }
    {
        let place = self.address.place(address);
        if place < 0 || place >= i64::from(self.count) {
            return None;
        }
        Some(self.base + place as u32 * self.stride)
    }
}

// The reading, limited to 128 bits with a sign.
fn distant(index: Bits, signed: bool) -> i128
    ensures { result ≡ saturate_to_bits 127 (reading signed index) }
{
    if signed {
        return index.signed_of();
    }
    let value = index.value();
    if value > i128::MAX as u128 {
        return i128::MAX;
    }
    value as i128
}

// The number, limited to 64 bits.
fn limit(number: i128) -> i64
    ensures { result ≡ saturate_to_bits 63 number }
{
    if number < i128::from(i64::MIN) {
        return i64::MIN;
    }
    if number > i128::from(i64::MAX) {
        return i64::MAX;
    }
    number as i64
}
