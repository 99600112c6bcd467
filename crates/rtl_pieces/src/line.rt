//! The bits of a design side by side.

ghost use Rattle.std.specs.Prelude.{◌≡◌, ◌≤◌, ◌^◌, ◌*◌, ◌+◌, ◌<◌, ◌++◌, ◌∷◌, [], IfOk, OnOk, length, true};
ghost use Rattle.std.specs.List.{list_all};
ghost use Rattle.rtl_pieces.specs.Near.{is_near};
ghost use Rattle.rtl_pieces.specs.Line as spec;

use crate::bit::BitRef;
use crate::item::Item;
use rtl_ir::{Design, Mem, Var};
use sqlite_items::Items;
use std::alloc::{AllocError, Global};
use std::marker::Model;

/// All bits of a design side by side: its variables and memories with the places of their bits.
#[derive(Drop)]
pub struct BitLine {
    // The variables, and then the memories.
    items: Items<Item>,
    // How many variables there are.
    vars: usize,
    // How many bits there are.
    bits: u128,
}

impl Model for BitLine {
    ghost use Rattle.std.specs.Prelude.{◌≡◌, true};
    ghost use Rattle.std.specs.List.{list_all};
    ghost use Rattle.rtl_pieces.specs.Line.{Line};
    ghost use Rattle.rtl_pieces.specs.Near.{is_near};

    ghost Value = { Line };

    ghost view = { λ it. record { items = it.items; vars = it.vars; bits = it.bits } };

    ghost invariant = { λ it. list_all is_near it.items ≡ true };
}

impl BitLine {
    /// The line of the bits of a design.
    pub fn new(alloc: Global, design: &Design) -> Result<BitLine, AllocError>
        ensures value { IfOk result (λ line. line ≡ spec.line_of design.now.vars design.now.mems) }
        ensures near { IfOk result (λ line. list_all is_near line.items ≡ true) }
    {
        let mut items = Items::new(alloc);
        let first = add_vars(design.vars.as_slice(), &mut items)?;
        let bits = add_mems(design.mems.as_slice(), first, &mut items)?;
        Ok(BitLine {
            items,
            vars: design.vars.len(),
            bits,
        })
    }

    /// The variables, and then the memories.
    pub fn items(&self) -> &[Item]
        ensures value { result.now ≡ self.now.items }
        ensures near { list_all is_near result.now ≡ true }
    {
        self.items.as_slice()
    }

    /// How many bits there are.
    pub fn bits(&self) -> u128
        ensures { result ≡ self.now.bits }
    {
        self.bits
    }

    /// The variable or the memory of a number; one without bits where there is none.
    pub fn item(&self, mem: bool, number: u32) -> Item
        ensures value { result ≡ spec.items_in self.now mem number }
        ensures near { result.first ≤ 2 ^ 124 }
    {
        let number = number as usize;
        if mem {
            return item_or_none(self.items.as_slice(), self.vars.checked_add(number));
        }
        if number < self.vars {
            return item_or_none(self.items.as_slice(), Some(number));
        }
        NO_ITEM
    }

    /// The place of a bit.
    pub fn place(&self, bit: BitRef) -> u128
        ensures { result ≡ spec.place_of self.now bit }
    {
        place_in(self.item(bit.mem, bit.item), bit.element, bit.bit)
    }

    /// The lowest bit of the first element of a variable or a memory, where memories are numbered after the variables.
    pub fn first_bit(&self, number: usize) -> BitRef
        requires within { number < length self.now.items }
        requires vars { self.now.vars < 2 ^ 32 }
        requires mems { length self.now.items < self.now.vars + 2 ^ 32 }
        ensures { result ≡ spec.first_bit self.now number }
    {
        let mem = number >= self.vars;
        let item = if mem { number - self.vars } else { number };
        BitRef {
            mem,
            item: item as u32,
            element: 0,
            bit: 0,
        }
    }

    /// The bit at a place of the line.
    pub fn bit(&self, place: u128) -> BitRef
        requires within { place < self.now.bits }
        requires placed { spec.Placed self.now }
        requires vars { self.now.vars < 2 ^ 32 }
        requires mems { length self.now.items < self.now.vars + 2 ^ 32 }
        ensures place { spec.place_of self.now result ≡ place }
        ensures there { spec.is_bit self.now result ≡ true }
    {
        let items = self.items.as_slice();
        let number = items
            .partition_point(|item| item.first <= place)
            .saturating_sub(1);
        let lowest = self.first_bit(number);
        match items.get(number) {
            Some(item) => bit_in(*item, lowest, place),
            None => lowest,
        }
    }
}

/// The bit at a place of a variable or a memory that begins with a bit.
fn bit_in(item: Item, lowest: BitRef, place: u128) -> BitRef
    requires above { item.first ≤ place }
    requires below { place < item.first + spec.size_of item }
    ensures mem { result.mem ≡ lowest.mem }
    ensures item { result.item ≡ lowest.item }
    ensures place { spec.place_in item result.element result.bit ≡ place }
    ensures there { spec.is_bit_in item result.element result.bit ≡ true }
{
    let offset = place - item.first;
    let width = u128::from(item.width);
    BitRef {
        element: (offset / width) as u32,
        bit: (offset % width) as u32,
        ..lowest
    }
}

/// The place of a bit of a variable or a memory.
pub fn place_in(item: Item, element: u32, bit: u32) -> u128
    requires near { item.first ≤ 2 ^ 124 }
    ensures { result ≡ spec.place_in item element bit }
{
    item.first + product(element, item.width) + u128::from(bit)
}

/// What stands where there is no variable and no memory.
const NO_ITEM: Item = Item {
    first: 0,
    elements: 0,
    width: 0,
    lsb: 0,
    low: 0,
};

/// The item of a number.
fn item_or_none(items: &[Item], number: Option<usize>) -> Item
    requires near { list_all is_near items.now ≡ true }
    ensures value { result ≡ spec.item_or_none (spec.got items.now number) }
    ensures near { result.first ≤ 2 ^ 124 }
{
    let Some(number) = number else {
        return NO_ITEM;
    };
    match items.get(number) {
        Some(item) => *item,
        None => NO_ITEM,
    }
}

/// Adds the variables, from the first place on; the place after the last.
fn add_vars(vars: &[Var], items: &mut Items<Item>) -> Result<u128, AllocError>
    requires near { list_all is_near items.old ≡ true }
    requires few { length vars.now ≤ 2 ^ 64 }
    ensures items { OnOk result (items.new ≡ items.old ++ spec.var_items 0 vars.now) }
    ensures end { IfOk result (λ first. first ≡ spec.end_of 0 (spec.var_items 0 vars.now)) }
    ensures near { OnOk result (list_all is_near items.new ≡ true) }
    ensures far { IfOk result (λ first. first ≤ 2 ^ 32 * 2 ^ 64) }
{
    let mut first: u128 = 0;
    let mut rest = vars;
    while let [var, more @ ..] = rest {
        items.push(var_item(first, var))?;
        first += u128::from(var.width);
        rest = more;
    }
    Ok(first)
}

/// Adds a memory at a place; the place after its last bit.
fn add_mem(mem: &Mem, first: u128, items: &mut Items<Item>) -> Result<u128, AllocError>
    requires near { list_all is_near items.old ≡ true }
    requires far { first ≤ 2 ^ 124 }
    ensures items { OnOk result (items.new ≡ items.old ++ spec.mem_item first mem.now ∷ []) }
    ensures end { IfOk result (λ next. next ≡ first + mem.now.count * mem.now.width) }
    ensures near { OnOk result (list_all is_near items.new ≡ true) }
    ensures most { IfOk result (λ next. next ≤ first + 2 ^ 64) }
{
    items.push(mem_item(first, mem))?;
    Ok(first + product(mem.count, mem.width))
}

/// Adds the memories, from a place on; the place after the last.
fn add_mems(mems: &[Mem], start: u128, items: &mut Items<Item>) -> Result<u128, AllocError>
    requires near { list_all is_near items.old ≡ true }
    requires far { start ≤ 2 ^ 32 * 2 ^ 64 }
    requires few { length mems.now ≤ 2 ^ 58 }
    ensures items { OnOk result (items.new ≡ items.old ++ spec.mem_items start mems.now) }
    ensures end { IfOk result (λ first. first ≡ spec.end_of start (spec.mem_items start mems.now)) }
    ensures near { OnOk result (list_all is_near items.new ≡ true) }
{
    let mut first = start;
    let mut rest = mems;
    while let [mem, more @ ..] = rest {
        first = add_mem(mem, first, items)?;
        rest = more;
    }
    Ok(first)
}

/// How many bits there are in so many elements.
pub fn product(elements: u32, width: u32) -> u128
    ensures value { result ≡ elements * width }
    ensures most { result ≤ 2 ^ 64 }
{
    u128::from(elements) * u128::from(width)
}

/// The item of a variable whose first bit stands at a place.
fn var_item(first: u128, var: &Var) -> Item
    ensures { result ≡ spec.var_item first var.now }
{
    Item {
        first,
        elements: 1,
        width: var.width,
        lsb: var.lsb,
        low: 0,
    }
}

/// The item of a memory whose first bit stands at a place.
fn mem_item(first: u128, mem: &Mem) -> Item
    ensures { result ≡ spec.mem_item first mem.now }
{
    Item {
        first,
        elements: mem.count,
        width: mem.width,
        lsb: mem.lsb,
        low: mem.low,
    }
}
