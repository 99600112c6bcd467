//! Where the words of each variable and memory stand, and the shadow of each word.

use crate::fault::CodeFault;
use rtl_ir::{Mem, Tables, Var};
use rtl_pieces::Word;
use std::alloc::{AllocError, Global};

/// Words that stand side by side.
#[derive(Clone, Copy, Debug, PartialEq, Eq)]
pub(crate) struct Span {
    pub first: u32,
    pub count: u32,
}

/// The words of a memory: those of its elements stand one behind the other.
#[derive(Clone, Copy, Debug, PartialEq, Eq)]
pub(crate) struct Rows {
    /// The first word of the first element.
    pub first: u32,
    /// How many words an element has.
    pub stride: u32,
    /// How many elements there are.
    pub count: u32,
    /// The shadow of the first word, where all words have shadows that stand side by side, and otherwise 0.
    pub shadow: u32,
}

/// The words of a layout, by what they hold.
#[derive(Drop)]
pub(crate) struct Table {
    /// By the numbers of the variables.
    pub vars: Vec<Span>,
    /// By the numbers of the memories.
    pub mems: Vec<Rows>,
    /// For each word the number of its shadow, and 0 where it has none.
    pub shadows: Vec<u32>,
    /// For each shadow the number of its word, and 0 for other words.
    pub words: Vec<u32>,
}

/// No words.
const NONE: Span = Span { first: 0, count: 0 };

/// The table of a layout.
pub(crate) fn table_of(
    alloc: Global,
    design: Tables<'_>,
    words: &[Word],
    first_shadow: u32,
) -> Result<Table, CodeFault> {
    let mut vars = Vec::from_elem(alloc, NONE, design.vars.len())?;
    let mut mems = Vec::from_elem(alloc, NONE, design.mems.len())?;
    let first = first_shadow as usize;
    spread(words, first, vars.as_mut_slice(), mems.as_mut_slice())?;
    vars_fit(design.vars, words, vars.as_slice())?;
    let mut shadows: Vec<u32> = Vec::from_elem(alloc, 0, words.len())?;
    let mut numbers: Vec<u32> = Vec::from_elem(alloc, 0, words.len())?;
    pair(words, first, shadows.as_mut_slice(), numbers.as_mut_slice())?;
    let mems = rows_of(
        alloc,
        design.mems,
        words,
        mems.as_slice(),
        shadows.as_slice(),
    )?;
    Ok(Table {
        vars,
        mems,
        shadows,
        words: numbers,
    })
}

/// Finds the words of each variable and memory.
fn spread(
    words: &[Word],
    end: usize,
    vars: &mut [Span],
    mems: &mut [Span],
) -> Result<(), CodeFault> {
    for number in 1..end {
        let Some(word) = words.get(number) else {
            return Err(CodeFault::DoesNotFit);
        };
        let item = word.holds.item as usize;
        if word.holds.mem {
            add_word(mems, item, number)?;
        } else {
            add_word(vars, item, number)?;
        }
    }
    Ok(())
}

/// Adds a word to those of an item.
fn add_word(spans: &mut [Span], item: usize, number: usize) -> Result<(), CodeFault> {
    let Some(span) = spans.get_mut(item) else {
        return Err(CodeFault::DoesNotFit);
    };
    *span = with_word(*span, number)?;
    Ok(())
}

/// Words with one more behind them.
fn with_word(span: Span, number: usize) -> Result<Span, CodeFault> {
    let Ok(number) = u32::try_from(number) else {
        return Err(CodeFault::DoesNotFit);
    };
    if span.count == 0 {
        return Ok(Span {
            first: number,
            count: 1,
        });
    }
    if span.first.checked_add(span.count) != Some(number) {
        return Err(CodeFault::DoesNotFit);
    }
    Ok(Span {
        count: span.count.saturating_add(1),
        ..span
    })
}

/// Tests that the words of each variable hold its bits.
fn vars_fit(vars: &[Var], words: &[Word], spans: &[Span]) -> Result<(), CodeFault> {
    for (var, span) in vars.iter().zip(spans) {
        if !tiles(words, *span, 0, var.width) {
            return Err(CodeFault::DoesNotFit);
        }
    }
    Ok(())
}

/// Whether words hold so many bits of an element, one behind the other.
fn tiles(words: &[Word], span: Span, element: u32, width: u32) -> bool {
    let mut bits: u32 = 0;
    for number in span.first..span.first.saturating_add(span.count) {
        let Some(word) = words.get(number as usize) else {
            return false;
        };
        if word.holds.element != element || word.holds.bit != bits || word.len == 0 {
            return false;
        }
        bits = bits.saturating_add(word.len);
    }
    bits == width
}

/// The words of the memories.
fn rows_of(
    alloc: Global,
    mems: &[Mem],
    words: &[Word],
    spans: &[Span],
    shadows: &[u32],
) -> Result<Vec<Rows>, CodeFault> {
    let mut all = Vec::new(alloc);
    for (mem, span) in mems.iter().zip(spans) {
        let stride = span.count.checked_div(mem.count).unwrap_or(0);
        let rows = Rows {
            first: span.first,
            stride,
            count: mem.count,
            shadow: side_by_side(shadows, *span),
        };
        if stride.checked_mul(mem.count) != Some(span.count) || !rows_fit(words, rows, mem.width) {
            return Err(CodeFault::DoesNotFit);
        }
        all.push(rows)?;
    }
    Ok(all)
}

/// Whether the words of a memory hold its elements' bits.
fn rows_fit(words: &[Word], rows: Rows, width: u32) -> bool {
    let mut first = rows.first;
    for element in 0..rows.count {
        let span = Span {
            first,
            count: rows.stride,
        };
        if !tiles(words, span, element, width) {
            return false;
        }
        first = first.saturating_add(rows.stride);
    }
    true
}

/// The shadow of the first of these words, where all of them have shadows that stand side by side, and otherwise 0.
fn side_by_side(shadows: &[u32], span: Span) -> u32 {
    let first = shadows.get(span.first as usize).copied().unwrap_or(0);
    for number in 0..span.count {
        let word = span.first.saturating_add(number) as usize;
        let shadow = shadows.get(word).copied().unwrap_or(0);
        if shadow == 0 || shadow != first.saturating_add(number) {
            return 0;
        }
    }
    first
}

/// Notes the shadow of each word that has one, and the word of each shadow. The shadows stand in the order of their words.
fn pair(
    words: &[Word],
    first: usize,
    shadows: &mut [u32],
    numbers: &mut [u32],
) -> Result<(), CodeFault> {
    let mut next = first;
    for number in 1..first {
        if is_shadow_of(words, next, number) {
            note(shadows, number, next)?;
            note(numbers, next, number)?;
            next = next.saturating_add(1);
        }
    }
    if next != words.len() {
        return Err(CodeFault::DoesNotFit);
    }
    Ok(())
}

/// Notes a number at a place.
fn note(list: &mut [u32], at: usize, number: usize) -> Result<(), CodeFault> {
    let (Some(noted), Ok(number)) = (list.get_mut(at), u32::try_from(number)) else {
        return Err(CodeFault::DoesNotFit);
    };
    *noted = number;
    Ok(())
}

/// Whether a word is the shadow of another one.
fn is_shadow_of(words: &[Word], shadow: usize, number: usize) -> bool {
    match (words.get(shadow), words.get(number)) {
        (Some(shadow), Some(word)) => {
            shadow.shadow && shadow.holds == word.holds && shadow.len == word.len
        }
        _ => false,
    }
}
