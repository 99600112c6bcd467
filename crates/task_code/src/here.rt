//! What the forms of a process look at: the design, its words, and which of them the process stores.
ghost use Rattle.std.specs.Prelude.{◌≡◌, ℕ, ◌≤◌, ◌<◌, ◌+◌, ◌*◌, IfOk};
ghost use Rattle.task_eval.specs.Soundness.{HasWords};
ghost use Rattle.vs_base.specs.declared.limits.TheConstants.{WORD};

use crate::fault::CodeFault;
use crate::table::{Rows, Span, Table};
use crate::tail::Limits;
use rtl_ir::{Tables, Target, Width};
use rtl_pieces::Word;
use task_eval::{Elements, Index};
use vs_base::limits;

/// What the forms of a process look at.
#[derive(Clone, Copy)]
pub(crate) struct Here<'a> {
    pub design: Tables<'a>,
    pub words: &'a [Word],
    pub table: &'a Table,
    /// What the ops may name.
    pub limits: Limits,
    /// The process keeps what it writes in shadows.
    pub clocked: bool,
}

/// A word that holds bits of a variable or an element, from one of its bits on.
#[derive(Clone, Copy, Debug, PartialEq, Eq)]
pub(crate) struct Piece {
    pub word: u32,
    pub bit: u32,
    pub len: u32,
}

/// A variable, or an element of a memory.
#[derive(Clone, Copy, Debug, PartialEq, Eq)]
pub(crate) struct Own {
    pub width: Width,
    pub signed: bool,
    /// The declared index of its lowest bit.
    pub lsb: u32,
    /// How an address is read, of a memory.
    pub low: i64,
}

impl Here<'_> {
    /// The type of a variable, or of an element of a memory.
    pub(crate) fn own(&self, target: &Target) -> Result<Own, CodeFault> {
        if target.mem {
            let Some(mem) = self.design.mems.get(target.item as usize) else {
                return Err(CodeFault::DoesNotFit);
            };
            return Ok(Own {
                width: Width::new(mem.width),
                signed: mem.signed,
                lsb: mem.lsb,
                low: mem.low,
            });
        }
        let Some(var) = self.design.vars.get(target.item as usize) else {
            return Err(CodeFault::DoesNotFit);
        };
        Ok(Own {
            width: Width::new(var.width),
            signed: var.signed,
            lsb: var.lsb,
            low: 0,
        })
    }

    /// The words of a variable.
    pub(crate) fn span(&self, var: u32) -> Result<Span, CodeFault> {
        match self.table.vars.get(var as usize) {
            Some(span) => Ok(*span),
            None => Err(CodeFault::DoesNotFit),
        }
    }

    /// The words of a memory.
    pub(crate) fn rows(&self, mem: u32) -> Result<Rows, CodeFault> {
        match self.table.mems.get(mem as usize) {
            Some(rows) => Ok(*rows),
            None => Err(CodeFault::DoesNotFit),
        }
    }

    /// What a word holds.
    pub(crate) fn piece(&self, word: u32) -> Result<Piece, CodeFault>
        ensures below { IfOk result (λ piece. piece.word < self.now.limits.words) }
        ensures some { IfOk result (λ piece. 1 ≤ piece.len) }
        ensures most { IfOk result (λ piece. piece.len ≤ WORD) }
    {
        let Some(held) = self.words.get(word as usize) else {
            return Err(CodeFault::DoesNotFit);
        };
        if word >= self.limits.words || held.len == 0 || held.len > limits::WORD {
            return Err(CodeFault::DoesNotFit);
        }
        Ok(Piece {
            word,
            bit: held.holds.bit,
            len: held.len,
        })
    }

    /// The word that is stored where this one is written: itself, or its shadow.
    pub(crate) fn stored(&self, word: u32) -> Result<u32, CodeFault>
        ensures from { IfOk result (λ word. self.now.limits.from ≤ word) }
        ensures to { IfOk result (λ word. word < self.now.limits.to) }
    {
        let mut stored = word;
        if self.clocked {
            stored = self.table.shadows.get(word as usize).copied().unwrap_or(0);
        }
        if stored < self.limits.from || stored >= self.limits.to {
            return Err(CodeFault::DoesNotFit);
        }
        Ok(stored)
    }

    /// The words of one piece of each element of a memory.
    pub(crate) fn column(
        &self,
        rows: Rows,
        piece: u32,
        address: Index,
    ) -> Result<Elements, CodeFault>
        ensures words { IfOk result HasWords }
        ensures below { IfOk result (λ e. (k : ℕ) → k < e.count → e.base + k * e.stride < self.now.limits.words) }
    {
        let limits = self.limits;
        elements(
            rows,
            rows.first.checked_add(piece),
            address,
            0,
            limits.words,
        )
    }

    /// The words that are stored where one piece of an element is written: those of the elements, or their shadows.
    pub(crate) fn stored_column(
        &self,
        rows: Rows,
        piece: u32,
        address: Index,
    ) -> Result<Elements, CodeFault>
        ensures words { IfOk result HasWords }
        ensures from { IfOk result (λ e. (k : ℕ) → k < e.count → self.now.limits.from ≤ e.base + k * e.stride) }
        ensures to { IfOk result (λ e. (k : ℕ) → k < e.count → e.base + k * e.stride < self.now.limits.to) }
    {
        let limits = self.limits;
        let first = if self.clocked {
            rows.shadow
        } else {
            rows.first
        };
        elements(
            rows,
            first.checked_add(piece),
            address,
            limits.from,
            limits.to,
        )
    }
}

/// Words at the distance of a memory's elements, which lie from one number on and below another.
fn elements(
    rows: Rows,
    base: Option<u32>,
    address: Index,
    from: u32,
    to: u32,
) -> Result<Elements, CodeFault>
    ensures words { IfOk result HasWords }
    ensures from { IfOk result (λ e. (k : ℕ) → k < e.count → from ≤ e.base + k * e.stride) }
    ensures to { IfOk result (λ e. (k : ℕ) → k < e.count → e.base + k * e.stride < to) }
{
    let Some(base) = base else {
        return Err(CodeFault::DoesNotFit);
    };
    let Some(all) = rows.count.checked_mul(rows.stride) else {
        return Err(CodeFault::DoesNotFit);
    };
    let Some(last) = all.checked_sub(rows.stride) else {
        return Err(CodeFault::DoesNotFit);
    };
    let Some(end) = base.checked_add(last) else {
        return Err(CodeFault::DoesNotFit);
    };
    if base < from || end >= to || end.checked_add(rows.stride).is_none() {
        return Err(CodeFault::DoesNotFit);
    }
    Ok(Elements {
        base,
        stride: rows.stride,
        count: rows.count,
        address,
    })
}
