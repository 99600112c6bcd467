//! Which words are shadows: those from one number on.
ghost use Rattle.std.specs.Prelude.{◌≡◌, ℕ, ◌≤◌, ◌<◌, true, false, nat_le, length, IfOk, IsTrue};
ghost use Rattle.task_code.specs.Compiled.{is_shadow};

use crate::fault::CodeFault;
use rtl_ir::Design;
use rtl_pieces::Word;

/// How many words and imports there are, and the first word that is a shadow.
#[derive(Clone, Copy, Debug, PartialEq, Eq)]
pub(crate) struct Sizes {
    pub words: u32,
    pub imports: u32,
    pub first: u32,
}

/// How many words and imports there are, and the first word that is a shadow. All words after it are shadows, and word 0 is none.
pub(crate) fn sizes_of(design: &Design, words: &[Word]) -> Result<Sizes, CodeFault>
    ensures words { IfOk result (λ sizes. sizes.words ≡ length words.now) }
    ensures imports { IfOk result (λ sizes. sizes.imports ≡ length design.now.imports) }
    ensures some { IfOk result (λ sizes. 1 ≤ sizes.first) }
    ensures most { IfOk result (λ sizes. sizes.first ≤ sizes.words) }
    ensures shadows { IfOk result (λ sizes. (k : ℕ) → k < length words.now → is_shadow words.now k ≡ nat_le sizes.first k) }
{
    let first = others(words);
    if first == 0 || !are_shadows(words, first) {
        return Err(CodeFault::DoesNotFit);
    }
    let Ok(count) = u32::try_from(words.len()) else {
        return Err(CodeFault::DoesNotFit);
    };
    let Ok(imports) = u32::try_from(design.imports.len()) else {
        return Err(CodeFault::DoesNotFit);
    };
    Ok(Sizes {
        words: count,
        imports,
        first: first as u32,
    })
}

/// How many words stand before the first shadow.
fn others(words: &[Word]) -> usize
    ensures most { result ≤ length words.now }
    ensures others { (k : ℕ) → k < result → is_shadow words.now k ≡ false }
{
    for (number, word) in words.iter().enumerate() {
        if word.shadow {
            return number;
        }
    }
    words.len()
}

/// Whether all words from a number on are shadows.
fn are_shadows(words: &[Word], first: usize) -> bool
    ensures { IsTrue result → (k : ℕ) → first ≤ k → k < length words.now → is_shadow words.now k ≡ true }
{
    for (number, word) in words.iter().enumerate() {
        if number >= first && !word.shadow {
            return false;
        }
    }
    true
}
