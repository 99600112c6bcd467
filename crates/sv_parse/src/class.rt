//! Classes of symbols.

use sv_tree::Symbol;

/// Whether an item begins with it in which items stand.
pub fn nests(symbol: Symbol) -> bool {
    matches!(symbol, Symbol::Generate | Symbol::For | Symbol::If)
}
