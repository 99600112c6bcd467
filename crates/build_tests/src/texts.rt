//! Designs of texts.

use rtl_flat::flatten;
use rtl_ir::Design;
use std::alloc::Global;
use std::test::Fail;
use sv_elab::elaborate;
use sv_lex::lex;
use sv_parse::parse;
use sv_tree::{Names, SourceTree};

/// More bytes than any text here has.
const MOST: usize = 1_000_000;

/// The tree of a text.
fn tree_of(alloc: Global, text: &[u8], names: &mut Names) -> Result<SourceTree, Fail> {
    if text.len() > MOST {
        return Err(Fail::from("long"));
    }
    let tokens = lex(alloc, 0, text, names)?;
    if tokens.len() > MOST {
        return Err(Fail::from("long"));
    }
    Ok(parse(alloc, tokens.as_slice(), names)?)
}

/// The design of a text.
pub(crate) fn design_of(alloc: Global, text: &[u8]) -> Result<Design, Fail> {
    let mut names = Names::new(alloc)?;
    let tree = tree_of(alloc, text, &mut names)?;
    let scopes = elaborate(alloc, &tree, &names, None)?;
    Ok(flatten(alloc, &tree, &names, &scopes)?)
}
