//! Tests of the flat design of texts: they stand above the lexer, the parser and elaboration, so that `flatten` is called with
//! what a user writes.
#![tactic(auto)]

#[cfg(test)]
mod designs;
