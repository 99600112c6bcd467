//! Tests of the crates of the front end that need a text to work on: they stand above the lexer and all parsers, so that
//! each is called with what a user writes. The crates themselves are proved; rows of what they accept and refuse stand in
//! the repository's sentences and cases, which run through the program.
#![tactic(auto)]

#[cfg(test)]
mod designs;
#[cfg(test)]
mod fronts;
#[cfg(test)]
mod macros;
#[cfg(test)]
mod terms;
#[cfg(test)]
mod tokens;
#[cfg(test)]
mod trees;
#[cfg(test)]
mod values;
