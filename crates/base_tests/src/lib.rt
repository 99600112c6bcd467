//! Tests of the lowest crates: values, and tables of what names mean.
//!
//! They stand above these crates, since the gate proves a crate once more together with the tests that stand in it. What each operator gives at each
//! width is told by the definitions that compute in the proofs of `vs_base` and by the repository's cases; here each call gives one value or a few.
#![tactic(auto)]

#[cfg(test)]
mod tables;
#[cfg(test)]
mod values;
