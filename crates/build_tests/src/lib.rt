//! Tests of models that are built from texts: what is told of them, and the run of a process over a list of words.
//!
//! Expected values are worked out by hand from the rules of words, of the order of settling and of costs.
#![tactic(auto)]

#[cfg(test)]
mod echo;
#[cfg(test)]
mod models;
#[cfg(test)]
mod orders;
#[cfg(test)]
mod running;
#[cfg(test)]
mod texts;
