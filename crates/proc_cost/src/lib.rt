//! What a process of a flat design costs to run. A plan weighs its nodes by it; it is no measure of time.
//!
//! # The table
//!
//! | What | Costs |
//! |---|---|
//! | an operator, also a test of a `?:` | 1 |
//! | `*` | 3 |
//! | `/` and `%` | 10 |
//! | a call of an import | 20 |
//! | a select that is not constant, also an address | 1 |
//! | an assignment | 1 |
//! | an `if`, each label of a `case` | 1 |
//!
//! Names, numbers, concatenations, repetitions, `$signed`, `$unsigned` and constant selects cost nothing, and nothing
//! that stands in the brackets of a constant select does. All branches count, and so does each turn of a loop, since loops are
//! unrolled in a flat design.
//!
//! `specs/Costs.antt` has the table as one fold over the trees, one line a form; `specs/CostLaws.antt` has its equations.
//!
//! # What is proved
//!
//! [`proc_cost`] gives exactly the cost of the table, up to the greatest number of 32 bits.
//!
//! # Cost
//!
//! One walk over the process; no memory.
//!
//! ```text
//! assign a = ((x + y) ^ x) + (y & x);     4 operators and an assignment: 5
//! if (we) m[ad] <= d;                     an if, an assignment, an address: 3
//! ```
#![tactic(auto)]

mod expr;
mod stmt;

pub use stmt::proc_cost;
