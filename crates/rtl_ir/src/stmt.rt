use crate::expr::{Call, Expr, Target};
use sqlite_items::Items;

/// What an assignment writes, the part with the highest bits first.
#[derive(Drop)]
pub struct Place {
    pub parts: Items<Target>,
}

/// A statement (IEEE 1800-2017 10.4, 12.4, 12.5). Loops are unrolled, and blocks are the lists that they hold.
#[cycle(stmt)]
#[derive(Drop)]
pub enum Stmt {
    /// A write that takes effect at once.
    Write(Place, Expr),
    /// A write that is kept until all processes that fired have run.
    Later(Place, Expr),
    /// A chain of tests, and what runs where none holds.
    If(Items<Branch>, Items<Stmt>),
    /// A `case`: its expression, the arms with labels in order, and what runs where no label is equal.
    Case(Expr, Items<Arm>, Items<Stmt>),
    /// A call whose result, if it has one, is dropped.
    Do(Call),
}

/// One test of a chain of `else if`, and what runs where it is the first that holds.
#[cycle(stmt)]
#[derive(Drop)]
pub struct Branch {
    pub test: Expr,
    pub body: Items<Stmt>,
}

/// Labels of a `case`, and what runs where one of them is the first that is equal.
#[cycle(stmt)]
#[derive(Drop)]
pub struct Arm {
    pub labels: Items<Expr>,
    pub body: Items<Stmt>,
}
