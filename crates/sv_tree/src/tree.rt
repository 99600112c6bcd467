pub mod expr;
pub mod item;
pub mod list;
pub mod source;
pub mod stmt;
pub mod words;
