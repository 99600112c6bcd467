pub mod expr;
pub mod item;
pub mod part;
pub mod parts;
pub mod printer;
pub mod source;
pub mod stmt;
pub mod words;
