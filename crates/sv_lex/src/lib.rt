//! Cuts the bytes of a file into tokens, and tells which spellings of numbers are numbers.
//!
//! In come the bytes of one file and the table of names that all files share; out comes the list
//! of its tokens, each with its kind, the number of its spelling and its place, or the first
//! fault. The words, by IEEE 1800-2017 clause 5:
//!
//! - A *piece* is what stands at the front of the bytes: a token, or a blank or a comment, which
//!   are skipped, or a defect. Of tokens, blanks and comments it is always the longest one.
//! - The *cut* of a file is the list of its pieces' tokens up to the first defect or the end.
//! - A *lexeme* is a token without its place.
//!
//! `specs/Spelling.antt` says of a whole text what it spells, `specs/Cut.antt` cuts at the longest
//! front that spells something, and `specs/Scan.antt` finds that front by one walk, as the code
//! does; the two are proved equal. `specs/CutLaws.antt` has what the crates above need.
//!
//! Every byte is looked at a fixed number of times, so a file takes time in proportion to its
//! length. A name is looked for among the 104 reserved words one by one, where mostly the lengths
//! already differ: half a microsecond a name. The list of tokens and the new names are the only
//! memory.
//!
//! ```text
//! assign y = 8'hFF;   ->   Word assign, Name y, Mark =, Decimal 8, Based 'hFF, Mark ;
//! a<<<b               ->   Name a, Mark <<<, Name b
//! 'sx                 ->   bad character at the quote
//! ```
#![tactic(auto)]

mod file;
mod number;
mod piece;
mod table;

pub use file::{LexFault, lex, lex_up_to};
pub use number::check_numbers;
pub use piece::{Defect, Piece, front};
