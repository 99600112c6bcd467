/// A place in a source file: the file by its number in the order of the command line, from 0, the line and the
/// column from 1, the column in bytes.
#[derive(Clone, Copy, Debug, PartialEq, Eq)]
pub struct Origin {
    pub file: u32,
    pub line: u32,
    pub col: u32,
}
