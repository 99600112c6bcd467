/// How many things of each kind a design has.
#[derive(Clone, Copy, Debug, PartialEq, Eq)]
pub struct Counts {
    pub vars: usize,
    pub mems: usize,
    pub imports: usize,
}
