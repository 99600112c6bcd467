use sv_expr::Constant;
use sv_tree::NameId;
use vs_base::Text;

/// A scope of the design: an instance of a module, or a turn or a branch of a generate construct
/// (IEEE 1800-2017 23.6 and 27.6).
#[derive(Drop)]
pub struct Scope {
    /// The names of the scopes from the top down to this one, with a dot between them.
    pub path: Text,
    /// The scope that it stands in, by its place in the list. The top has none.
    pub parent: Option<u32>,
    /// Whether it is a block of a generate construct, and no instance.
    pub block: bool,
    /// The module whose items stand in it.
    pub module: NameId,
    /// Its own constants, in token order: the genvar of its loop first, then its parameters.
    pub values: Vec<Constant>,
}
