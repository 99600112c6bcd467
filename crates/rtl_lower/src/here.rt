use rtl_ir::Import;
use std::alloc::Global;
use sv_expr::ScopeView;

/// Where an expression stands.
#[derive(Clone, Copy)]
pub struct Here<'a> {
    pub alloc: Global,
    /// What names denote. The numbers of variables, memories and imports are those of the design.
    pub view: ScopeView<'a>,
    /// The imports of the design.
    pub imports: &'a [Import],
}
