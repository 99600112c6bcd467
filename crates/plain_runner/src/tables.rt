//! What is looked up in an eval.

use plan_types::InputWord;

// The words of inputs, the words of events by variables, the widths of results by imports, and the codes of nodes.
#[derive(Drop)]
pub(crate) struct Tables {
    pub(crate) inputs: Vec<InputWord>,
    pub(crate) events: Vec<usize>,
    pub(crate) widths: Vec<u32>,
    pub(crate) settle: Vec<usize>,
    pub(crate) clocked: Vec<usize>,
}
