use crate::fault::WalkFault;
use vs_base::ValueType;

/// The type of an expression and its first fault. What is at fault itself counts as one bit.
#[derive(Clone, Copy, Debug, PartialEq, Eq)]
pub struct Typed {
    pub kind: ValueType,
    pub fault: Option<WalkFault>,
}
