use aea_lattice::{BlockId, EqId, Items};
use aea_view::Marks;

/// A block, and the equation that gives it from its other blocks.
#[derive(Clone, Copy, Debug, Drop, PartialEq, Eq)]
pub struct Step {
    pub block: BlockId,
    pub by: EqId,
}

/// Steps in order.
pub type StepList = Items<Step>;

/// Steps that can be carried out one after the other.
#[derive(Debug, Drop)]
pub struct Plan {
    pub steps: StepList,
}

/// A plan, and the marks of the blocks that are known or given by it.
#[derive(Drop)]
pub struct Peeled {
    pub plan: Plan,
    pub marks: Marks,
}
