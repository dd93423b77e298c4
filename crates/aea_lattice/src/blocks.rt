/// A class of blocks: the data, or the parities of one class of strands. As a number, 0 to 3 in this order.
#[derive(Clone, Copy, Debug, PartialEq, Eq)]
pub enum Class {
    Datum,
    Horiz,
    Right,
    Left,
}

/// A block of a lattice: the datum of a node, or the parity that the node writes on a class of strands. Nodes are
/// numbered from 1.
#[derive(Clone, Copy, Debug, PartialEq, Eq)]
pub struct BlockId {
    pub node: u32,
    pub class: Class,
}

/// An equation of a lattice, named by its output, the parity of this node and class.
#[derive(Clone, Copy, Debug, PartialEq, Eq)]
pub struct EqId {
    pub node: u32,
    pub class: Class,
}

/// The blocks of an equation, which add up to zero by XOR. There is no input where the strand begins here.
#[derive(Clone, Copy, Debug, PartialEq, Eq)]
pub struct Equation {
    pub input: Option<BlockId>,
    pub datum: BlockId,
    pub output: BlockId,
}
