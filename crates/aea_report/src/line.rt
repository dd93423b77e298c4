ghost use Rattle.std.specs.Prelude.{◌≡◌};
ghost use Rattle.aea_report.specs.Format.{block_in};

use aea_lattice::{BlockId, NodeList};

/// What a report says of a block: that single equations reach it, that the others determine it, or that the codeword of
/// these nodes contains it and no survivor.
#[derive(Debug, Drop)]
pub enum Line {
    Peeled { block: BlockId },
    Solved { block: BlockId },
    Lost { block: BlockId, nodes: NodeList },
}

impl Line {
    /// The block of the line.
    pub fn block(&self) -> BlockId
        ensures { result ≡ block_in self.now }
    {
        match self {
            Line::Peeled { block } | Line::Solved { block } | Line::Lost { block, .. } => *block,
        }
    }
}
