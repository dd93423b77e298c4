ghost use Rattle.aea_envelope.specs.Facts.{CellsHaveLengths, CellsHaveParts, CellsHaveOnePayload, CellsRevealBlocks};

/// A head has 16 bytes, a digest 32, and a cell is 48 bytes longer than its payload.
pub fn cells_have_lengths()
    ensures { CellsHaveLengths }
{}

/// A cell begins with the head of its block. The payload follows, and the digest is its last 32 bytes.
pub fn cells_have_parts()
    ensures { CellsHaveParts }
{}

/// A block's cell is that of one payload.
pub fn cells_have_one_payload()
    ensures { CellsHaveOnePayload }
{}

/// Cells of two blocks differ, whatever the payloads: their heads do.
pub fn cells_reveal_blocks()
    ensures { CellsRevealBlocks }
{}
