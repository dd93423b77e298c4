ghost use Rattle.aea_fates.specs.Laws.{ListsAreOne, SumsAreDetermined, WordsAreOpen, WordsStay, DeterminedStay, SumsGiveBlocks, PartsStandAlone};

/// A block has one list of equations or one list of nodes, and not both.
pub fn lists_are_one()
    ensures { ListsAreOne }
{}

/// A block with listed equations is determined by the known blocks.
pub fn sums_are_determined()
    ensures { SumsAreDetermined }
{}

/// A block with listed nodes is not determined by the known blocks.
pub fn words_are_open()
    ensures { WordsAreOpen }
{}

/// Marking blocks that the known ones determine leaves the nodes of each lost block as they are.
pub fn words_stay()
    ensures { WordsStay }
{}

/// Marking blocks that the known ones determine changes nothing of what is determined.
pub fn determined_stay()
    ensures { DeterminedStay }
{}

/// In the lattice of every data list a block that is not known is the XOR of the known blocks of its listed equations,
/// each as often as it is there.
pub fn sums_give_blocks()
    ensures { SumsGiveBlocks }
{}

/// Marking all blocks outside a part leaves the lists of the part's blocks as they are.
pub fn parts_stand_alone()
    ensures { PartsStandAlone }
{}
