ghost use Rattle.aea_lattice.specs.LeastWord.{WordsAreOne};
ghost use Rattle.aea_lattice.specs.Facts.{CodewordsAreEven, ReachedAreDetermined, WordsMissDetermined, ChangesAreCodewords, EquationsAddUp, SetsAddUp, SumsAreListed, NumbersRevealBlocks, BlocksAreInside, PassingAreAmong, LastsEnter, JoinedStandAfterTheFence};

/// A set of blocks is a codeword exactly where every equation has an even number of its blocks, and is then the
/// codeword of its data nodes.
pub fn codewords_are_even()
    ensures { CodewordsAreEven }
{}

/// A set of blocks determines every block of its closure.
pub fn reached_are_determined()
    ensures { ReachedAreDetermined }
{}

/// A codeword that contains no block of a set contains no block that the set determines.
pub fn words_miss_determined()
    ensures { WordsMissDetermined }
{}

/// A block has at most one list of nodes by which it is lost.
pub fn words_are_one()
    ensures { WordsAreOne }
{}

/// Adding the same bytes, not all zero, to the blocks of some nodes changes exactly the codeword of the nodes, and each
/// other block stays the same.
pub fn changes_are_codewords()
    ensures { ChangesAreCodewords }
{}

/// A node is not parted from another exactly where it is greater than the greatest fence below that one.
pub fn joined_stand_after_the_fence()
    ensures { JoinedStandAfterTheFence }
{}

/// The blocks of an equation add up to zero.
pub fn equations_add_up()
    ensures { EquationsAddUp }
{}

/// What a set of equations adds up to is zero by XOR, counted by parity.
pub fn sets_add_up()
    ensures { SetsAddUp }
{}

/// Two lists of what a set of equations adds up to: each block once, and the blocks of one equation after another.
pub fn sums_are_listed()
    ensures { SumsAreListed }
{}

/// Two blocks of a lattice with one number are the same.
pub fn numbers_reveal_blocks()
    ensures { NumbersRevealBlocks }
{}

/// Every item of the list of the blocks of a lattice is a block of it.
pub fn blocks_are_inside()
    ensures { BlocksAreInside }
{}

/// Among the blocks of a lattice that pass a test are exactly its blocks that pass it.
pub fn passing_are_among()
    ensures { PassingAreAmong }
{}

/// The parity that enters the next node on a strand is that of the strand's last open node.
pub fn lasts_enter()
    ensures { LastsEnter }
{}
