ghost use Rattle.aea_sweep.specs.Sweep.{EndsStandAside, NotSpare};

/// Blocks that some codeword without known blocks shows to be open beside a determined block may be marked too: the equations
/// that are then listed for that block are the same.
pub fn ends_stand_aside()
    ensures { EndsStandAside }
{}

/// An equation whose output is not known is not spare, and nor is one that a set of nodes contradicts.
pub fn not_spare()
    ensures { NotSpare }
{}
