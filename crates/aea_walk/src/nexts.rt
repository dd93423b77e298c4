//! For each parity the next intact one of its strand.

ghost use Rattle.std.specs.Prelude.{◌≡◌, ◌+◌, ◌<◌, ◌≤◌, ℕ, length, get_or, IfOk};
ghost use Rattle.aea_lattice.specs.Blocks.{HasNode, HasParity, class_number};
ghost use Rattle.aea_view.specs.Marked.{is_marked};
ghost use Rattle.aea_walk.specs.Stretches.{AreNextOn, AreNextFrom, AreNextIntact, next_of};

use aea_lattice::{BlockId, Class};
use aea_view::Marks;
use std::alloc::{AllocError, Global};

/// For each parity of a lattice the node of the next intact one of its strand, itself or a later one; n + 1 where there is
/// none. Fences are not looked at. It keeps 4 bytes a parity.
#[derive(Drop)]
pub struct NextIntact {
    horiz: Vec<u32>,
    right: Vec<u32>,
    left: Vec<u32>,
}

// Passes the parity of the class at a node, after those of all later nodes: `ends` has for each strand the first intact
// parity of them.
fn pass_back(marks: &Marks, next: &mut [u32], ends: &mut [u32], node: u32, class: Class)
    requires node { HasNode marks.now.lattice node }
    requires class { HasParity marks.now.lattice class }
    requires long { length next.old ≡ marks.now.lattice.n + 1 }
    requires strands { length ends.old ≡ 64 }
    ensures long { length next.new ≡ marks.now.lattice.n + 1 }
    ensures strands { length ends.new ≡ 64 }
    ensures passed { AreNextFrom marks.now.lattice (is_marked marks.now) class (node + 1) next.old ends.old → AreNextFrom marks.now.lattice (is_marked marks.now) class node next.new ends.new }
{
    let strand = marks.lattice().strand(node, class) as usize;
    let first = if marks.get(BlockId { node, class }) {
        node
    } else {
        ends[strand]
    };
    ends[strand] = first;
    next[node as usize] = first;
}

// Passes all nodes, from the last one on.
fn pass_all(marks: &Marks, next: &mut [u32], ends: &mut [u32], class: Class)
    requires class { HasParity marks.now.lattice class }
    requires long { length next.old ≡ marks.now.lattice.n + 1 }
    requires strands { length ends.old ≡ 64 }
    requires none { (t : ℕ) → t < 64 → get_or ends.old t 0 ≡ marks.now.lattice.n + 1 }
    ensures { AreNextOn marks.now.lattice (is_marked marks.now) class next.new }
{
    let n = marks.lattice().n();
    for k in 0..n {
        pass_back(marks, next, ends, n - k, class);
    }
}

// The next marked parity of each of the class, by its node; none where the lattice has no such class.
fn next_on(alloc: Global, marks: &Marks, class: Class) -> Result<Vec<u32>, AllocError>
    requires { 1 ≤ class_number class }
    ensures { IfOk result (λ next. HasParity marks.now.lattice class → AreNextOn marks.now.lattice (is_marked marks.now) class next.items) }
{
    let lattice = marks.lattice();
    if class as u8 > lattice.alpha() {
        return Ok(Vec::new(alloc));
    }
    let end = lattice.n() + 1;
    let mut next = vec![in alloc; end; end as usize]?;
    let mut ends = [end; 64];
    pass_all(marks, next.as_mut_slice(), ends.as_mut_slice(), class);
    Ok(next)
}

impl NextIntact {
    /// The table of the marked blocks, by one pass backward over the lattice for each class.
    pub fn new(alloc: Global, marks: &Marks) -> Result<NextIntact, AllocError>
        ensures { IfOk result (AreNextIntact marks.now.lattice (is_marked marks.now)) }
    {
        Ok(NextIntact {
            horiz: next_on(alloc, marks, Class::Horiz)?,
            right: next_on(alloc, marks, Class::Right)?,
            left: next_on(alloc, marks, Class::Left)?,
        })
    }

    /// That of the class, by node.
    pub(crate) fn of(&self, class: Class) -> &[u32]
        ensures { result.now ≡ next_of self.now class }
    {
        match class {
            Class::Datum => [].as_slice(),
            Class::Horiz => self.horiz.as_slice(),
            Class::Right => self.right.as_slice(),
            Class::Left => self.left.as_slice(),
        }
    }
}
