//! The longest runs of nodes.

ghost use Rattle.std.specs.Prelude.{◌≡◌, ◌+◌, ◌≤◌, [], ◌∷◌, ◌++◌, ℕ, List, All, OnOk};
ghost use Rattle.aea_lattice.specs.Profile.{greatest_nodes};
ghost use Rattle.aea_machine.specs.Machine.{runs_of};

use aea_catalog::Extent;
use std::alloc::AllocError;

/// Puts a node after the nodes of these parts, which are their longest runs. It takes memory for a part, 8 bytes, where the node
/// does not go on from the last one; want of it is the only error.
pub(crate) fn push_node(parts: &mut Vec<Extent>, node: u32) -> Result<(), AllocError>
    requires node { node ≤ greatest_nodes }
    requires before { All (λ e. e.first + e.count ≤ node) parts.old.items }
    ensures { OnOk result ((nodes : List ℕ) → parts.old.items ≡ runs_of nodes → parts.new.items ≡ runs_of (nodes ++ node ∷ [])) }
{
    let count = parts.as_slice().len();
    if count > 0 {
        let last = parts[count - 1];
        if last.first + last.count == node {
            parts[count - 1] = Extent {
                first: last.first,
                count: last.count + 1,
            };
            return Ok(());
        }
    }
    parts.push(Extent {
        first: node,
        count: 1,
    })?;
    Ok(())
}
