//! Plans.

ghost use Rattle.std.specs.Prelude.{◌≡◌, ℕ, Bool, not, List, Option, vec_capacity, IfOk};
ghost use Rattle.aea_lattice.specs.declared.blocks.BlockId.{BlockId};
ghost use Rattle.aea_view.specs.Marked.{AreMarks, is_marked};
ghost use Rattle.aea_peel.specs.Plans.{IsPlan, AreReached};
ghost use Rattle.aea_report.specs.Printed.{IsPrinted};
ghost use Rattle.aea_plan.specs.Plans.{AreLossesOf, IsPlanOf, IsSound, HasRoom, head_by};
ghost use Rattle.aea_plan.specs.Verdicts.{AreVerdicts, lines_by};

use crate::counts::{Counts, count_blocks, most_nodes};
use crate::nodes::NODE_BYTES;
use crate::verdicts::Verdicts;
use aea_fates::{determined_stay, words_are_open, words_stay};
use aea_lattice::{blocks_are_inside, reached_are_determined};
use aea_peel::{StepList, peel_marks};
use aea_sweep::{LossList, losses};
use aea_view::Marks;
use std::alloc::{AllocError, Global};

/// What is done for each block that is not known: the steps that peel what can be peeled, in an order in which they can be
/// carried out, and the verdict of each block. The other fields say how many blocks are peeled, solved and lost, and by how
/// many nodes at most one block is lost.
#[derive(Drop)]
pub struct Plan {
    pub steps: StepList,
    pub verdicts: Verdicts,
    pub counts: Counts,
    pub most_nodes: usize,
}

// What is peeled and what it leaves.
#[derive(Drop)]
struct Judged {
    steps: StepList,
    verdicts: Verdicts,
}

// What is lost of what is not reached. Where all is reached, no block is looked at.
fn losses_of(alloc: Global, reached: &Marks) -> Result<Option<LossList>, AllocError>
    ensures { IfOk result (λ list. AreLossesOf reached.now.lattice (is_marked reached.now) list) }
{
    let lattice = reached.lattice();
    let open = reached.complement(alloc)?;
    match open.next_marked(0) {
        None => Ok(None),
        Some(_) => Ok(Some(losses(alloc, lattice, reached)?)),
    }
}

// Peels, and says what is lost of what peeling leaves.
fn judge(alloc: Global, known: &Marks) -> Result<Judged, AllocError>
    ensures lattice { IfOk result (λ j. j.verdicts.damaged.lattice ≡ known.now.lattice) }
    ensures verdicts { IfOk result (λ j. AreVerdicts j.verdicts) }
    ensures damaged { IfOk result (λ j. (test : BlockId → Bool) → AreMarks known.now test → AreMarks j.verdicts.damaged (λ b. not (test b))) }
    ensures steps { IfOk result (λ j. (test : BlockId → Bool) → AreMarks known.now test → IsPlan known.now.lattice test j.steps) }
    ensures reached { IfOk result (λ j. (test : BlockId → Bool) → AreMarks known.now test → AreReached j.verdicts.reached test) }
    ensures losses { IfOk result (λ j. AreLossesOf known.now.lattice (is_marked j.verdicts.reached) j.verdicts.losses) }
{
    let damaged = known.complement(alloc)?;
    let peeled = peel_marks(alloc, damaged.complement(alloc)?)?;
    let reached = peeled.marks;
    let losses = losses_of(alloc, &reached)?;
    Ok(Judged {
        steps: peeled.plan.steps,
        verdicts: Verdicts {
            damaged,
            reached,
            losses,
        },
    })
}

impl Plan {
    /// The plan for these known blocks. Peeling takes the memory that `peel_marks` says, and `losses` takes its own where
    /// peeling leaves a block; beside the steps and this list a plan keeps two bits a block. An error is a lack of memory.
    pub fn new(alloc: Global, known: &Marks) -> Result<Plan, AllocError>
        ensures lattice { IfOk result (λ plan. plan.verdicts.damaged.lattice ≡ known.now.lattice) }
        ensures sound { IfOk result IsSound }
        ensures plan { IfOk result (λ plan. (test : BlockId → Bool) → AreMarks known.now test → IsPlanOf test plan) }
        ensures printed { IfOk result (λ plan. (test : BlockId → Bool) (seal : Option (List ℕ)) → AreMarks known.now test
            → IsPrinted known.now.lattice test seal (head_by seal plan) (lines_by plan.verdicts)) }
    {
        blocks_are_inside();
        reached_are_determined();
        words_are_open();
        words_stay();
        determined_stay();
        let judged = judge(alloc, known)?;
        let counts = count_blocks(&judged.verdicts);
        let most_nodes = most_nodes(&judged.verdicts.losses);
        Ok(Plan {
            steps: judged.steps,
            verdicts: judged.verdicts,
            counts,
            most_nodes,
        })
    }

    /// Space for the text of the nodes of one lost block, of 11 bytes a node. An error is a lack of memory.
    pub fn text_room(&self, alloc: Global) -> Result<Vec<u8>, AllocError>
        ensures { IfOk result (λ text. HasRoom self.now (vec_capacity text)) }
    {
        match self.most_nodes.checked_mul(NODE_BYTES) {
            Some(bytes) => Vec::with_capacity(alloc, bytes),
            None => Err(AllocError),
        }
    }
}
