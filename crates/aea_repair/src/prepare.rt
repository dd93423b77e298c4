//! What a repair takes before it writes.

ghost use Rattle.std.specs.Prelude.{◌≡◌, ◌↔◌, ℕ, Bool, List, Option, length, vec_capacity, IfOk};
ghost use Rattle.aea_lattice.specs.declared.blocks.BlockId.{BlockId};
ghost use Rattle.aea_lattice.specs.declared.shape.Shape.{Shape};
ghost use Rattle.aea_shelf.specs.Places.{cell_size};
ghost use Rattle.aea_view.specs.Marked.{AreMarks, is_marked};
ghost use Rattle.aea_gauss.specs.Fates.{AreFates};
ghost use Rattle.aea_report.specs.Printed.{IsPrinted};
ghost use Rattle.aea_plan.specs.Plans.{IsSound, HasRoom, head_by};
ghost use Rattle.aea_plan.specs.Verdicts.{lines_by};
ghost use Rattle.aea_restore.specs.Given.{IsGiven, CanBeRestored};
ghost use Rattle.aea_restore.specs.Laws.{IsRestorable};

use aea_archive::cell_buffer;
use aea_gauss::{FateList, solve};
use aea_lattice::blocks_are_inside;
use aea_ledger::Ledger;
use aea_plan::Plan;
use aea_restore::{given_are_restorable, plans_can_be_restored};
use aea_view::Marks;
use std::alloc::{AllocError, Global};

/// Buffers for a payload that is computed, a cell that is read, and a cell that is written.
#[derive(Drop)]
pub(crate) struct Buffers {
    pub sum: Vec<u8>,
    pub read: Vec<u8>,
    pub write: Vec<u8>,
}

/// The plan of a repair and the fates of what peeling leaves, of which the sums give blocks; with space for the text of the nodes
/// of one lost block, and its buffers.
#[derive(Drop)]
pub(crate) struct Prepared {
    pub plan: Plan,
    pub fates: FateList,
    pub text: Vec<u8>,
    pub buffers: Buffers,
}

// Buffers of the sizes of the archive.
fn take_buffers(alloc: Global, ledger: &Ledger) -> Result<Buffers, AllocError>
    ensures sum { IfOk result (λ b. length b.sum.items ≡ ledger.now.shape.block) }
    ensures read { IfOk result (λ b. length b.read.items ≡ cell_size ledger.now.shape) }
    ensures write { IfOk result (λ b. length b.write.items ≡ cell_size ledger.now.shape) }
{
    let size = ledger.shape().block() as usize;
    let sum = vec![in alloc; 0; size]?;
    let read = cell_buffer(alloc, ledger)?;
    let write = cell_buffer(alloc, ledger)?;
    Ok(Buffers { sum, read, write })
}

/// A plan, and the fates of what peeling leaves.
#[derive(Drop)]
struct Planned {
    plan: Plan,
    fates: FateList,
}

// The fates of what is not reached. Where all is, no block is looked at.
fn fates_of(alloc: Global, reached: &Marks) -> Result<FateList, AllocError>
    ensures { IfOk result (λ fates. AreFates reached.now.lattice (is_marked reached.now) fates) }
{
    blocks_are_inside();
    let lattice = reached.lattice();
    let open = reached.complement(alloc)?;
    match open.next_marked(0) {
        None => Ok(FateList::new(alloc)),
        Some(_) => solve(alloc, lattice, reached),
    }
}

// The plan where the marked blocks are known, and the fates of what its steps do not reach.
fn plan_of(alloc: Global, marks: &Marks) -> Result<Planned, AllocError>
    ensures lattice { IfOk result (λ p. p.plan.verdicts.damaged.lattice ≡ marks.now.lattice) }
    ensures sound { IfOk result (λ p. IsSound p.plan) }
    ensures printed { IfOk result (λ p. (test : BlockId → Bool) (seal : Option (List ℕ)) → AreMarks marks.now test → IsPrinted marks.now.lattice test seal (head_by seal p.plan) (lines_by p.plan.verdicts)) }
    ensures can { IfOk result (λ p. CanBeRestored marks.now.lattice (is_marked marks.now) p.plan.steps p.fates) }
    ensures mends { IfOk result (λ p. (test : BlockId → Bool) → AreMarks marks.now test → (b : BlockId) → IsGiven p.plan.steps p.fates b ↔ IsRestorable marks.now.lattice test b) }
{
    plans_can_be_restored();
    given_are_restorable();
    let plan = Plan::new(alloc, marks)?;
    let fates = fates_of(alloc, &plan.verdicts.reached)?;
    Ok(Planned { plan, fates })
}

/// Plans the repair where the marked blocks are known, and takes all memory that is needed from then on.
pub(crate) fn prepare(alloc: Global, ledger: &Ledger, marks: &Marks) -> Result<Prepared, AllocError>
    ensures lattice { IfOk result (λ p. p.plan.verdicts.damaged.lattice ≡ marks.now.lattice) }
    ensures sound { IfOk result (λ p. IsSound p.plan) }
    ensures room { IfOk result (λ p. HasRoom p.plan (vec_capacity p.text)) }
    ensures printed { IfOk result (λ p. (test : BlockId → Bool) (seal : Option (List ℕ)) → AreMarks marks.now test → IsPrinted marks.now.lattice test seal (head_by seal p.plan) (lines_by p.plan.verdicts)) }
    ensures can { IfOk result (λ p. CanBeRestored marks.now.lattice (is_marked marks.now) p.plan.steps p.fates) }
    ensures mends { IfOk result (λ p. (test : BlockId → Bool) → AreMarks marks.now test → (b : BlockId) → IsGiven p.plan.steps p.fates b ↔ IsRestorable marks.now.lattice test b) }
    ensures sum { IfOk result (λ p. length p.buffers.sum.items ≡ ledger.now.shape.block) }
    ensures read { IfOk result (λ p. length p.buffers.read.items ≡ cell_size ledger.now.shape) }
    ensures write { IfOk result (λ p. length p.buffers.write.items ≡ cell_size ledger.now.shape) }
{
    let planned = plan_of(alloc, marks)?;
    let plan = planned.plan;
    let text = plan.text_room(alloc)?;
    let buffers = take_buffers(alloc, ledger)?;
    Ok(Prepared {
        plan,
        fates: planned.fates,
        text,
        buffers,
    })
}
