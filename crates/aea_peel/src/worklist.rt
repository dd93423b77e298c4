ghost use Rattle.std.specs.Prelude.{◌≡◌, ◌+◌, ◌*◌, ◌≤◌, ◌<◌, ◌++◌, ◌∷◌, [], ℕ, Bool, false, true, length, IsTrue, IfOk, OnOk, IfSome, IfNone, MatchOption, Contains};
ghost use Rattle.std.specs.Option.{ForSome};
ghost use Rattle.aea_lattice.specs.declared.blocks.BlockId.{BlockId};
ghost use Rattle.aea_lattice.specs.declared.blocks.EqId.{EqId};
ghost use Rattle.aea_lattice.specs.Blocks.{HasBlock, HasNode, HasParity, class_number, block_of, blocks_count};
ghost use Rattle.aea_lattice.specs.Equations.{HasEquation, equation_of, is_in_equation};
ghost use Rattle.aea_lattice.specs.Closure.{IsForcedBy};
ghost use Rattle.aea_view.specs.Presence.{IsCallable, AnswersAs};
ghost use Rattle.aea_peel.specs.Plans.{IsPlan, AreReached};
ghost use Rattle.aea_view.specs.Marked.{AreMarks, unmarked};
ghost use Rattle.aea_peel.specs.Queue.{is_marked, IsState, IsSpent, WaitsOrIsSpent, IsQueue, Adds};

use crate::plan::{Peeled, Plan, Step, StepList};
use aea_lattice::{BlockId, Class, EqId, Lattice};
use aea_view::{Marks, View};
use std::alloc::{AllocError, Global};

// The block of the equation without a mark, if it is the only one: the equation forces it.
fn single_unmarked(lattice: &Lattice, marks: &Marks, e: EqId) -> Option<BlockId>
    requires equation { HasEquation lattice.now e }
    requires same { marks.now.lattice ≡ lattice.now }
    ensures forced { IfSome result (λ b. IsForcedBy lattice.now (is_marked lattice.now marks.now.marks) b e) }
    ensures no_mark { IfSome result (λ b. is_marked lattice.now marks.now.marks b ≡ false) }
    ensures inside { IfSome result (HasBlock lattice.now) }
    ensures spent { IfNone result (IsSpent lattice.now marks.now.marks e) }
{
    marks.single_unmarked(e)
}

// Puts the equation of this node and class last, if the lattice has the class and the equation forces an unmarked block.
fn add(
    lattice: &Lattice,
    marks: &Marks,
    waiting: &mut Vec<EqId>,
    node: u32,
    class: Class,
) -> Result<(), AllocError>
    requires node { HasNode lattice.now node }
    requires parity { 1 ≤ class_number class }
    requires same { marks.now.lattice ≡ lattice.now }
    ensures adds { OnOk result (Adds lattice.now 1 waiting.old.items waiting.new.items) }
    ensures added { OnOk result (HasParity lattice.now class → WaitsOrIsSpent lattice.now marks.now.marks waiting.new.items (equation_of node class)) }
{
    let e = EqId { node, class };
    if class as u8 <= lattice.alpha() && single_unmarked(lattice, marks, e).is_some() {
        waiting.push(e)?;
    }
    Ok(())
}

// Adds the equations of a node that force an unmarked block.
fn add_node(
    lattice: &Lattice,
    marks: &Marks,
    waiting: &mut Vec<EqId>,
    node: u32,
) -> Result<(), AllocError>
    requires node { HasNode lattice.now node }
    requires same { marks.now.lattice ≡ lattice.now }
    ensures adds { OnOk result (Adds lattice.now 3 waiting.old.items waiting.new.items) }
    ensures added { OnOk result ((e : EqId) → HasEquation lattice.now e → e.node ≡ node → WaitsOrIsSpent lattice.now marks.now.marks waiting.new.items e) }
{
    add(lattice, marks, waiting, node, Class::Horiz)?;
    add(lattice, marks, waiting, node, Class::Right)?;
    add(lattice, marks, waiting, node, Class::Left)?;
    Ok(())
}

// Adds those of the one or two equations with a given parity that force an unmarked block.
fn add_parity(
    lattice: &Lattice,
    marks: &Marks,
    waiting: &mut Vec<EqId>,
    node: u32,
    class: Class,
) -> Result<(), AllocError>
    requires node { HasNode lattice.now node }
    requires class { HasParity lattice.now class }
    requires same { marks.now.lattice ≡ lattice.now }
    ensures adds { OnOk result (Adds lattice.now 3 waiting.old.items waiting.new.items) }
    ensures added { OnOk result ((e : EqId) → HasEquation lattice.now e → IsTrue (is_in_equation lattice.now e (block_of node class))
        → WaitsOrIsSpent lattice.now marks.now.marks waiting.new.items e) }
{
    add(lattice, marks, waiting, node, class)?;
    match lattice.next(node, class) {
        None => Ok(()),
        Some(next) => {
            add(lattice, marks, waiting, next, class)?;
            Ok(())
        }
    }
}

// Adds the equations with the block that force an unmarked block.
fn add_around(
    lattice: &Lattice,
    marks: &Marks,
    waiting: &mut Vec<EqId>,
    b: BlockId,
) -> Result<(), AllocError>
    requires block { HasBlock lattice.now b }
    requires same { marks.now.lattice ≡ lattice.now }
    ensures adds { OnOk result (Adds lattice.now 3 waiting.old.items waiting.new.items) }
    ensures added { OnOk result ((e : EqId) → HasEquation lattice.now e → IsTrue (is_in_equation lattice.now e b)
        → WaitsOrIsSpent lattice.now marks.now.marks waiting.new.items e) }
{
    match b.class {
        Class::Datum => add_node(lattice, marks, waiting, b.node),
        _ => add_parity(lattice, marks, waiting, b.node, b.class),
    }
}

// Adds the equations that force an unmarked block at first where none waits yet, node by node: those of the first node are last.
fn add_of_nodes(lattice: &Lattice, marks: &Marks, waiting: &mut Vec<EqId>) -> Result<(), AllocError>
    requires same { marks.now.lattice ≡ lattice.now }
    requires none { waiting.old.items ≡ [] }
    ensures { OnOk result (IsQueue lattice.now marks.now.marks waiting.new.items) }
{
    for k in 0..lattice.n() {
        add_node(lattice, marks, waiting, lattice.n() - k)?;
    }
    Ok(())
}

// Adds the same by the unmarked blocks that they are around, and looks at no other block: those of the first block are last.
fn add_of_unmarked(
    alloc: Global,
    lattice: &Lattice,
    marks: &Marks,
    waiting: &mut Vec<EqId>,
) -> Result<(), AllocError>
    requires same { marks.now.lattice ≡ lattice.now }
    requires none { waiting.old.items ≡ [] }
    ensures { OnOk result (IsQueue lattice.now marks.now.marks waiting.new.items) }
{
    let open = marks.complement(alloc)?;
    let mut from: u32 = 0;
    while let Some(k) = open.next_marked(from) {
        add_around(lattice, marks, waiting, lattice.block(k))?;
        from = k + 1;
    }
    waiting.reverse();
    Ok(())
}

// The equations that force an unmarked block at first. Those of the first node or block are last, and so are taken first. Each
// block is in three equations at most: where these are fewer than all of them, the unmarked blocks alone are looked at. There
// is space for all equations that have an unmarked block.
fn first_equations(alloc: Global, lattice: &Lattice, marks: &Marks) -> Result<Vec<EqId>, AllocError>
    requires { marks.now.lattice ≡ lattice.now }
    ensures { IfOk result (λ waiting. IsQueue lattice.now marks.now.marks waiting.items) }
{
    let equations = u64::from(lattice.n() * u32::from(lattice.alpha()));
    let around = 3 * u64::from(marks.unmarked());
    let mut waiting = Vec::with_capacity(alloc, around.min(equations) as usize)?;
    if around < equations {
        add_of_unmarked(alloc, lattice, marks, &mut waiting)?;
    } else {
        add_of_nodes(lattice, marks, &mut waiting)?;
    }
    Ok(waiting)
}

// Takes the step of this equation, if it forces an unmarked block, and adds the equations that force one from then on.
fn take_step(
    lattice: &Lattice,
    marks: &mut Marks,
    steps: &mut StepList,
    waiting: &mut Vec<EqId>,
    e: EqId,
) -> Result<(), AllocError>
    requires equation { HasEquation lattice.now e }
    requires same { marks.old.lattice ≡ lattice.now }
    requires long { length marks.old.marks ≡ blocks_count lattice.now }
    ensures same { marks.new.lattice ≡ lattice.now }
    ensures long { length marks.new.marks ≡ blocks_count lattice.now }
    ensures state { OnOk result ((known : BlockId → Bool)
        → IsState lattice.now known steps.old marks.old.marks → IsState lattice.now known steps.new marks.new.marks) }
    ensures queue { OnOk result (IsQueue lattice.now marks.old.marks (waiting.old.items ++ e ∷ []) → IsQueue lattice.now marks.new.marks waiting.new.items) }
    ensures fewer { OnOk result (length waiting.new.items + 4 * unmarked marks.new ≤ length waiting.old.items + 4 * unmarked marks.old) }
{
    match single_unmarked(lattice, marks, e) {
        None => Ok(()),
        Some(block) => {
            steps.push(Step { block, by: e })?;
            marks.set(block, true);
            add_around(lattice, marks, waiting, block)?;
            Ok(())
        }
    }
}

/// What follows from marked blocks: the plan that gives, by single equations, every block that follows so from them,
/// and the marks of all of these, which are those of the closure. The order of the steps is free but for what each
/// needs; they go forward where that leaves the choice. The time is linear in the number of blocks that are not marked, and
/// the words of the marks are gone over a few times. Beside the marks it takes a bit of memory a block; and for each block
/// that is not marked 16 bytes for the plan, and up to 24 for the equations that wait, in all no more than about 6 a block.
pub fn peel_marks(alloc: Global, mut marks: Marks) -> Result<Peeled, AllocError>
    ensures plan { IfOk result (λ p. (known : BlockId → Bool) → AreMarks marks known → IsPlan marks.lattice known p.plan.steps) }
    ensures lattice { IfOk result (λ p. p.marks.lattice ≡ marks.lattice) }
    ensures reached { IfOk result (λ p. (known : BlockId → Bool) → AreMarks marks known → AreReached p.marks known) }
{
    let lattice = *marks.lattice();
    let mut steps = StepList::with_capacity(alloc, marks.unmarked() as usize)?;
    let mut waiting = first_equations(alloc, &lattice, &marks)?;

    // In each round, what is marked is present or given by a step so far, and each equation of the lattice waits on
    // the list or forces no unmarked block. At the end none waits, so what marked blocks force is marked, and by
    // induction on a derivation each block of the closure is. An equation waits at most once, when its last but one
    // unmarked block has got its mark, so the list never grows past its first capacity.
    while let Some(e) = waiting.pop() {
        take_step(&lattice, &mut marks, &mut steps, &mut waiting, e)?;
    }
    Ok(Peeled {
        plan: Plan { steps },
        marks,
    })
}

/// The plan that gives, by single equations, every block that follows so from the present ones, as `peel_marks` has it
/// of their marks. Beside the view it takes a bit of memory a block for these.
pub fn peel<F: Fn(BlockId) -> bool>(
    alloc: Global,
    lattice: &Lattice,
    view: &View<F>,
) -> Result<Plan, AllocError>
    requires lattice { view.now.lattice ≡ lattice.now }
    requires callable { IsCallable F.pre lattice.now view.now.predicate }
    ensures plan { IfOk result (λ plan. (known : BlockId → Bool) → AnswersAs F.post lattice.now view.now.predicate known
        → IsPlan lattice.now known plan.steps) }
{
    let peeled = peel_marks(alloc, view.marks(alloc)?)?;
    Ok(peeled.plan)
}
