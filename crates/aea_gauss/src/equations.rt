ghost use Rattle.std.specs.Prelude.{◌≡◌, ◌<◌, ◌^◌, Bool, not, ◌++◌, [], ◌∷◌, if◌then◌else◌, length, All, IfOk, OnOk};
ghost use Rattle.std.specs.List.{list_any};
ghost use Rattle.aea_lattice.specs.Blocks.{HasBlock};
ghost use Rattle.aea_lattice.specs.Equations.{HasEquation};
ghost use Rattle.aea_view.specs.Marked.{is_marked};
ghost use Rattle.aea_fates.specs.Live.{is_live, live_equations};
ghost use Rattle.aea_readings.specs.Small.{unknown_blocks, AreListed};

use aea_lattice::{BlockId, EqId, Lattice};
use aea_readings::unknown_are_listed;
use aea_view::Marks;
use std::alloc::{AllocError, Global};

// Whether the block is known.
pub(crate) fn is_known(lattice: &Lattice, known: &Marks, b: BlockId) -> bool
    requires same { known.now.lattice ≡ lattice.now }
    requires block { HasBlock lattice.now b }
    ensures { result ≡ is_marked known.now b }
{
    known.get(b)
}

// Whether one of the two blocks is not known.
fn either_unknown(lattice: &Lattice, known: &Marks, first: BlockId, second: BlockId) -> bool
    requires same { known.now.lattice ≡ lattice.now }
    requires first { HasBlock lattice.now first }
    requires second { HasBlock lattice.now second }
    ensures { result ≡ list_any (λ d. not (is_marked known.now d)) (first ∷ second ∷ []) }
{
    !is_known(lattice, known, first) || !is_known(lattice, known, second)
}

// Whether the equation has a block that is not known.
fn is_live(lattice: &Lattice, known: &Marks, e: EqId) -> bool
    requires same { known.now.lattice ≡ lattice.now }
    requires equation { HasEquation lattice.now e }
    ensures { result ≡ is_live lattice.now (is_marked known.now) e }
{
    let q = lattice.equation(e);
    match q.input {
        Some(g) => !is_known(lattice, known, g)
            || either_unknown(lattice, known, q.datum, q.output),
        None => either_unknown(lattice, known, q.datum, q.output),
    }
}

// Puts the equation last, if it has a block that is not known.
fn keep_live(
    lattice: &Lattice,
    known: &Marks,
    live: &mut Vec<EqId>,
    e: EqId,
) -> Result<(), AllocError>
    requires same { known.now.lattice ≡ lattice.now }
    requires equation { HasEquation lattice.now e }
    ensures { OnOk result (live.new.items ≡ live.old.items ++ (if is_live lattice.now (is_marked known.now) e then e ∷ [] else [])) }
{
    if is_live(lattice, known, e) {
        live.push(e)?;
    }
    Ok(())
}

// The equations that have a block that is not known, in equation order.
pub(crate) fn live_equations(
    alloc: Global,
    lattice: &Lattice,
    known: &Marks,
) -> Result<Vec<EqId>, AllocError>
    requires same { known.now.lattice ≡ lattice.now }
    ensures live { IfOk result (λ live. live.items ≡ live_equations lattice.now (is_marked known.now)) }
    ensures inside { IfOk result (λ live. All (HasEquation lattice.now) live.items) }
    ensures few { IfOk result (λ live. length live.items < 2 ^ 23) }
{
    let all = lattice.equations(alloc)?;
    let mut live = Vec::new(alloc);
    for e in all.as_slice() {
        keep_live(lattice, known, &mut live, *e)?;
    }
    Ok(live)
}

// Puts the block last, if it is not known.
fn keep_unknown(
    lattice: &Lattice,
    known: &Marks,
    blocks: &mut Vec<BlockId>,
    b: BlockId,
) -> Result<(), AllocError>
    requires same { known.now.lattice ≡ lattice.now }
    requires block { HasBlock lattice.now b }
    ensures { OnOk result (blocks.new.items ≡ blocks.old.items ++ (if not (is_marked known.now b) then b ∷ [] else [])) }
{
    if !is_known(lattice, known, b) {
        blocks.push(b)?;
    }
    Ok(())
}

// The blocks that are not known, in number order.
pub(crate) fn unknown_blocks(
    alloc: Global,
    lattice: &Lattice,
    known: &Marks,
) -> Result<Vec<BlockId>, AllocError>
    requires same { known.now.lattice ≡ lattice.now }
    ensures all { IfOk result (λ blocks. blocks.items ≡ unknown_blocks lattice.now (is_marked known.now)) }
    ensures listed { IfOk result (λ blocks. AreListed lattice.now blocks.items) }
{
    unknown_are_listed();
    let mut blocks = Vec::new(alloc);
    for k in 0..lattice.blocks() {
        keep_unknown(lattice, known, &mut blocks, lattice.block(k))?;
    }
    Ok(blocks)
}
