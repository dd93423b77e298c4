//! The cases, one after the other: each site by itself, and then each pair.

ghost use Rattle.std.specs.Prelude.{◌≡◌, ◌+◌, ◌≤◌, ◌<◌, ◌-◌, ◌∷◌, []};
ghost use Rattle.aea_command_loss.specs.Sites.{alone, pairs_behind, pairs_of, cases_of};
ghost use Rattle.aea_command_loss.specs.Sites.Steps.{PutsLosses};

use crate::sites::lines::write_loss;
use aea_command::Failure;
use aea_io::Sink;
use aea_lattice::Lattice;
use aea_sites::without;
use std::alloc::Global;

// Computes what is lost where these two sites are gone, and then writes its line.
fn put_case<O: Sink>(
    alloc: Global,
    lattice: &Lattice,
    sites: u8,
    a: u8,
    b: u8,
    out: &mut O,
) -> Result<(), Failure>
    requires few { sites ≤ 64 }
    requires a { 1 ≤ a }
    requires order { a ≤ b }
    requires b_last { b ≤ sites }
    ensures { PutsLosses lattice.now sites ((a, b) ∷ []) (O.state out.old) (O.state out.new) result }
{
    let loss = without(alloc, lattice, sites, a, b)?;
    write_loss(out, a, b, &loss)?;
    Ok(())
}

// Each site by itself.
fn put_alone<O: Sink>(
    alloc: Global,
    lattice: &Lattice,
    sites: u8,
    out: &mut O,
) -> Result<(), Failure>
    requires few { sites ≤ 64 }
    ensures { PutsLosses lattice.now sites (alone sites) (O.state out.old) (O.state out.new) result }
{
    for k in 0..sites {
        put_case(alloc, lattice, sites, 1 + k, 1 + k, out)?;
    }
    Ok(())
}

// This site with each site after it.
fn put_pairs_behind<O: Sink>(
    alloc: Global,
    lattice: &Lattice,
    sites: u8,
    a: u8,
    out: &mut O,
) -> Result<(), Failure>
    requires few { sites ≤ 64 }
    requires a { 1 ≤ a }
    requires a_last { a ≤ sites }
    ensures { PutsLosses lattice.now sites (pairs_behind a (sites - a)) (O.state out.old) (O.state out.new) result }
{
    for k in 0..sites - a {
        put_case(alloc, lattice, sites, a, a + 1 + k, out)?;
    }
    Ok(())
}

// Each pair of sites.
fn put_pairs<O: Sink>(
    alloc: Global,
    lattice: &Lattice,
    sites: u8,
    out: &mut O,
) -> Result<(), Failure>
    requires few { sites ≤ 64 }
    ensures { PutsLosses lattice.now sites (pairs_of sites sites) (O.state out.old) (O.state out.new) result }
{
    for k in 0..sites {
        put_pairs_behind(alloc, lattice, sites, 1 + k, out)?;
    }
    Ok(())
}

/// Puts the line of each site by itself, and then that of each pair of sites, each as soon as it is computed.
pub fn put_losses<O: Sink>(
    alloc: Global,
    lattice: &Lattice,
    sites: u8,
    out: &mut O,
) -> Result<(), Failure>
    requires few { sites ≤ 64 }
    ensures { PutsLosses lattice.now sites (cases_of sites) (O.state out.old) (O.state out.new) result }
{
    put_alone(alloc, lattice, sites, out)?;
    put_pairs(alloc, lattice, sites, out)?;
    Ok(())
}
