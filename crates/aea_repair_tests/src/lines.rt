//! The lines of damage lists and reports.

use aea_disk::Disk;
use aea_lattice::{BlockId, Lattice};
use aea_plain::closure;
use aea_runs::{Left, run_line, text_of};
use aea_test_helpers::{add_line, report_of};
use std::alloc::{AllocError, Global};

// The damage list of these blocks.
fn damage_list(alloc: Global, lost: &[BlockId]) -> Result<String, AllocError> {
    let mut list = String::new(alloc);
    for b in lost {
        add_line(&mut list, "", *b)?;
    }
    Ok(list)
}

// Runs a drill of a lattice with these numbers where these blocks are lost.
fn drill(alloc: Global, numbers: &str, lost: &[BlockId]) -> Option<Left> {
    if let Ok(line) = format!(in alloc; "drill {numbers}")
        && let Ok(list) = damage_list(alloc, lost)
    {
        run_line(alloc, line.as_str(), list.as_bytes()).ok()
    } else {
        None
    }
}

// What a drill of a lattice without fences printed, from the fourth line on.
fn past_head(alloc: Global, printed: &[u8]) -> Option<String> {
    let (_head, lines) = text_of(printed).ok()?.split_once("ledger none\n")?;
    String::from_str(alloc, lines).ok()
}

// The lines that a drill of a lattice without fences prints where these blocks are lost, from the fourth on.
fn drilled(alloc: Global, numbers: &str, lost: &[BlockId]) -> Option<String> {
    past_head(alloc, drill(alloc, numbers, lost)?.out.bytes())
}

/// The report of this archive, of a lattice without fences that has these numbers, where these blocks are lost: the lines from
/// the fourth on are those of a drill.
pub fn drilled_report<D: Disk>(
    alloc: Global,
    disk: &mut D,
    numbers: &str,
    lost: &[BlockId],
) -> Option<String> {
    report_of(
        alloc,
        disk,
        numbers,
        drilled(alloc, numbers, lost)?.as_str(),
    )
}

// The blocks of the lattice that are not lost.
fn left_blocks(
    alloc: Global,
    lattice: &Lattice,
    lost: &[BlockId],
) -> Result<Vec<BlockId>, AllocError> {
    let mut left = Vec::new(alloc);
    for k in 0..lattice.blocks() {
        let b = lattice.block(k);
        if !lost.contains(&b) {
            left.push(b)?;
        }
    }
    Ok(left)
}

// How many of the lost blocks single equations give one after another.
fn peeled_count(alloc: Global, lattice: &Lattice, lost: &[BlockId]) -> Option<usize> {
    if let Ok(left) = left_blocks(alloc, lattice, lost)
        && let Ok(reached) = closure(alloc, lattice, left.as_slice())
    {
        Some(reached.len().saturating_sub(left.len()))
    } else {
        None
    }
}

/// The fourth line of the report where these blocks are lost and these restored.
pub fn counts_of(
    alloc: Global,
    lattice: &Lattice,
    lost: &[BlockId],
    restored: &[BlockId],
) -> Option<String> {
    let damaged = lost.len();
    let peeled = peeled_count(alloc, lattice, lost)?;
    let solved = restored.len().saturating_sub(peeled);
    let open = damaged.saturating_sub(restored.len());
    format!(in alloc; "counts {damaged} {peeled} {solved} {open}\n").ok()
}
