//! `fence`: a fence after the last node of the archive.

ghost use Rattle.std.specs.Prelude.{◌≡◌, ◌≢◌, ◌≤◌, [], List, IfOk, OnOk};
ghost use Rattle.aea_faults.specs.Faults.{Rose};
ghost use Rattle.aea_io.specs.Pages.{Prints};
ghost use Rattle.aea_io.specs.Written.{IsFlushed};
ghost use Rattle.aea_lattice.specs.declared.shape.Shape.{Shape};
ghost use Rattle.aea_records.specs.Format.{Record, nodes_of, raised_limit};
ghost use Rattle.aea_ledger.specs.Stops.{HasLedger};
ghost use Rattle.aea_command_store.specs.Adding.{AddsRecord, KeepsTheRest};
ghost use Rattle.aea_command.specs.Causes.{Refuses};
ghost use Rattle.aea_command.specs.Failures.{NeverClashes};
ghost use Rattle.aea_command_store.specs.Fence.{fence_line, next_fence, FenceCauses, Fences};

use aea_command::{Failure, Status, open};
use aea_disk::Disk;
use aea_io::{Page, Sink, WriteFault, finish, print, print_number};
use aea_lattice::blocks_are_inside;
use aea_records::{
    fences_may_follow, ledgers_are_archives, ledgers_are_not_bad, ledgers_have_one_reading,
    records_are_few,
};
use std::alloc::Global;

// Opens the archive, and adds a fence after its last node, which is the answer.
fn add_fence<D: Disk>(alloc: Global, disk: &mut D) -> Result<u32, Failure>
    ensures adds { AddsRecord next_fence D.reveals (D.state disk.old) (D.state disk.new) result }
    ensures refuses { Refuses D.reveals (FenceCauses ((D.state disk.old).files 0)) result }
    ensures small { IfOk result (λ n. n ≤ raised_limit) }
    ensures nodes { IfOk result (λ n. D.reveals → (shape : Shape) (records : List Record) → HasLedger shape records ((D.state disk.old).files 0) → n ≡ nodes_of records) }
    ensures words { result ≢ Err Failure.Words }
    ensures clash { NeverClashes result }
    ensures input { result ≢ Err Failure.Input }
    ensures output { result ≢ Err Failure.Output }
    ensures rest { KeepsTheRest D.reveals (result ≡ Err Failure.Disk) (D.state disk.old) (D.state disk.new) }
{
    ledgers_are_archives();
    ledgers_are_not_bad();
    ledgers_have_one_reading();
    fences_may_follow();
    records_are_few();
    blocks_are_inside();
    let mut ledger = open(alloc, disk)?;
    Ok(ledger.append_fence(disk)?)
}

// Prints `fence N`.
fn print_line<O: Sink>(out: &mut O, page: &mut Page, nodes: u32) -> Result<(), WriteFault>
    ensures { Prints (O.state out.old) page.old (O.state out.new) page.new result (fence_line nodes) }
{
    print_number(out, page, b"fence ", u64::from(nodes))?;
    print(out, page, b"\n")
}

// Writes that line, and flushes it.
fn write_line<O: Sink>(out: &mut O, nodes: u32) -> Result<(), WriteFault>
    ensures flushed { OnOk result (IsFlushed (O.state out.new)) }
    ensures prints { Prints (O.state out.old) [] (O.state out.new) [] result (fence_line nodes) }
{
    let mut page = Page::new();
    print_line(out, &mut page, nodes)?;
    finish(out, &mut page)?;
    Ok(())
}

/// Adds a fence after the last node of the archive, and then prints `fence N` with N the number of nodes. It takes no
/// memory once the archive is opened.
pub fn fence<D: Disk, O: Sink>(alloc: Global, disk: &mut D, out: &mut O) -> Result<Status, Failure>
    ensures fences { Fences D.reveals (D.state disk.old) (D.state disk.new) (O.state out.old) (O.state out.new) result }
    ensures refuses { Refuses D.reveals (FenceCauses ((D.state disk.old).files 0)) result }
    ensures words { result ≢ Err Failure.Words }
    ensures clash { NeverClashes result }
    ensures input { result ≢ Err Failure.Input }
    ensures flushed { OnOk result (IsFlushed (O.state out.new)) }

    // The disk and the output in any case.
    ensures rest { KeepsTheRest D.reveals (result ≡ Err Failure.Disk) (D.state disk.old) (D.state disk.new) }
    ensures out_kept { (O.state out.old).faults ≤ (O.state out.new).faults }
    ensures out_cause { result ≡ Err Failure.Output → Rose (O.state out.old).faults (O.state out.new).faults }
    ensures out_still { result ≢ Err Failure.Output → (O.state out.new).faults ≡ (O.state out.old).faults }
{
    let nodes = add_fence(alloc, disk)?;
    write_line(out, nodes)?;
    Ok(Status::Done)
}
