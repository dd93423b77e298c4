//! `stat`: what is in the archive.

ghost use Rattle.std.specs.Prelude.{◌≡◌, ◌≢◌, ◌≤◌, codes, string_bytes, IfOk, OnOk};
ghost use Rattle.std.specs.FinMap as map;
ghost use Rattle.serde_json.specs.Data.{number, unsigned, object, member, no_members};
ghost use Rattle.serde_json.specs.View.{view};
ghost use Rattle.aea_faults.specs.Faults.{Rose};
ghost use Rattle.aea_io.specs.Written.{IsFlushed};
ghost use Rattle.aea_disk.specs.Frames.{OnlyReads};
ghost use Rattle.aea_command.specs.Causes.{Refuses};
ghost use Rattle.aea_command.specs.Failures.{NeverClashes};
ghost use Rattle.aea_command.specs.Openings.{OpeningCauses};
ghost use Rattle.aea_command_read.specs.Stat.{stat_text, stat_line, Stats};

use aea_command::{Failure, Status, open};
use aea_disk::Disk;
use aea_io::{Sink, put_text};
use aea_lattice::Shape;
use aea_ledger::Ledger;
use aea_records::objects_are_counted;
use serde_json::{Value, json};
use std::alloc::{AllocError, Global};

// The JSON object of an archive of this shape with so many nodes and objects.
fn value_of(alloc: Global, shape: &Shape, nodes: u32, objects: usize) -> Result<Value, AllocError>
    ensures { IfOk result (λ v. view v ≡ object
        (member (codes "alpha") (number (unsigned shape.now.alpha))
        (member (codes "block") (number (unsigned shape.now.block))
        (member (codes "nodes") (number (unsigned nodes))
        (member (codes "objects") (number (unsigned objects))
        (member (codes "p") (number (unsigned shape.now.p))
        (member (codes "s") (number (unsigned shape.now.s))
        (member (codes "sites") (number (unsigned shape.now.sites)) no_members)))))))) }
{
    let alpha = shape.alpha();
    let block = shape.block();
    let p = shape.p();
    let s = shape.s();
    let sites = shape.sites();
    json!(in alloc; {
        "alpha": alpha,
        "block": block,
        "nodes": nodes,
        "objects": objects,
        "p": p,
        "s": s,
        "sites": sites
    })
}

// The text of that object.
fn text_of(alloc: Global, shape: &Shape, nodes: u32, objects: usize) -> Result<String, AllocError>
    ensures { IfOk result (λ text. string_bytes text
        ≡ stat_text shape.now.alpha shape.now.block nodes objects shape.now.p shape.now.s shape.now.sites) }
{
    let value = value_of(alloc, shape, nodes, objects)?;
    value.to_string(alloc)
}

// The line of an opened archive.
fn line_of(alloc: Global, ledger: &Ledger) -> Result<String, AllocError>
    ensures { IfOk result (λ line. string_bytes line
        ≡ stat_line ledger.now.shape ledger.now.lattice.n (map.len ledger.now.objects)) }
{
    let nodes = ledger.lattice().n();
    let objects = ledger.catalog().len();
    let mut line = text_of(alloc, &ledger.shape(), nodes, objects)?;
    line.push_str("\n")?;
    Ok(line)
}

/// Opens the archive, and prints its shape and how many nodes and objects it has, as a JSON object in one line.
pub fn stat<D: Disk, O: Sink>(alloc: Global, disk: &mut D, out: &mut O) -> Result<Status, Failure>
    ensures stats { Stats D.reveals (D.state disk.old) (D.state disk.new) (O.state out.old) (O.state out.new) result }
    ensures refuses { Refuses D.reveals (OpeningCauses ((D.state disk.old).files 0)) result }
    ensures words { result ≢ Err Failure.Words }
    ensures clash { NeverClashes result }
    ensures input { result ≢ Err Failure.Input }
    ensures done { IfOk result (λ status. status ≡ Status.Done) }
    ensures flushed { OnOk result (IsFlushed (O.state out.new)) }

    // The disk and the output in any case.
    ensures reads { OnlyReads D.reveals (result ≡ Err Failure.Disk) (D.state disk.old) (D.state disk.new) }
    ensures out_kept { (O.state out.old).faults ≤ (O.state out.new).faults }
    ensures out_cause { result ≡ Err Failure.Output → Rose (O.state out.old).faults (O.state out.new).faults }
    ensures out_still { result ≢ Err Failure.Output → (O.state out.new).faults ≡ (O.state out.old).faults }
{
    objects_are_counted();
    let ledger = open(alloc, disk)?;
    let line = line_of(alloc, &ledger)?;
    put_text(out, line.as_bytes())?;
    Ok(Status::Done)
}
