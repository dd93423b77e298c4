//! `list`: the objects of the archive.

ghost use Rattle.std.specs.Prelude.{◌≡◌, ◌≢◌, ◌≤◌, [], IfOk, OnOk};
ghost use Rattle.aea_faults.specs.Faults.{Rose};
ghost use Rattle.aea_io.specs.Pages.{Prints};
ghost use Rattle.aea_io.specs.Written.{IsFlushed};
ghost use Rattle.aea_disk.specs.Frames.{OnlyReads};
ghost use Rattle.aea_command.specs.Causes.{Refuses};
ghost use Rattle.aea_command.specs.Failures.{NeverClashes};
ghost use Rattle.aea_command_read.specs.List.{object_line, list_text, ListsObjects};
ghost use Rattle.aea_command.specs.Openings.{OpeningCauses};

use aea_catalog::{Catalog, ObjectRef};
use aea_command::{Failure, Status, open, print_named};
use aea_disk::Disk;
use aea_io::{Page, Sink, WriteFault, finish, print, print_number};
use std::alloc::Global;

// Prints `LENGTH DIGEST NAME`.
fn print_object<O: Sink>(
    out: &mut O,
    page: &mut Page,
    name: &[u8],
    object: ObjectRef,
) -> Result<(), WriteFault>
    ensures { Prints (O.state out.old) page.old (O.state out.new) page.new result (object_line (name.now, object)) }
{
    print_number(out, page, b"", object.length)?;
    print(out, page, b" ")?;
    print_named(out, page, &object.digest, name)
}

// Prints a line for each object, in the order of the names' bytes.
fn print_objects<O: Sink>(out: &mut O, page: &mut Page, catalog: &Catalog) -> Result<(), WriteFault>
    ensures { Prints (O.state out.old) page.old (O.state out.new) page.new result (list_text catalog.now.objects) }
{
    let many = catalog.len();
    let mut k: usize = 0;
    while k < many {
        let Some((name, object)) = catalog.entry(k) else {
            return Ok(());
        };
        print_object(out, page, name, object)?;
        k += 1;
    }
    Ok(())
}

// Prints the objects through a page, and flushes it.
fn put_objects<O: Sink>(out: &mut O, catalog: &Catalog) -> Result<(), WriteFault>
    ensures flushed { OnOk result (IsFlushed (O.state out.new)) }
    ensures prints { Prints (O.state out.old) [] (O.state out.new) [] result (list_text catalog.now.objects) }
{
    let mut page = Page::new();
    print_objects(out, &mut page, catalog)?;
    finish(out, &mut page)?;
    Ok(())
}

/// Opens the archive, and prints `LENGTH DIGEST NAME` for each object in the order of the names' bytes. The disk is only
/// read. It takes no memory beside the opened ledger.
pub fn list<D: Disk, O: Sink>(alloc: Global, disk: &mut D, out: &mut O) -> Result<Status, Failure>
    ensures lists { ListsObjects D.reveals (D.state disk.old) (D.state disk.new) (O.state out.old) (O.state out.new) result }
    ensures refuses { Refuses D.reveals (OpeningCauses ((D.state disk.old).files 0)) result }
    ensures words { result ≢ Err Failure.Words }
    ensures clash { NeverClashes result }
    ensures input { result ≢ Err Failure.Input }
    ensures done { IfOk result (λ status. status ≡ Status.Done) }
    ensures flushed { OnOk result (IsFlushed (O.state out.new)) }

    // The disk and the output in any case.
    ensures reads { OnlyReads D.reveals (result ≡ Err Failure.Disk) (D.state disk.old) (D.state disk.new) }
    ensures out_kept { (O.state out.old).faults ≤ (O.state out.new).faults }
    ensures out_cause { result ≡ Err Failure.Output → Rose (O.state out.old).faults (O.state out.new).faults }
    ensures out_still { result ≢ Err Failure.Output → (O.state out.new).faults ≡ (O.state out.old).faults }
{
    let ledger = open(alloc, disk)?;
    put_objects(out, ledger.catalog())?;
    Ok(Status::Done)
}
