//! Objects in parts that lie apart, which no command makes.

ghost use Rattle.std.specs.Prelude.{◌≡◌, true};
ghost use Rattle.aea_disk.specs.State.{IsFixed};
ghost use Rattle.aea_ledger.specs.Values.{IsThisOne};

use aea_catalog::{Extent, check_name};
use aea_disk::Disk;
use aea_ledger::{AppendFault, Ledger, open_ledger};
use aea_records::are_parts;
use sha2::{Digest, Sha256};
use std::alloc::Global;

// Adds an object without nodes of its own, in parts of those that are there. False where no ledger takes it.
fn add_parts<D: Disk>(
    ledger: &mut Ledger,
    disk: &mut D,
    name: &[u8],
    bytes: &[u8],
    parts: &[Extent],
) -> Result<bool, AppendFault>
    requires live { ledger.old.live ≡ true }
    requires this { D.reveals → IsThisOne ledger.old ((D.state disk.old).files 0) }
    requires fixed { D.reveals → IsFixed (D.state disk.old) 0 }
{
    let shape = ledger.shape();
    let nodes = ledger.lattice().n();
    let size = bytes.len() as u64;
    if ledger.limit() != 1_048_576 || nodes > 1_048_576 || parts.len() > 1 << 20 {
        return Ok(false);
    }
    if !are_parts(&shape, size, nodes, parts)
        || !check_name(name)
        || ledger.catalog().find(name).is_some()
    {
        return Ok(false);
    }
    let digest = Sha256::digest(bytes);
    ledger.append_parts(disk, name, size, digest, 0, &[], parts)?;
    Ok(true)
}

/// Opens an archive whose limit was raised, and adds an object without nodes of its own, which has these bytes in these parts of
/// the nodes that are there. False where no ledger is opened or takes it.
pub fn share_parts<D: Disk>(
    alloc: Global,
    disk: &mut D,
    name: &[u8],
    bytes: &[u8],
    parts: &[Extent],
) -> bool {
    let Ok(mut ledger) = open_ledger(alloc, disk) else {
        return false;
    };
    add_parts(&mut ledger, disk, name, bytes, parts) == Ok(true)
}
