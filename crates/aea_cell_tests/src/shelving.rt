//! Cells that are written and read at their homes, in memory and in a folder.

use crate::client::write_two;
use aea_disk::{DirDisk, Disk, DiskFault, MemDisk, SureDisk};
use aea_envelope::encode;
use aea_lattice::{BlockId, Class, Shape};
use aea_shelf::{Cell, read_cell, write_cell};
use std::alloc::{AllocError, Global};
use std::path::PathBuf;
use std::test::Fail;
use std::{env, fs, process};

// An archive with cells of 64 bytes on four sites.
const SHAPE: Shape = Shape {
    alpha: 3,
    s: 2,
    p: 5,
    block: 16,
    sites: 4,
};

const FIRST: BlockId = BlockId {
    node: 1,
    class: Class::Datum,
};

const PAYLOAD: &[u8; 16] = b"sixteen letters.";

// The cell of the first block, and four bytes behind it.
fn own() -> [u8; 68] {
    let mut own = [0u8; 68];
    encode(FIRST, PAYLOAD, &mut own[..64]);
    own
}

// The cell of the block with the payload.
fn cell_of(block: BlockId, payload: &[u8; 16]) -> [u8; 64] {
    let mut cell = [0u8; 64];
    encode(block, payload, &mut cell);
    cell
}

// The cell of the first block with another byte before its digest.
fn altered() -> [u8; 64] {
    let mut cell = cell_of(FIRST, PAYLOAD);
    cell[31] = b'!';
    cell
}

// Whether the cell of the first block is so where its file has these bytes, and, where intact, is what was read.
fn reads(alloc: Global, bytes: &[u8], cell: Cell) -> Result<bool, AllocError> {
    let own = own();
    let mut want = [0u8; 32];
    want.copy_from_slice(&own[32..64]);
    let mut buf = [9u8; 64];
    let mut disk = SureDisk::new(alloc, 4, 0, 100)?;
    let is_written = bytes.len() <= own.len() && disk.write(1, 0, bytes) == Ok(());
    let read = read_cell(&mut disk, &SHAPE, FIRST, &want, &mut buf);
    Ok(is_written && read == Ok(cell) && (cell == Cell::Bad || own.starts_with(&buf)))
}

// What is in the file of the first block, and whether its cell is intact.
#[test]
fn reads_what_stands_at_a_home(rt: HostRuntime) -> Result<(), Fail> {
    let own = own();
    let altered = altered();
    let later = cell_of(FIRST, b"sixteen letters!");
    let other = cell_of(BlockId { node: 2, ..FIRST }, PAYLOAD);
    for (name, bytes, cell) in [
        ("its own", &own[..64], Cell::Intact),
        ("more behind", &own[..], Cell::Intact),
        ("a byte less", &own[..63], Cell::Bad),
        ("altered", &altered[..], Cell::Bad),
        ("of a later payload", &later[..], Cell::Bad),
        ("of another block", &other[..], Cell::Bad),
        ("none", b"", Cell::Bad),
    ] {
        assert!(rt; reads(rt.alloc(), bytes, cell)?, "{name}");
    }
    Ok(())
}

// Writes a cell of each class, and gives the first block that is then not intact.
fn round_trip<D: Disk>(disk: &mut D) -> Result<Option<BlockId>, DiskFault> {
    let mut cell = [0u8; 64];
    let mut digests = [[0u8; 32]; 4];
    let classes = [Class::Datum, Class::Horiz, Class::Right, Class::Left];
    for (class, digest) in classes.iter().zip(digests.iter_mut()) {
        let b = BlockId {
            node: 3,
            class: *class,
        };
        *digest = write_cell(disk, &SHAPE, b, PAYLOAD, &mut cell)?;
    }
    for (class, digest) in classes.iter().zip(digests.iter()) {
        let b = BlockId {
            node: 3,
            class: *class,
        };
        if read_cell(disk, &SHAPE, b, digest, &mut cell)? == Cell::Bad
            || !cell[16..].starts_with(PAYLOAD)
        {
            return Ok(Some(b));
        }
    }
    Ok(None)
}

// Whether each cell that is written in memory is intact then, by one call of the disk for each write and each read.
fn keeps_in_memory(alloc: Global) -> Result<bool, Fail> {
    let mut disk = MemDisk::new(alloc, 4, 0, 1000, 8, 256)?;
    let are_intact = round_trip(&mut disk) == Ok(None);
    Ok(are_intact && disk.calls() == 8)
}

// Whether the client writes two cells.
fn writes_two(alloc: Global) -> Result<bool, Fail> {
    let mut disk = MemDisk::new(alloc, 4, 0, 1000, 3, 128)?;
    let second = BlockId { node: 2, ..FIRST };
    let mut cell = [0u8; 64];
    let written = write_two(&mut disk, &SHAPE, FIRST, second, PAYLOAD, &mut cell);
    Ok(written == Ok(()))
}

#[test]
fn writes_each_class_in_memory(rt: HostRuntime) -> Result<(), Fail> {
    assert!(rt; keeps_in_memory(rt.alloc())?);
    assert!(rt; writes_two(rt.alloc())?);
    Ok(())
}

// Makes a folder of its own for this process, and goes there.
fn enter(rt: &HostRuntime) -> Result<PathBuf<Global>, Fail> {
    let name = format!(in rt.alloc(); "aea-shelf-{}", process::id(rt.process()))?;
    let folder = env::temp_dir(rt)?.join(rt.alloc(), name.as_str())?;
    fs::create_dir(rt, folder.as_path())?;
    env::set_current_dir(rt, folder.as_path())?;
    Ok(folder)
}

// Whether each cell that is written in the folder is intact then, and the file of the first site has three cells.
fn keeps_cells(rt: &HostRuntime) -> Result<bool, DiskFault> {
    let mut disk = DirDisk::new(rt.alloc(), rt);
    let intact = round_trip(&mut disk)? == None;
    Ok(intact && disk.len(1)? == 3 * 64)
}

#[test]
fn writes_each_class_in_a_folder(rt: HostRuntime) -> Result<(), Fail> {
    let home = env::current_dir(&rt)?;
    let folder = enter(&rt)?;
    assert!(rt; keeps_cells(&rt) == Ok(true));
    env::set_current_dir(&rt, home.as_path())?;
    fs::remove_dir_all(&rt, folder.as_path())?;
    Ok(())
}
