//! A disk in a real folder: what is written and cut is read back, a lost site is made anew, and a file in the place of a
//! folder is a fault.

ghost use Rattle.std.specs.Prelude.{◌≤◌};

use aea_disk::{DirDisk, Disk, DiskFault};
use std::alloc::Global;
use std::path::PathBuf;
use std::test::Fail;
use std::{env, fs, io, process};

// The file has these bytes and no more.
fn has_bytes<D: Disk>(disk: &mut D, file: u8, want: &[u8]) -> bool
    requires { file ≤ 66 }
{
    let mut buf = [9u8; 16];
    match disk.read(file, 0, &mut buf) {
        Ok(count) => disk.len(file) == Ok(want.len() as u64) && buf.get(..count) == Some(want),
        Err(_) => false,
    }
}

// Whether all is written, cut and synced.
fn write_and_cut<D: Disk>(disk: &mut D) -> bool
    requires { ¬ D.reveals }
{
    disk.write(0, 0, b"ledger").is_ok()
        && disk.write(1, 4, b"cell").is_ok()
        && disk.write(64, 0, b"far cell").is_ok()
        && disk.write(65, 3, b"").is_ok()
        && disk.cut(0, 3).is_ok()
        && disk.cut(1, 100).is_ok()
        && disk.cut(2, 0).is_ok()
        && disk.sync().is_ok()
}

// The first file that differs from what `write_and_cut` leaves.
fn differs<D: Disk>(disk: &mut D, far: &[u8]) -> Option<u8> {
    let mut wrong = None;
    for (file, want) in [
        (0, &b"led"[..]),
        (1, b"\0\0\0\0cell"),
        (2, b""),
        (64, far),
        (65, b"\0\0\0"),
    ] {
        let is_right = has_bytes(disk, file, want);
        wrong = wrong.or((!is_right).then_some(file));
    }
    wrong
}

// Makes a folder of its own for this process, and goes there.
fn enter(rt: &HostRuntime) -> io::Result<PathBuf<Global>> {
    let name = format!(in rt.alloc(); "aea-disk-{}", process::id(rt.process()))?;
    let folder = env::temp_dir(rt)?.join(rt.alloc(), name.as_str())?;
    fs::create_dir(rt, folder.as_path())?;
    env::set_current_dir(rt, folder.as_path())?;
    Ok(folder)
}

// Whether a new disk reads an empty file, and another has what was written and cut on it.
fn keeps_what_was_written(rt: &HostRuntime) -> bool {
    let mut disk = DirDisk::new(rt.alloc(), rt);
    disk.len(7) == Ok(0)
        && write_and_cut(&mut disk)
        && differs(&mut DirDisk::new(rt.alloc(), rt), b"far cell") == None
}

// Whether a disk whose far site is gone reads it as empty, and makes it anew.
fn makes_a_lost_site_anew(rt: &HostRuntime) -> bool {
    let mut disk = DirDisk::new(rt.alloc(), rt);
    differs(&mut disk, b"") == None
        && disk.write(64, 0, b"new").is_ok()
        && disk.sync().is_ok()
        && differs(&mut DirDisk::new(rt.alloc(), rt), b"new") == None
}

// Goes back home, and removes the folder.
fn leave(rt: &HostRuntime, home: &PathBuf<Global>, folder: &PathBuf<Global>) -> io::Result<()> {
    env::set_current_dir(rt, home.as_path())?;
    fs::remove_dir_all(rt, folder.as_path())
}

#[test]
fn keeps_files_in_a_folder(rt: HostRuntime) -> Result<(), Fail> {
    let home = env::current_dir(&rt)?;
    let folder = enter(&rt)?;
    assert!(rt; keeps_what_was_written(&rt));
    fs::remove_dir_all(&rt, "site-64")?;
    assert!(rt; makes_a_lost_site_anew(&rt));
    fs::write(&rt, "site-05", "no folder")?;
    assert!(rt; DirDisk::new(rt.alloc(), &rt).sync() == Err(DiskFault));
    leave(&rt, &home, &folder)?;
    Ok(())
}
