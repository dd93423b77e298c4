//! Damage of the ledger and its copies.

use aea_disk::Disk;
use aea_test_helpers::shorten;

/// What is done to a file.
#[derive(Clone, Copy)]
pub enum Harm {
    /// It is cut to this length.
    Cut(u8, u64),
    /// The byte at this place gets this value.
    Byte(u8, u64, u8),
    /// The last bit of the byte at this place is flipped.
    Flip(u8, u64),
}

// Gives the byte at a place of a file this value, or else flips its last bit. No where the file has none there.
fn change<D: Disk>(disk: &mut D, file: u8, at: u64, value: Option<u8>) -> bool {
    let mut byte = [0u8; 1];
    file <= 66
        && at <= 1 << 40
        && disk.read(file, at, &mut byte) == Ok(1)
        && disk
            .write(file, at, &[value.unwrap_or(byte[0] ^ 1)])
            .is_ok()
}

/// Harms a file. No where it is not long enough.
pub fn inflict<D: Disk>(disk: &mut D, harm: Harm) -> bool {
    match harm {
        Harm::Cut(file, to) => shorten(disk, file, to) == Ok(true),
        Harm::Byte(file, at, value) => change(disk, file, at, Some(value)),
        Harm::Flip(file, at) => change(disk, file, at, None),
    }
}

/// Harms files. No where one of them is not long enough.
pub fn inflict_all<D: Disk>(disk: &mut D, harms: &[Harm]) -> bool {
    let mut are_inflicted = true;
    for harm in harms {
        are_inflicted = are_inflicted && inflict(disk, *harm);
    }
    are_inflicted
}

/// Removes two files.
pub fn remove_both<D: Disk>(disk: &mut D, files: [u8; 2]) -> bool {
    inflict(disk, Harm::Cut(files[0], 0)) && inflict(disk, Harm::Cut(files[1], 0))
}

/// Removes a file, if one is given.
pub fn remove_any<D: Disk>(disk: &mut D, file: Option<u8>) -> bool {
    match file {
        Some(file) => inflict(disk, Harm::Cut(file, 0)),
        None => true,
    }
}
