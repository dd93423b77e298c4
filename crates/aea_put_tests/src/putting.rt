//! Objects that are put: what is printed, and what is then in the files.

use crate::archives::{
    LINE, STORED_ABC, STORED_ALL, STORED_EMPTY, archive_of, counts, is_done, puts, stores, with_abc,
};
use aea_cli::Status;
use aea_disk::Disk;
use std::alloc::Global;
use std::test::Fail;

// What `stat` prints of an archive with one object of one node, and with an empty one besides.
const ONE_OBJECT: &str =
    "{\"alpha\":3,\"block\":64,\"nodes\":1,\"objects\":1,\"p\":5,\"s\":2,\"sites\":4}\n";

const TWO_OBJECTS: &str =
    "{\"alpha\":3,\"block\":64,\"nodes\":1,\"objects\":2,\"p\":5,\"s\":2,\"sites\":4}\n";

// The ledger of the archive of four sites, with the object `a` of the bytes `abc`, up to the digests of its blocks.
const ABC: &[u8; 74] = b"\x01AEALEDG1\x03\x02\x05\x04\0\0\0\x40\
\x01\x01\0\0\0\xb3\0\x01a\0\0\0\0\0\0\0\x03\
\xba\x78\x16\xbf\x8f\x01\xcf\xea\x41\x41\x40\xde\x5d\xae\x22\x23\xb0\x03\x61\xa3\x96\x17\x7a\x9c\xb4\x10\xff\x61\xf2\x00\x15\xad\
\0\0\0\x01\0\0\0\x01";

// The digest of `l1` in it.
const LEFT_DIGEST: &[u8; 32] = b"\xf1\xfa\x1c\x2b\xc9\x9c\x93\x15\xb6\xfb\x0b\x1a\xa6\xf4\x5b\x94\
\x7d\xff\xe9\xbc\xc0\x32\xcc\xa5\xe4\x4f\xec\x09\x2a\xc5\xc1\x07";

// The first bytes of the cell of `l1`.
const LEFT_CELL: &[u8; 20] = b"AEB1\x03\0\0\0\0\0\0\0\0\0\0\x01abc\0";

// Whether the ledger is that of the object `a` of three bytes, with an open gate and a closed one.
fn has_ledger<D: Disk>(disk: &mut D) -> bool {
    let mut bytes = [9u8; 256];
    disk.read(0, 0, &mut bytes) == Ok(203)
        && bytes.starts_with(ABC)
        && bytes[17] == 1
        && bytes[202] == 0
        && bytes[170..].starts_with(LEFT_DIGEST)
}

// Whether each site has one cell, and the fourth that of `l1`.
fn has_cells<D: Disk>(disk: &mut D) -> bool {
    let mut are_long = true;
    for file in 1..5u8 {
        are_long &= disk.len(file) == Ok(112);
    }
    let mut bytes = [9u8; 256];
    are_long
        && disk.read(4, 0, &mut bytes) == Ok(112)
        && bytes.starts_with(LEFT_CELL)
        && bytes[80..].starts_with(LEFT_DIGEST)
}

// Whether the object `a` is stored in an archive with space for it alone: the files are those of it, and `stat` counts it.
fn is_abc_stored(alloc: Global) -> bool {
    match archive_of(alloc, LINE, 4, 203, 112) {
        Some(mut disk) => {
            stores(alloc, &mut disk, "a", b"abc", STORED_ABC)
                && has_ledger(&mut disk)
                && has_cells(&mut disk)
                && counts(alloc, &mut disk, ONE_OBJECT)
        }
        None => false,
    }
}

#[test]
fn an_object_of_three_bytes(rt: HostRuntime) -> Result<(), Fail> {
    assert!(rt; is_abc_stored(rt.alloc()));
    Ok(())
}

// Whether an empty object is stored besides: `stat` counts it, and the sites have no cell of it.
fn is_empty_stored(alloc: Global) -> bool {
    match with_abc(alloc) {
        Some(mut disk) => {
            stores(alloc, &mut disk, "e", b"", STORED_EMPTY)
                && counts(alloc, &mut disk, TWO_OBJECTS)
                && has_cells(&mut disk)
        }
        None => false,
    }
}

#[test]
fn an_empty_object_has_no_nodes(rt: HostRuntime) -> Result<(), Fail> {
    assert!(rt; is_empty_stored(rt.alloc()));
    Ok(())
}

// What `put` prints of objects of whole blocks and a byte more, and `stat` then.
const SIXTEEN: &str =
    "stored 1 16 9f9f5111f7b27a781f1f1ddde5ebc2dd2b796bfc7365c9c28b548e564176929f sixteen\n";

const SEVENTEEN: &str =
    "stored 2 17 8378b19d693ee89e2ca594b6ec0abfaadc4fe1831eaca2f748f0b71ede38892e seventeen\n";

const THREE_NODES: &str =
    "{\"alpha\":1,\"block\":16,\"nodes\":3,\"objects\":2,\"p\":0,\"s\":1,\"sites\":1}\n";

// Whether objects of a whole block and of a byte more are stored, and counted.
fn are_both_stored(alloc: Global) -> bool {
    match archive_of(alloc, "create 1 1 0 16 1", 1, 1024, 1024) {
        Some(mut disk) => {
            stores(alloc, &mut disk, "sixteen", b"0123456789abcdef", SIXTEEN)
                && stores(
                    alloc,
                    &mut disk,
                    "seventeen",
                    b"0123456789abcdefg",
                    SEVENTEEN,
                )
                && counts(alloc, &mut disk, THREE_NODES)
        }
        None => false,
    }
}

#[test]
fn objects_of_whole_blocks_and_one_byte_more(rt: HostRuntime) -> Result<(), Fail> {
    assert!(rt; are_both_stored(rt.alloc()));
    Ok(())
}

const NO_NODES: &str =
    "{\"alpha\":1,\"block\":16,\"nodes\":0,\"objects\":0,\"p\":0,\"s\":1,\"sites\":1}\n";

const STORED_X: &str =
    "stored 1 1 2d711642b726b04401627ca9fbac32f5c8530fb1903cc4db02258717921a4881 b\n";

// Whether `put` of an object of so many equal bytes ends so, and leaves so many of them.
fn puts_equal<D: Disk>(
    alloc: Global,
    disk: &mut D,
    count: usize,
    want: (Status, &str, &str),
    unread: usize,
) -> bool {
    match vec![in alloc; 7u8; count] {
        Ok(bytes) => puts(alloc, disk, ("a", bytes.as_slice()), want, unread),
        Err(_) => false,
    }
}

// Whether an object of more bytes than an archive has space for is refused, and one of as many is stored.
fn is_filled<D: Disk>(alloc: Global, disk: &mut D) -> bool {
    let too_large = (Status::Refused, "", "refused: full at 0 nodes\n");
    puts_equal(alloc, disk, 1_048_580, too_large, 3)
        && counts(alloc, disk, NO_NODES)
        && puts_equal(alloc, disk, 1_048_576, (Status::Done, STORED_ALL, ""), 0)
}

// Whether an archive with all nodes takes an object of no bytes alone, and one of a byte once its limit is raised.
fn takes_more_once_raised<D: Disk>(alloc: Global, disk: &mut D) -> bool {
    let full = (Status::Refused, "", "refused: full at 65536 nodes\n");
    puts(alloc, disk, ("b", b"xyz"), full, 2)
        && stores(alloc, disk, "e", b"", STORED_EMPTY)
        && is_done(alloc, disk, "upgrade")
        && stores(alloc, disk, "b", b"x", STORED_X)
}

// Whether an archive is filled, and takes more once its limit is raised.
fn is_filled_and_raised(alloc: Global) -> bool {
    match archive_of(alloc, "create 1 1 0 16 1", 1, 4_200_000, 8_400_000) {
        Some(mut disk) => {
            is_filled(alloc, &mut disk) && takes_more_once_raised(alloc, &mut disk)
        }
        None => false,
    }
}

#[test]
fn as_many_nodes_as_there_may_be_and_a_byte_more(rt: HostRuntime) -> Result<(), Fail> {
    assert!(rt; is_filled_and_raised(rt.alloc()));
    Ok(())
}
