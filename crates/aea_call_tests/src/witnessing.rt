//! The witness, with ample memory.

use aea_witness::witness;
use std::alloc::Global;
use std::test::Fail;

// Whether the witness has what was put first, and one block was restored by a single equation.
fn is_there(alloc: Global) -> bool {
    witness(alloc).is_ok_and(|left| {
        left.got.bytes() == b"what was put first".as_slice() && left.outcome.peeled == 1
    })
}

#[test]
fn the_witness_is_there(rt: HostRuntime) -> Result<(), Fail> {
    assert!(rt; is_there(rt.alloc()));
    Ok(())
}
