ghost use Rattle.std.specs.Prelude.{◌≡◌, ◌+◌, ◌*◌, ◌/◌, ◌≤◌, length};
ghost use Rattle.aea_lattice.specs.Data.{xor_bytes};
ghost use Rattle.aea_weave.specs.Runs.{Xors};

use std::simd::prelude::*;

// Adds by XOR the 64 bytes from `at` on.
fn xor_lanes(dst: &mut [u8], src: &[u8], at: usize)
    requires inside { at + 64 ≤ length dst.old }
    requires long { length src.now ≡ length dst.old }
    ensures { Xors at (at + 64) dst.old src.now dst.new }
{
    let sum = u8x64::from_slice(&dst[at..]) ^ u8x64::from_slice(&src[at..]);
    sum.copy_to_slice(&mut dst[at..]);
}

// Adds by XOR as many runs of 64 bytes as there are.
fn xor_runs(dst: &mut [u8], src: &[u8])
    requires { length src.now ≡ length dst.old }
    ensures { Xors 0 (length dst.old / 64 * 64) dst.old src.now dst.new }
{
    for run in 0..dst.len() / 64 {
        xor_lanes(dst, src, run * 64);
    }
}

/// Adds `src` to `dst` by XOR, byte by byte.
pub fn xor_into(dst: &mut [u8], src: &[u8])
    requires { length dst.old ≡ length src.now }
    ensures { dst.new ≡ xor_bytes dst.old src.now }
{
    xor_runs(dst, src);
    for k in dst.len() / 64 * 64..dst.len() {
        dst[k] ^= src[k];
    }
}
