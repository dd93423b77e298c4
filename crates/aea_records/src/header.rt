//! The header of a ledger.

ghost use Rattle.std.specs.Prelude.{◌≡◌, ◌+◌, ◌≤◌, None, Some, List, ℕ, length, take, codes, slice_index, IfOk, IfErr, OnOk};
ghost use Rattle.std.specs.Str.{bytes_eq};
ghost use Rattle.std.specs.Int.{w32};
ghost use Rattle.aea_records.specs.Tables.{bytes_at};
ghost use Rattle.aea_records.specs.Format.{open_gate, header};
ghost use Rattle.aea_records.specs.Faults.{first_bad, number_at, is_alpha, is_s, is_p, header_fields, IsBadAt};

use crate::fields::number32;
use aea_lattice::Shape;

// Whether the mark of a ledger follows the gate.
fn is_marked(window: &[u8]) -> bool
    requires { 17 ≤ length window.now }
    ensures { result ≡ bytes_eq (bytes_at 8 1 window.now) (codes "AEALEDG1") }
{
    &window[1..9] == b"AEALEDG1".as_slice()
}

fn is_alpha(alpha: u8) -> bool
    ensures { result ≡ is_alpha alpha }
{
    1 <= alpha && alpha <= 3
}

fn is_s(alpha: u8, s: u8) -> bool
    ensures { result ≡ is_s alpha s }
{
    if alpha == 1 {
        s == 1
    } else {
        2 <= s && s <= 16
    }
}

fn is_p(alpha: u8, s: u8, p: u8) -> bool
    ensures { result ≡ is_p alpha s p }
{
    if alpha == 1 {
        p == 0
    } else {
        s <= p && p <= 64
    }
}

// The shape of the fields of a header.
fn fields_in(window: &[u8]) -> Result<Shape, u64>
    requires { 17 ≤ length window.now }
    ensures bad { IfErr result (λ at. first_bad (header_fields window.now) ≡ Some at) }
    ensures good { OnOk result (first_bad (header_fields window.now) ≡ None) }
    ensures alpha { IfOk result (λ shape. shape.alpha ≡ slice_index window.now 9) }
    ensures s { IfOk result (λ shape. shape.s ≡ slice_index window.now 10) }
    ensures p { IfOk result (λ shape. shape.p ≡ slice_index window.now 11) }
    ensures sites { IfOk result (λ shape. shape.sites ≡ slice_index window.now 12) }
    ensures block { IfOk result (λ shape. shape.block ≡ number_at w32 13 window.now) }
{
    let (alpha, s, p, sites) = (window[9], window[10], window[11], window[12]);
    let block = match number32(window, 13) {
        Ok(block) => block,
        Err(_) => unreachable!(),
    };
    if !is_marked(window) {
        return Err(1);
    }
    if !is_alpha(alpha) {
        return Err(9);
    }
    if !is_s(alpha, s) {
        return Err(10);
    }
    if !is_p(alpha, s, p) {
        return Err(11);
    }
    if sites < 1 || sites > 64 {
        return Err(12);
    }
    if block < 16 || block > 65_536 {
        return Err(13);
    }
    match Shape::new(alpha, s, p, block, sites) {
        Some(shape) => Ok(shape),
        None => unreachable!(),
    }
}

/// The shape in the header with which a file begins, or the place of its first bad field. The window is the first 18 bytes
/// of the file, and its gate is open.
pub fn shape_in(window: &[u8]) -> Result<Shape, u64>
    requires long { length window.now ≡ 18 }
    requires gate { slice_index window.now 0 ≡ open_gate }
    ensures header { IfOk result (λ shape. take 17 window.now ≡ header shape) }
    ensures bad { IfErr result (λ at. (file : List ℕ) → window.now ≡ take 18 file → IsBadAt file at) }
{
    match fields_in(window) {
        Ok(shape) => Ok(shape),
        Err(at) => Err(at),
    }
}
