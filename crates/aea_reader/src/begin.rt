//! The head of a report, read line by line.

ghost use Rattle.std.specs.Prelude.{◌≡◌, ◌≢◌, ◌≤◌, ℕ, List, [], ◌∷◌, Option, IfSome, IfOk, MatchResult, Err};
ghost use Rattle.aea_faults.specs.Faults.{Rose};
ghost use Rattle.aea_lattice.specs.declared.grid.Lattice.{Lattice};
ghost use Rattle.aea_lattice.specs.Data.{IsBytes};
ghost use Rattle.aea_report.specs.Format.{head_texts};
ghost use Rattle.aea_report.specs.Grammar.{IsHeadOf};
ghost use Rattle.aea_reader.specs.Heads.{mark_line, counts_line, two_lines, three_lines};
ghost use Rattle.aea_reader.specs.Places.{IsAt, IsFault};
ghost use Rattle.aea_reader.specs.Readings.{IsHeadFault};

use crate::ahead::Ahead;
use crate::fault::ReportFault;
use crate::heads::{counts_in, is_mark, lattice_in, seal_in};
use crate::walk::head_line;
use aea_io::Source;
use aea_lattice::Lattice;
use aea_report::Head;
use std::alloc::Global;

// Reads the first line.
fn read_mark<S: Source>(alloc: Global, ahead: &mut Ahead, source: &mut S) -> Result<(), ReportFault>
    ensures read { (input : List ℕ) → IsAt input 1 [] ahead.old (S.state source.old).left
        → MatchResult result (λ _. IsAt input 2 (mark_line ∷ []) ahead.new (S.state source.new).left)
        (IsFault input 1 (S.state source.new).left) }
    ensures kept { (S.state source.old).faults ≤ (S.state source.new).faults }
    ensures cause { result ≡ Err ReportFault.ReadFault → Rose (S.state source.old).faults (S.state source.new).faults }
    ensures still { result ≢ Err ReportFault.ReadFault → (S.state source.new).faults ≡ (S.state source.old).faults }
{
    let line = head_line(alloc, ahead, source, 1)?;
    if is_mark(&line) {
        Ok(())
    } else {
        Err(ReportFault::BadLine { line: 1 })
    }
}

// Reads the second line.
fn read_shape<S: Source>(
    alloc: Global,
    ahead: &mut Ahead,
    source: &mut S,
) -> Result<Lattice, ReportFault>
    ensures read { (input : List ℕ) → IsAt input 2 (mark_line ∷ []) ahead.old (S.state source.old).left
        → MatchResult result (λ l. IsAt input 3 (two_lines l) ahead.new (S.state source.new).left)
        (IsFault input 2 (S.state source.new).left) }
    ensures kept { (S.state source.old).faults ≤ (S.state source.new).faults }
    ensures cause { result ≡ Err ReportFault.ReadFault → Rose (S.state source.old).faults (S.state source.new).faults }
    ensures still { result ≢ Err ReportFault.ReadFault → (S.state source.new).faults ≡ (S.state source.old).faults }
{
    let line = head_line(alloc, ahead, source, 2)?;
    match lattice_in(&line) {
        Some(lattice) => Ok(lattice),
        None => Err(ReportFault::BadLine { line: 2 }),
    }
}

// Reads the third line.
fn read_seal<S: Source>(
    alloc: Global,
    ahead: &mut Ahead,
    source: &mut S,
) -> Result<Option<[u8; 32]>, ReportFault>
    ensures bytes { IfOk result (λ seal. IfSome seal (IsBytes 32)) }
    ensures read { (input : List ℕ) (l : Lattice) → IsAt input 3 (two_lines l) ahead.old (S.state source.old).left
        → MatchResult result (λ seal. IsAt input 4 (three_lines l seal) ahead.new (S.state source.new).left)
        (IsFault input 3 (S.state source.new).left) }
    ensures kept { (S.state source.old).faults ≤ (S.state source.new).faults }
    ensures cause { result ≡ Err ReportFault.ReadFault → Rose (S.state source.old).faults (S.state source.new).faults }
    ensures still { result ≢ Err ReportFault.ReadFault → (S.state source.new).faults ≡ (S.state source.old).faults }
{
    let line = head_line(alloc, ahead, source, 3)?;
    match seal_in(&line) {
        Some(seal) => Ok(seal),
        None => Err(ReportFault::BadLine { line: 3 }),
    }
}

// Reads the fourth line of the head of a lattice and a seal.
fn read_counts<S: Source>(
    alloc: Global,
    ahead: &mut Ahead,
    source: &mut S,
    lattice: &Lattice,
    seal: Option<[u8; 32]>,
) -> Result<Head, ReportFault>
    requires { IfSome seal (IsBytes 32) }
    ensures head { IfOk result (IsHeadOf lattice.now) }
    ensures read { (input : List ℕ) → IsAt input 4 (three_lines lattice.now seal) ahead.old (S.state source.old).left
        → MatchResult result (λ h. IsAt input 5 (head_texts h) ahead.new (S.state source.new).left)
        (IsFault input 4 (S.state source.new).left) }
    ensures kept { (S.state source.old).faults ≤ (S.state source.new).faults }
    ensures cause { result ≡ Err ReportFault.ReadFault → Rose (S.state source.old).faults (S.state source.new).faults }
    ensures still { result ≢ Err ReportFault.ReadFault → (S.state source.new).faults ≡ (S.state source.old).faults }
{
    let line = head_line(alloc, ahead, source, 4)?;
    match counts_in(&line) {
        Some((damaged, peeled, solved, lost)) => Ok(Head {
            alpha: lattice.alpha,
            s: lattice.s,
            p: lattice.p,
            n: lattice.n,
            seal,
            damaged,
            peeled,
            solved,
            lost,
        }),
        None => Err(ReportFault::BadLine { line: 4 }),
    }
}

/// Reads the four lines of a head, and returns its lattice too.
pub fn read_head<S: Source>(
    alloc: Global,
    ahead: &mut Ahead,
    source: &mut S,
) -> Result<(Lattice, Head), ReportFault>
    ensures head { IfOk result (λ r. IsHeadOf r.0 r.1) }
    ensures read { (input : List ℕ) → IsAt input 1 [] ahead.old (S.state source.old).left
        → MatchResult result (λ r. IsAt input 5 (head_texts r.1) ahead.new (S.state source.new).left)
        (IsHeadFault input (S.state source.new).left) }
    ensures kept { (S.state source.old).faults ≤ (S.state source.new).faults }
    ensures cause { result ≡ Err ReportFault.ReadFault → Rose (S.state source.old).faults (S.state source.new).faults }
    ensures still { result ≢ Err ReportFault.ReadFault → (S.state source.new).faults ≡ (S.state source.old).faults }
{
    read_mark(alloc, ahead, source)?;
    let lattice = read_shape(alloc, ahead, source)?;
    let seal = read_seal(alloc, ahead, source)?;
    let head = read_counts(alloc, ahead, source, &lattice, seal)?;
    Ok((lattice, head))
}
