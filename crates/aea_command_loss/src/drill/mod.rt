//! A drill: the plan of the repair of a damage list.

ghost use Rattle.std.specs.Prelude.{◌≡◌, ◌≢◌, ◌+◌, ◌<◌, ◌≤◌, ◌⊎◌, ℕ, List, [], length, unwrap_or, vec_capacity, IsSome, IfOk, IfErr, OnOk, Some};
ghost use Rattle.std.specs.Io.KnownBytes.{IsAtEnd};
ghost use Rattle.aea_faults.specs.Faults.{Rose};
ghost use Rattle.aea_io.specs.Taken.{TakesAtMost};
ghost use Rattle.aea_io.specs.Written.{IsFlushed};
ghost use Rattle.aea_plan.specs.Plans.{IsSound, HasRoom};
ghost use Rattle.aea_command.specs.declared.refusal.Refusal.{Refusal};
ghost use Rattle.aea_command.specs.Causes.{IsFirst, Refuses};
ghost use Rattle.aea_command.specs.Failures.{IsWell, NeverClashes};
ghost use Rattle.aea_command_loss.specs.Drill.{greatest_input, DamageCauses, Drills};
ghost use Rattle.aea_command_loss.specs.Drill.Reports.{IsPlanned};

mod damage;
mod lines;
mod plan;

use aea_command::{Failure, Refusal, Status};
use aea_io::{Sink, Source, WholeFault, read_whole};
use aea_lattice::Lattice;
use aea_report::printed_are_one;
use damage::listed_marks;
pub(crate) use damage::named_block;
use plan::{Planned, plan_without, print_outcome};
use std::alloc::Global;

// The greatest number of bytes of a damage list.
const GREATEST_INPUT: usize = 4_194_304;

// The damage list, read whole. At most one byte past the greatest list is taken.
fn read_list<S: Source>(alloc: Global, input: &mut S) -> Result<Vec<u8>, Failure>
    ensures short { IfOk result (λ list. length list.items ≤ greatest_input) }
    ensures whole { IfOk result (λ list. (bytes : List ℕ) → (S.state input.old).left ≡ Some bytes → list.items ≡ bytes) }
    ensures end { OnOk result (IsAtEnd (S.state input.new).left) }
    ensures long { result ≡ Err (Failure.Refused Refusal.InputTooLong) → (bytes : List ℕ) → (S.state input.old).left ≡ Some bytes → greatest_input < length bytes }
    ensures faults { IfErr result (λ f. (f ≡ Failure.Input) ⊎ ((f ≡ Failure.Memory) ⊎ (f ≡ Failure.Refused Refusal.InputTooLong))) }
    ensures cause { result ≡ Err Failure.Input → Rose (S.state input.old).faults (S.state input.new).faults }
    ensures still { result ≢ Err Failure.Input → (S.state input.new).faults ≡ (S.state input.old).faults }
    ensures most { TakesAtMost (S.state input.old).left (S.state input.new).left (greatest_input + 1) }
    ensures kept { (S.state input.old).faults ≤ (S.state input.new).faults }
{
    match read_whole(alloc, input, GREATEST_INPUT) {
        Err(WholeFault::ReadFault) => Err(Failure::Input),
        Err(WholeFault::NoMemory) => Err(Failure::Memory),
        Ok(list) => {
            if list.len() <= GREATEST_INPUT {
                Ok(list)
            } else {
                Err(Failure::Refused {
                    why: Refusal::InputTooLong,
                })
            }
        }
    }
}

// The plan of a list that is read.
fn plan_list(alloc: Global, lattice: &Lattice, list: &[u8]) -> Result<Planned, Failure>
    requires { length list.now ≤ greatest_input }
    ensures sound { IfOk result (λ p. IsSound p.plan) }
    ensures room { IfOk result (λ p. HasRoom p.plan (vec_capacity p.text)) }
    ensures planned { IfOk result (λ p. IsPlanned lattice.now list.now p.plan) }
    ensures refused { (why : Refusal) → result ≡ Err (Failure.Refused why) → IsFirst (DamageCauses lattice.now list.now) why }
    ensures faults { IfErr result (λ f. (f ≡ Failure.Memory) ⊎ ((why : Refusal) × (f ≡ Failure.Refused why))) }
{
    let listed = listed_marks(alloc, lattice, list)?;
    match plan_without(alloc, lattice, &listed) {
        Ok(planned) => Ok(planned),
        Err(_) => Err(Failure::Memory),
    }
}

// Reads the damage list, and plans its repair.
fn prepare<S: Source>(alloc: Global, lattice: &Lattice, input: &mut S) -> Result<Planned, Failure>
    ensures sound { IfOk result (λ p. IsSound p.plan) }
    ensures room { IfOk result (λ p. HasRoom p.plan (vec_capacity p.text)) }
    ensures planned { IfOk result (λ p. (bytes : List ℕ) → (S.state input.old).left ≡ Some bytes → IsPlanned lattice.now bytes p.plan) }
    ensures end { OnOk result (IsAtEnd (S.state input.new).left) }
    ensures refused { (why : Refusal) → result ≡ Err (Failure.Refused why) → (bytes : List ℕ) → (S.state input.old).left ≡ Some bytes → IsFirst (DamageCauses lattice.now bytes) why }
    ensures faults { IfErr result (λ f. (f ≡ Failure.Input) ⊎ ((f ≡ Failure.Memory) ⊎ ((why : Refusal) × (f ≡ Failure.Refused why)))) }
    ensures cause { result ≡ Err Failure.Input → Rose (S.state input.old).faults (S.state input.new).faults }
    ensures still { result ≢ Err Failure.Input → (S.state input.new).faults ≡ (S.state input.old).faults }
    ensures most { TakesAtMost (S.state input.old).left (S.state input.new).left (greatest_input + 1) }
    ensures kept { (S.state input.old).faults ≤ (S.state input.new).faults }
{
    let list = read_list(alloc, input)?;
    let planned = plan_list(alloc, lattice, list.as_slice())?;
    Ok(planned)
}

/// Reads the damage list, plans its repair, and prints the report.
pub fn drill<S: Source, O: Sink>(
    alloc: Global,
    lattice: &Lattice,
    input: &mut S,
    out: &mut O,
) -> Result<Status, Failure>
    ensures drills { Drills lattice.now (S.state input.old) (S.state input.new) (O.state out.old) (O.state out.new) result }
    ensures refuses { Refuses (IsSome (S.state input.old).left) (DamageCauses lattice.now (unwrap_or (S.state input.old).left [])) result }
    ensures kinds { IfOk result IsWell }
    ensures words { result ≢ Err Failure.Words }
    ensures clash { NeverClashes result }
    ensures disk { result ≢ Err Failure.Disk }
    ensures flushed { OnOk result (IsFlushed (O.state out.new)) }

    // The streams in any case.
    ensures input_kept { (S.state input.old).faults ≤ (S.state input.new).faults }
    ensures input_cause { result ≡ Err Failure.Input → Rose (S.state input.old).faults (S.state input.new).faults }
    ensures input_still { result ≢ Err Failure.Input → (S.state input.new).faults ≡ (S.state input.old).faults }
    ensures out_kept { (O.state out.old).faults ≤ (O.state out.new).faults }
    ensures out_cause { result ≡ Err Failure.Output → Rose (O.state out.old).faults (O.state out.new).faults }
    ensures out_still { result ≢ Err Failure.Output → (O.state out.new).faults ≡ (O.state out.old).faults }
{
    printed_are_one();
    let mut planned = prepare(alloc, lattice, input)?;
    match print_outcome(out, &mut planned) {
        Ok(status) => Ok(status),
        Err(_) => Err(Failure::Output),
    }
}
