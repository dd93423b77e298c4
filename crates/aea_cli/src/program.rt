//! The top call.

ghost use Rattle.std.specs.Prelude.{◌≡◌, ◌≢◌, ◌⊎◌, ◌≤◌, ◌↔◌, false, map, string_bytes, Result, IfOk, OnOk};
ghost use Rattle.aea_faults.specs.Faults.{Rose};
ghost use Rattle.aea_io.specs.Written.{IsFlushed};
ghost use Rattle.aea_disk.specs.State.{Passes, Goes, IsSynced};
ghost use Rattle.aea_adopt.specs.Adopting.{AreNear, IsTrueOf};
ghost use Rattle.aea_adopt.specs.Adopts.{Adopts};
ghost use Rattle.aea_adopt.specs.declared.answers.Adopted.{Adopted};
ghost use Rattle.aea_adopt.specs.declared.answers.AdoptFault.{AdoptFault};
ghost use Rattle.aea_mirror.specs.Mirrored.{shown};
ghost use Rattle.aea_command.specs.declared.refusal.Refusal.{Refusal};
ghost use Rattle.aea_command.specs.Causes.{IsFirst};
ghost use Rattle.aea_command.specs.Failures.{IsWell};
ghost use Rattle.aea_command.specs.Worlds.{world};
ghost use Rattle.aea_command_copies.specs.Copies.{EndsBegun, MakesCopies};
ghost use Rattle.aea_dispatch.specs.declared.command.Command.{Command};
ghost use Rattle.aea_dispatch.specs.Does.{ReadsInput, UsesDisk, IsRevealedFor, Runs};
ghost use Rattle.aea_dispatch.specs.Sound.{IsSound};
ghost use Rattle.aea_dispatch.specs.Words.{AreNoCommand, IsSane, Means};
ghost use Rattle.aea_cli.specs.Beneath.{adopting_answer, RunsBeneath, RunCauses, IsHonestRun};
ghost use Rattle.aea_cli.specs.Ends.{IsRefusedUnknown, IsSoundRun, Ends};

use aea_adopt::{AdoptFault, Adopted, adopt};
use aea_command::{Failure, Refusal, Status, report};
use aea_command_copies::copies::copies;
use aea_disk::Disk;
use aea_dispatch::{Command, carry_out, parse_words};
use aea_io::{Sink, Source};
use aea_mirror::Mirror;
use std::alloc::Global;

// Adopts the copies of the disk, if it has some.
fn adopt_copies<D: Disk>(disk: &mut D) -> Result<Adopted, Failure>
    ensures adopts { (adoption : Result Adopted AdoptFault) × Adopts D.reveals (D.state disk.old) (D.state disk.new) adoption × (result ≡ adopting_answer adoption) }
    ensures revealed { IfOk result (λ a. D.reveals → IsTrueOf (D.state disk.new).files a) }
    ensures near { IfOk result AreNear }
    ensures synced { OnOk result (D.reveals → IsSynced (D.state disk.new)) }
{
    match adopt(disk) {
        Ok(adopted) => Ok(adopted),
        Err(AdoptFault::CopiesBad { first, second }) => Err(Failure::Refused {
            why: Refusal::CopiesBad { first, second },
        }),
        Err(AdoptFault::CopiesDiffer { at }) => Err(Failure::Refused {
            why: Refusal::CopiesDiffer { at },
        }),
        Err(AdoptFault::DiskFault) => Err(Failure::Disk),
    }
}

// Carries out the command over a Mirror that was just made.
fn carry_out_mirrored<'a, D: Disk, S: Source, O: Sink>(
    alloc: Global,
    command: &Command,
    mirror: &mut Mirror<'a, D>,
    input: &mut S,
    out: &mut O,
) -> Result<Status, Failure>
    requires sane { IsSane command.now }
    requires fresh { mirror.old.own ≡ 0 }
    requires alive { mirror.old.dead ≡ false }
    requires synced { D.reveals → IsSynced (shown D.reveals (D.state mirror.old.disk.now) mirror.old.disk.ghost_name mirror.old.on mirror.old.end mirror.old.dead mirror.old.own) }
    ensures runs { Runs command.now
        (world D.reveals (shown D.reveals (D.state mirror.old.disk.now) mirror.old.disk.ghost_name mirror.old.on mirror.old.end mirror.old.dead mirror.old.own) (S.state input.old) (O.state out.old))
        (world D.reveals (shown D.reveals (D.state mirror.new.disk.now) mirror.new.disk.ghost_name mirror.new.on mirror.new.end mirror.new.dead mirror.new.own) (S.state input.new) (O.state out.new)) result }
    ensures sound { IsSound
        (world D.reveals (shown D.reveals (D.state mirror.old.disk.now) mirror.old.disk.ghost_name mirror.old.on mirror.old.end mirror.old.dead mirror.old.own) (S.state input.old) (O.state out.old))
        (world D.reveals (shown D.reveals (D.state mirror.new.disk.now) mirror.new.disk.ghost_name mirror.new.on mirror.new.end mirror.new.dead mirror.new.own) (S.state input.new) (O.state out.new)) result }
    ensures time { (command.now ≡ Command.Copies → ⊥) → Passes
        (shown D.reveals (D.state mirror.old.disk.now) mirror.old.disk.ghost_name mirror.old.on mirror.old.end mirror.old.dead mirror.old.own)
        (shown D.reveals (D.state mirror.new.disk.now) mirror.new.disk.ghost_name mirror.new.on mirror.new.end mirror.new.dead mirror.new.own) }
    ensures goes { Goes (D.state mirror.old.disk.now) (D.state mirror.new.disk.now) }
    ensures makes { command.now ≡ Command.Copies → MakesCopies D.reveals mirror.old.on (result ≡ Err Failure.Disk) (EndsBegun result) (D.state mirror.old.disk.now) (D.state mirror.new.disk.now) }
    ensures words { result ≢ Err Failure.Words }
    ensures input { (ReadsInput command.now → ⊥) → (input.new ≡ input.old) × (result ≢ Err Failure.Input) }
    ensures lent { mirror.new.disk.ghost_name ≡ mirror.old.disk.ghost_name }
{
    match command {
        Command::Copies => copies(alloc, mirror, out),
        _ => carry_out(alloc, command, mirror, input, out),
    }
}

// Carries out the command, which uses the disk: adopts the copies that it may have, and carries it out over a Mirror.
fn carry_out_over<D: Disk, S: Source, O: Sink>(
    alloc: Global,
    command: &Command,
    disk: &mut D,
    input: &mut S,
    out: &mut O,
) -> Result<Status, Failure>
    requires sane { IsSane command.now }
    ensures beneath { RunsBeneath D D.reveals D.state command.now disk.old disk.new (S.state input.old) (S.state input.new) (O.state out.old) (O.state out.new) result }
    ensures words { result ≢ Err Failure.Words }
    ensures input { (ReadsInput command.now → ⊥) → (input.new ≡ input.old) × (result ≢ Err Failure.Input) }
{
    let adopted = adopt_copies(disk)?;
    let mut mirror = Mirror::new(disk, adopted);
    carry_out_mirrored(alloc, command, &mut mirror, input, out)
}

// Carries out the command that the words mean.
fn execute<D: Disk, S: Source, O: Sink>(
    alloc: Global,
    words: &[String],
    disk: &mut D,
    input: &mut S,
    out: &mut O,
) -> Result<Status, Failure>
    ensures words { (result ≡ Err Failure.Words) ↔ AreNoCommand (map string_bytes words.now) }
    ensures words_leave { AreNoCommand (map string_bytes words.now) → (disk.new ≡ disk.old) × (input.new ≡ input.old) × (out.new ≡ out.old) }
    ensures runs { (command : Command) → Means (map string_bytes words.now) command → (UsesDisk command → ⊥) → Runs command
        (world D.reveals (D.state disk.old) (S.state input.old) (O.state out.old))
        (world D.reveals (D.state disk.new) (S.state input.new) (O.state out.new)) result }
    ensures beneath { (command : Command) → Means (map string_bytes words.now) command → UsesDisk command
        → RunsBeneath D D.reveals D.state command disk.old disk.new (S.state input.old) (S.state input.new) (O.state out.old) (O.state out.new) result }
    ensures sound { IsSoundRun D.reveals (D.state disk.old) (D.state disk.new) (S.state input.old) (S.state input.new) (O.state out.old) (O.state out.new) result }
    ensures input { (command : Command) → Means (map string_bytes words.now) command → (ReadsInput command → ⊥)
        → (input.new ≡ input.old) × (result ≢ Err Failure.Input) }
    ensures disk { (command : Command) → Means (map string_bytes words.now) command → (UsesDisk command → ⊥)
        → (disk.new ≡ disk.old) × (result ≢ Err Failure.Disk) }
{
    let parsed = match parse_words(alloc, words) {
        Ok(parsed) => parsed,
        Err(_) => return Err(Failure::Memory),
    };
    let Some(command) = parsed else {
        return Err(Failure::Words);
    };
    if command.uses_disk() {
        return carry_out_over(alloc, &command, disk, input, out);
    }
    carry_out(alloc, &command, disk, input, out)
}

/// Does all that the program does: takes the words of the command line, the disk and the three streams, and returns
/// the status. A command that uses the disk first adopts copies of the ledger, and then keeps them up. What is printed is on `out`, and
/// a line that says why a command did not end well on `err`. That memory ran out may be returned at any time before the first
/// byte is printed, and by `ingest` and `sites` after each of their lines: then these lines are on `out`, and nothing else; and
/// by `session` at any time, with a first part of its replies on `out`.
pub fn run<D: Disk, S: Source, O: Sink, E: Sink>(
    alloc: Global,
    words: &[String],
    disk: &mut D,
    input: &mut S,
    out: &mut O,
    err: &mut E,
) -> Status
    // Words that are no command.
    ensures words { (result ≡ Status.Words) ↔ AreNoCommand (map string_bytes words.now) }
    ensures words_leave { AreNoCommand (map string_bytes words.now) → (disk.new ≡ disk.old) × (input.new ≡ input.old) × (out.new ≡ out.old) }

    // Any words: what was done, the status, and the line of a failure on `err`.
    ensures ends { Ends D D.reveals D.state (map string_bytes words.now) disk.old disk.new
        (S.state input.old) (S.state input.new) (O.state out.old) (O.state out.new) (E.state err.old) (E.state err.new) result }
    ensures input { (command : Command) → Means (map string_bytes words.now) command → (ReadsInput command → ⊥)
        → (input.new ≡ input.old) × (result ≢ Status.Input) }
    ensures disk { (command : Command) → Means (map string_bytes words.now) command → (UsesDisk command → ⊥)
        → (disk.new ≡ disk.old) × (result ≢ Status.Disk) }

    // Where all work was done.
    ensures flushed { IsWell result → IsFlushed (O.state out.new) }
    ensures err_unused { IsWell result → err.new ≡ err.old }

    // Where no reason for refusal holds, of those that are decided by what is known, and no count rises, all work is done,
    // unless memory runs out, or the run is refused for a reason, that of the line on `err`, that is decided by what is not known, the
    // input; of a repair where the intact blocks are honest.
    ensures complete { (command : Command) → Means (map string_bytes words.now) command
        → ((why : Refusal) → IsRevealedFor command (world D.reveals (D.state disk.old) (S.state input.old) (O.state out.old)) why
        → IsFirst (RunCauses command (world D.reveals (D.state disk.old) (S.state input.old) (O.state out.old))) why → ⊥)
        → (UsesDisk command → D.reveals)
        → IsHonestRun command (world D.reveals (D.state disk.old) (S.state input.old) (O.state out.old))
        → (Rose (D.state disk.old).faults (D.state disk.new).faults → ⊥)
        → (Rose (S.state input.old).faults (S.state input.new).faults → ⊥)
        → (Rose (O.state out.old).faults (O.state out.new).faults → ⊥)
        → IsWell result ⊎ ((result ≡ Status.Memory) ⊎ IsRefusedUnknown command (world D.reveals (D.state disk.old) (S.state input.old) (O.state out.old)) (E.state err.old) (E.state err.new) result) }

    // Where something failed: what did not, has the count that it had; so has each where memory ran out. Of a disk whose contents are
    // not known `ends` says whose count rose.
    ensures disk_cause { result ≡ Status.Disk → D.reveals → Rose (D.state disk.old).faults (D.state disk.new).faults }
    ensures disk_still { result ≢ Status.Disk → (D.state disk.new).faults ≡ (D.state disk.old).faults }
    ensures input_cause { result ≡ Status.Input → Rose (S.state input.old).faults (S.state input.new).faults }
    ensures input_still { result ≢ Status.Input → (S.state input.new).faults ≡ (S.state input.old).faults }
    ensures out_cause { result ≡ Status.Output → Rose (O.state out.old).faults (O.state out.new).faults }
    ensures out_still { result ≢ Status.Output → (O.state out.new).faults ≡ (O.state out.old).faults }
    ensures disk_kept { (D.state disk.old).faults ≤ (D.state disk.new).faults }
    ensures input_kept { (S.state input.old).faults ≤ (S.state input.new).faults }
    ensures out_kept { (O.state out.old).faults ≤ (O.state out.new).faults }
    ensures err_kept { (E.state err.old).faults ≤ (E.state err.new).faults }
    ensures time { Goes (D.state disk.old) (D.state disk.new) }
{
    match execute(alloc, words, disk, input, out) {
        Ok(status) => status,
        Err(failure) => report(err, failure),
    }
}
