//! Any command is carried out.

ghost use Rattle.std.specs.Prelude.{◌≡◌, ◌≢◌};
ghost use Rattle.aea_disk.specs.State.{Passes};
ghost use Rattle.aea_dispatch.specs.declared.command.Command.{Command};
ghost use Rattle.aea_dispatch.specs.Does.{ReadsInput, UsesDisk, Runs};
ghost use Rattle.aea_dispatch.specs.Sound.{IsSound};
ghost use Rattle.aea_dispatch.specs.Words.{IsSane};
ghost use Rattle.aea_command.specs.Worlds.{world};

use crate::command::Command;
use aea_command::{Failure, Status};
use aea_command_loss::drill::drill;
use aea_command_loss::{explain_word, rehearse_line, repair_archive, sum_up_sites, verify_report};
use aea_command_read::list::list;
use aea_command_read::scrub::scrub;
use aea_command_read::stat::stat;
use aea_command_read::{fetch_object, get_object};
use aea_command_session::session::session;
use aea_command_store::create::create;
use aea_command_store::fence::fence;
use aea_command_store::ingest::ingest;
use aea_command_store::put_input;
use aea_command_store::upgrade::upgrade;
use aea_disk::Disk;
use aea_io::{Sink, Source};
use aea_records::ledgers_have_one_reading;
use std::alloc::Global;

/// Carries out the command: any but `copies`, which needs more than a disk.
pub fn carry_out<D: Disk, S: Source, O: Sink>(
    alloc: Global,
    command: &Command,
    disk: &mut D,
    input: &mut S,
    out: &mut O,
) -> Result<Status, Failure>
    requires sane { IsSane command.now }
    requires not { command.now ≢ Command.Copies }
    ensures runs { Runs command.now
        (world D.reveals (D.state disk.old) (S.state input.old) (O.state out.old))
        (world D.reveals (D.state disk.new) (S.state input.new) (O.state out.new)) result }
    ensures sound { IsSound
        (world D.reveals (D.state disk.old) (S.state input.old) (O.state out.old))
        (world D.reveals (D.state disk.new) (S.state input.new) (O.state out.new)) result }
    ensures time { Passes (D.state disk.old) (D.state disk.new) }
    ensures words { result ≢ Err Failure.Words }
    ensures input { (ReadsInput command.now → ⊥) → (input.new ≡ input.old) × (result ≢ Err Failure.Input) }
    ensures disk { (UsesDisk command.now → ⊥) → (disk.new ≡ disk.old) × (result ≢ Err Failure.Disk) }
{
    ledgers_have_one_reading();
    match command {
        Command::Drill { lattice } => drill(alloc, lattice, input, out),
        Command::Create { shape } => create(alloc, shape, disk, out),
        Command::Stat => stat(alloc, disk, out),
        Command::List => list(alloc, disk, out),
        Command::Put { name } => put_input(alloc, name.bytes(), disk, input, out),
        Command::Ingest => ingest(alloc, disk, input, out),
        Command::Get { name } => get_object(alloc, name.bytes(), disk, out),
        Command::Fetch { name } => fetch_object(alloc, name.bytes(), disk, out),
        Command::Fence => fence(alloc, disk, out),
        Command::Upgrade => upgrade(alloc, disk, out),
        Command::Scrub => scrub(alloc, disk, out),
        Command::Repair => repair_archive(alloc, disk, out),
        Command::Explain { block } => explain_word(alloc, block.bytes(), disk, out),
        Command::Verify => verify_report(alloc, disk, input, out),
        Command::Rehearse {
            number,
            nodes,
            permille,
        } => rehearse_line(alloc, *number, *nodes, *permille, out),
        Command::Sites => sum_up_sites(alloc, disk, out),
        Command::Session => session(alloc, disk, input, out),
        Command::Copies => unreachable!(),
    }
}
