//! The reply to a patrol: the numbers of the damaged blocks of a range.

ghost use Rattle.std.specs.Prelude.{◌≡◌, ◌≢◌, ◌⊎◌, ◌+◌, ◌-◌, ◌*◌, ◌<◌, ◌≤◌, ◌^◌, ℕ, [], ◌∷◌, ◌++◌, true, false, cond, length, take, Some, MatchOption, IfOk, OnOk, IfErr, IsErr, Err};
ghost use Rattle.std.specs.List.{flat_map};
ghost use Rattle.std.specs.Int.{w32, to_be_bytes};
ghost use Rattle.aea_faults.specs.Faults.{Rose};
ghost use Rattle.aea_io.specs.Pages.{Prints};
ghost use Rattle.aea_io.specs.Written.{IsFlushed};
ghost use Rattle.aea_lattice.specs.declared.blocks.BlockId.{BlockId};
ghost use Rattle.aea_lattice.specs.Blocks.{blocks_count};
ghost use Rattle.aea_disk.specs.Frames.{OnlyReads};
ghost use Rattle.aea_shelf.specs.Places.{cell_size};
ghost use Rattle.aea_messages.specs.declared.message.Message.TheVariants.{Patrol};
ghost use Rattle.aea_machine.specs.Machine.{Machine, step, greatest_patrol};
ghost use Rattle.aea_machine.specs.Replies.{reply, numbers_body};
ghost use Rattle.aea_session.specs.Looks.{KeepsAllButCell, has_range, AreDamaged, IsReplyOfRange, IsReplyTo, MayBegin, Replies, RepliesPart, greatest_reply};
ghost use Rattle.aea_session.specs.Stands.{KeepsMachine, KeepsSomeMachine};

use crate::fault::TakeFault;
use crate::read::put_refusal;
use crate::work::Work;
use aea_archive::is_block_intact;
use aea_disk::{Disk, DiskFault};
use aea_io::{Page, Sink, WriteFault, finish, print};
use aea_ledger::Ledger;
use aea_machine::{Refusal, print_range_head};
use aea_messages::Message;
use std::alloc::{AllocError, Global};

// The number behind the last block of the range; None where the archive does not have it, or it is empty or too long.
fn range_end(ledger: &Ledger, first: u32, count: u32) -> Option<u32>
    ensures { MatchOption result (has_range ledger.now first count ≡ false) (λ end. (has_range ledger.now first count ≡ true) × (end ≡ first + count) × (count ≤ greatest_patrol) × (end ≤ blocks_count ledger.now.lattice)) }
{
    let blocks = ledger.lattice().blocks();
    if count < 1 || 4096 < count || blocks < count || blocks - count < first {
        return None;
    }
    Some(first + count)
}

// Puts the number behind the first ones of the list, so many, where its block is not intact; and how many there are then.
fn put_number(numbers: &mut [u32], found: u32, number: u32, intact: bool) -> u32
    requires place { found < length numbers.old }
    requires small { found + 1 < 2 ^ 32 }
    ensures most { result ≤ found + 1 }
    ensures first { take result numbers.new ≡ take found numbers.old ++ cond intact [] (number ∷ []) }
{
    if intact {
        return found;
    }
    numbers[found as usize] = number;
    found + 1
}

// Reads the cells of the blocks with these numbers, each once, and puts the numbers of those that are not intact to the front of
// the list, in order. It returns how many there are.
fn find_damaged<D: Disk>(
    disk: &mut D,
    ledger: &Ledger,
    cell: &mut [u8],
    first: u32,
    end: u32,
    numbers: &mut [u32],
) -> Result<u32, DiskFault>
    requires buffer { length cell.old ≡ cell_size ledger.now.shape }
    requires rising { first ≤ end }
    requires inside { end ≤ blocks_count ledger.now.lattice }
    requires long { length numbers.old ≡ end - first }
    ensures most { IfOk result (λ found. found ≤ end - first) }
    ensures damaged { IfOk result (λ found. AreDamaged D.reveals ledger.now (D.state disk.old).files first (end - first) (take found numbers.new)) }
    ensures reads { OnlyReads D.reveals (IsErr result) (D.state disk.old) (D.state disk.new) }
{
    let lattice = ledger.lattice();
    let mut found: u32 = 0;
    let mut k = first;
    while k < end {
        let intact = match is_block_intact(disk, ledger, lattice.block(k), cell) {
            Ok(intact) => intact,
            Err(fault) => return Err(fault),
        };
        found = put_number(numbers, found, k, intact);
        k += 1;
    }
    Ok(found)
}

// Prints numbers of blocks, in 4 bytes each.
fn print_numbers<O: Sink>(out: &mut O, page: &mut Page, numbers: &[u32]) -> Result<(), WriteFault>
    ensures { Prints (O.state out.old) page.old (O.state out.new) page.new result (flat_map (to_be_bytes w32) numbers.now) }
{
    let mut k: usize = 0;
    while k < numbers.len() {
        let bytes = numbers[k].to_be_bytes();
        print(out, page, &bytes)?;
        k += 1;
    }
    Ok(())
}

// Gives the reply to a patrol with these numbers, and flushes it.
fn send_range<O: Sink>(out: &mut O, message: &Message, numbers: &[u32]) -> Result<(), WriteFault>
    requires few { length numbers.now ≤ greatest_patrol }
    ensures flushed { OnOk result (IsFlushed (O.state out.new)) }
    ensures prints { Prints (O.state out.old) [] (O.state out.new) [] result (reply message.now 0 (numbers_body numbers.now)) }
{
    let mut page = Page::new();
    print_range_head(out, &mut page, message, numbers.len() as u32)?;
    print_numbers(out, &mut page, numbers)?;
    finish(out, &mut page)?;
    Ok(())
}

// The same, with its code.
fn put_range<O: Sink>(out: &mut O, message: &Message, numbers: &[u32]) -> Result<u8, TakeFault>
    requires few { length numbers.now ≤ greatest_patrol }
    ensures code { IfOk result (λ code. code ≡ 0) }
    ensures fault { IfErr result (λ fault. fault ≡ TakeFault.WriteFault) }
    ensures flushed { OnOk result (IsFlushed (O.state out.new)) }
    ensures prints { Prints (O.state out.old) [] (O.state out.new) [] result (reply message.now 0 (numbers_body numbers.now)) }
{
    match send_range(out, message, numbers) {
        Ok(()) => Ok(0),
        Err(_) => Err(TakeFault::WriteFault),
    }
}

// So many zeros.
fn zeros(alloc: Global, count: usize) -> Result<Vec<u32>, AllocError>
    ensures { IfOk result (λ numbers. length numbers.items ≡ count) }
{
    vec![in alloc; 0; count]
}

// Gives the reply to a patrol over the blocks with these numbers, and flushes it.
fn look_over<D: Disk, O: Sink>(
    alloc: Global,
    disk: &mut D,
    ledger: &Ledger,
    cell: &mut [u8],
    message: &Message,
    first: u32,
    end: u32,
    out: &mut O,
) -> Result<u8, TakeFault>
    requires buffer { length cell.old ≡ cell_size ledger.now.shape }
    requires rising { first ≤ end }
    requires inside { end ≤ blocks_count ledger.now.lattice }
    requires few { end ≤ first + greatest_patrol }
    ensures replies { IfOk result (λ code. Replies (IsReplyOfRange D.reveals ledger.now (D.state disk.old).files message.now first (end - first) code) (O.state out.old) (O.state out.new)) }
    ensures part { IfErr result (λ fault. (out.new ≡ out.old) ⊎ RepliesPart (λ bytes. (code : ℕ) × IsReplyOfRange D.reveals ledger.now (D.state disk.old).files message.now first (end - first) code bytes) (O.state out.old) (O.state out.new)) }
    ensures damaged { (b : BlockId) → result ≢ Err (TakeFault.Damaged b) }
    ensures memory { result ≡ Err TakeFault.NoMemory → (out.new ≡ out.old) × (disk.new ≡ disk.old) }
    ensures flushed { OnOk result (IsFlushed (O.state out.new)) }
    ensures reads { OnlyReads D.reveals (result ≡ Err TakeFault.DiskFault) (D.state disk.old) (D.state disk.new) }
    ensures kept { (O.state out.old).faults ≤ (O.state out.new).faults }
    ensures cause { result ≡ Err TakeFault.WriteFault → Rose (O.state out.old).faults (O.state out.new).faults }
    ensures still { result ≢ Err TakeFault.WriteFault → (O.state out.new).faults ≡ (O.state out.old).faults }
    ensures fits { (room : ℕ) → (O.state out.old).room ≡ Some room → 6 + 4 * (end - first) ≤ room → result ≢ Err TakeFault.WriteFault }
{
    let Ok(mut numbers) = zeros(alloc, (end - first) as usize) else {
        return Err(TakeFault::NoMemory);
    };
    let list = numbers.as_mut_slice();
    match find_damaged(disk, ledger, cell, first, end, list) {
        Ok(found) => put_range(out, message, &list[..found as usize]),
        Err(_) => Err(TakeFault::DiskFault),
    }
}

/// Gives the reply to a patrol, flushes it, and returns its code: 11 where the range is empty, has more than 4,096 blocks or
/// passes those of the archive; else 0, with how many of its blocks are not intact, and their numbers in order. It reads the
/// cell of each block of the range once, in number order, before it prints. A file that is missing or too short and a cell with
/// another digest are damage; a read that fails is a fault. It takes 4 bytes of memory for each block of the range, before the
/// first read. No fault is `Damaged`.
pub fn patrol<D: Disk, O: Sink>(
    alloc: Global,
    disk: &mut D,
    work: &mut Work,
    message: &Message,
    first: u32,
    count: u32,
    out: &mut O,
) -> Result<u8, TakeFault>
    requires keeps { KeepsSomeMachine work.old }
    requires kind { message.now ≡ Patrol first count }
    ensures same { KeepsAllButCell work.old work.new }

    // The reply, or what was appended of it.
    ensures replies { IfOk result (λ code. (m : Machine) → KeepsMachine work.old m → Replies (IsReplyTo D.reveals work.old.ledger m (D.state disk.old).files message.now code) (O.state out.old) (O.state out.new)) }
    ensures flushed { OnOk result (IsFlushed (O.state out.new)) }
    ensures part { IfErr result (λ fault. (m : Machine) → KeepsMachine work.old m → (out.new ≡ out.old) ⊎ RepliesPart (MayBegin D.reveals work.old.ledger m (D.state disk.old).files message.now) (O.state out.old) (O.state out.new)) }
    ensures damaged { (b : BlockId) → result ≢ Err (TakeFault.Damaged b) }

    // The disk is only read, not at all where there is no memory, and when the disk and the output are at fault.
    ensures memory { result ≡ Err TakeFault.NoMemory → (out.new ≡ out.old) × (disk.new ≡ disk.old) }
    ensures reads { OnlyReads D.reveals (result ≡ Err TakeFault.DiskFault) (D.state disk.old) (D.state disk.new) }
    ensures out_kept { (O.state out.old).faults ≤ (O.state out.new).faults }
    ensures out_cause { result ≡ Err TakeFault.WriteFault → Rose (O.state out.old).faults (O.state out.new).faults }
    ensures out_still { result ≢ Err TakeFault.WriteFault → (O.state out.new).faults ≡ (O.state out.old).faults }
    ensures in_room { (m : Machine) (room : ℕ) → KeepsMachine work.old m → (O.state out.old).room ≡ Some room → greatest_reply (step work.old.ledger.shape m message.now).answer ≤ room
        → (result ≢ Err TakeFault.WriteFault) × ((O.state out.new).faults ≡ (O.state out.old).faults) }
{
    let Some(end) = range_end(&work.ledger, first, count) else {
        return put_refusal(out, message, Refusal::BadRange);
    };
    look_over(
        alloc,
        disk,
        &work.ledger,
        work.cell.as_mut_slice(),
        message,
        first,
        end,
        out,
    )
}
