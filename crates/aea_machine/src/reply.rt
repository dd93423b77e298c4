//! Replies, as they are printed.

ghost use Rattle.std.specs.Prelude.{◌≡◌, []};
ghost use Rattle.std.specs.Int.{w32, w64, to_be_bytes};
ghost use Rattle.aea_io.specs.Pages.{Prints};
ghost use Rattle.aea_machine.specs.Machine.{Made, Closed};
ghost use Rattle.aea_machine.specs.Refusals.{refused_by};
ghost use Rattle.aea_machine.specs.Replies.{reply, body_of, code_of, damaged_code};

use crate::refusal::Refusal;
use aea_io::{Page, Sink, WriteFault, print};
use aea_messages::Message;

// Prints the reply to the message with this code and body.
fn print_reply<O: Sink>(
    out: &mut O,
    page: &mut Page,
    message: &Message,
    code: u8,
    body: &[u8],
) -> Result<(), WriteFault>
    ensures { Prints (O.state out.old) page.old (O.state out.new) page.new result (reply message.now code body.now) }
{
    let head = [message.kind(), code];
    print(out, page, &head)?;
    print(out, page, body)
}

/// Prints the reply to a message that was done and has nothing to tell: an open, a chunk or an abort.
pub fn print_made<O: Sink>(
    out: &mut O,
    page: &mut Page,
    message: &Message,
) -> Result<(), WriteFault>
    ensures { Prints (O.state out.old) page.old (O.state out.new) page.new result (reply message.now (code_of Made) (body_of Made)) }
{
    print_reply(out, page, message, 0, &[])
}

/// Prints the reply to a message that is refused.
pub fn print_refusal<O: Sink>(
    out: &mut O,
    page: &mut Page,
    message: &Message,
    refusal: Refusal,
) -> Result<(), WriteFault>
    ensures { Prints (O.state out.old) page.old (O.state out.new) page.new result (reply message.now (code_of (refused_by refusal)) (body_of (refused_by refusal))) }
{
    if let Refusal::Full { nodes } = refusal {
        let number = nodes.to_be_bytes();
        return print_reply(out, page, message, 7, &number);
    }
    print_reply(out, page, message, refusal.code(), &[])
}

/// Prints the reply to a close, with the number of the object's nodes, its length and its digest.
pub fn print_closed<O: Sink>(
    out: &mut O,
    page: &mut Page,
    message: &Message,
    nodes: u32,
    length: u64,
    digest: &[u8],
) -> Result<(), WriteFault>
    ensures { Prints (O.state out.old) page.old (O.state out.new) page.new result (reply message.now (code_of (Closed nodes length digest.now)) (body_of (Closed nodes length digest.now))) }
{
    let number = nodes.to_be_bytes();
    print_reply(out, page, message, 0, &number)?;
    let size = length.to_be_bytes();
    print(out, page, &size)?;
    print(out, page, digest)
}

/// Prints the reply to a read of an object whose block of this number is damaged.
pub fn print_damaged<O: Sink>(
    out: &mut O,
    page: &mut Page,
    message: &Message,
    block: u32,
) -> Result<(), WriteFault>
    ensures { Prints (O.state out.old) page.old (O.state out.new) page.new result (reply message.now damaged_code (to_be_bytes w32 block)) }
{
    let number = block.to_be_bytes();
    print_reply(out, page, message, 10, &number)
}

/// Prints what the reply to a read begins with, up to the bytes of the object.
pub fn print_object_head<O: Sink>(
    out: &mut O,
    page: &mut Page,
    message: &Message,
    length: u64,
) -> Result<(), WriteFault>
    ensures { Prints (O.state out.old) page.old (O.state out.new) page.new result (reply message.now 0 (to_be_bytes w64 length)) }
{
    let size = length.to_be_bytes();
    print_reply(out, page, message, 0, &size)
}

/// Prints what the reply to a patrol begins with, up to the numbers of the damaged blocks.
pub fn print_range_head<O: Sink>(
    out: &mut O,
    page: &mut Page,
    message: &Message,
    count: u32,
) -> Result<(), WriteFault>
    ensures { Prints (O.state out.old) page.old (O.state out.new) page.new result (reply message.now 0 (to_be_bytes w32 count)) }
{
    let number = count.to_be_bytes();
    print_reply(out, page, message, 0, &number)
}
