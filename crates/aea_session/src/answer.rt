//! Replies to messages that ask for no block.

ghost use Rattle.std.specs.Prelude.{◌≡◌, [], IfOk, OnOk};
ghost use Rattle.aea_io.specs.Pages.{Prints};
ghost use Rattle.aea_io.specs.Written.{IsFlushed};
ghost use Rattle.aea_machine.specs.Replies.{reply, body_of, code_of};
ghost use Rattle.aea_session.specs.Steps.{answer_by, made_by, closed_by};

use aea_append::Stored;
use aea_io::{Page, Sink, WriteFault, finish};
use aea_machine::{Refusal, print_closed, print_made, print_refusal};
use aea_messages::Message;

// Prints the reply to an open, a chunk or an abort.
fn print_answer<O: Sink>(
    out: &mut O,
    page: &mut Page,
    message: &Message,
    made: Result<(), Refusal>,
) -> Result<(), WriteFault>
    ensures { Prints (O.state out.old) page.old (O.state out.new) page.new result (reply message.now (code_of (answer_by made_by made)) (body_of (answer_by made_by made))) }
{
    match made {
        Ok(()) => print_made(out, page, message),
        Err(refusal) => print_refusal(out, page, message, refusal),
    }
}

// Gives the reply to an open, a chunk or an abort, and flushes it.
fn send_made<O: Sink>(
    out: &mut O,
    message: &Message,
    made: Result<(), Refusal>,
) -> Result<(), WriteFault>
    ensures flushed { OnOk result (IsFlushed (O.state out.new)) }
    ensures prints { Prints (O.state out.old) [] (O.state out.new) [] result (reply message.now (code_of (answer_by made_by made)) (body_of (answer_by made_by made))) }
{
    let mut page = Page::new();
    print_answer(out, &mut page, message, made)?;
    finish(out, &mut page)?;
    Ok(())
}

/// Gives the reply to an open, a chunk or an abort, flushes it, and returns its code.
pub(crate) fn put_made<O: Sink>(
    out: &mut O,
    message: &Message,
    made: Result<(), Refusal>,
) -> Result<u8, WriteFault>
    ensures code { IfOk result (λ code. code ≡ code_of (answer_by made_by made)) }
    ensures flushed { OnOk result (IsFlushed (O.state out.new)) }
    ensures prints { Prints (O.state out.old) [] (O.state out.new) [] result (reply message.now (code_of (answer_by made_by made)) (body_of (answer_by made_by made))) }
{
    send_made(out, message, made)?;
    match made {
        Ok(()) => Ok(0),
        Err(refusal) => Ok(refusal.code()),
    }
}

// Prints the reply to a close.
fn print_close<O: Sink>(
    out: &mut O,
    page: &mut Page,
    message: &Message,
    closed: Result<Stored, Refusal>,
) -> Result<(), WriteFault>
    ensures { Prints (O.state out.old) page.old (O.state out.new) page.new result (reply message.now (code_of (answer_by closed_by closed)) (body_of (answer_by closed_by closed))) }
{
    match closed {
        Ok(stored) => print_closed(
            out,
            page,
            message,
            stored.nodes,
            stored.length,
            &stored.digest,
        ),
        Err(refusal) => print_refusal(out, page, message, refusal),
    }
}

// Gives the reply to a close, and flushes it.
fn send_closed<O: Sink>(
    out: &mut O,
    message: &Message,
    closed: Result<Stored, Refusal>,
) -> Result<(), WriteFault>
    ensures flushed { OnOk result (IsFlushed (O.state out.new)) }
    ensures prints { Prints (O.state out.old) [] (O.state out.new) [] result (reply message.now (code_of (answer_by closed_by closed)) (body_of (answer_by closed_by closed))) }
{
    let mut page = Page::new();
    print_close(out, &mut page, message, closed)?;
    finish(out, &mut page)?;
    Ok(())
}

/// Gives the reply to a close, flushes it, and returns its code.
pub(crate) fn put_closed<O: Sink>(
    out: &mut O,
    message: &Message,
    closed: Result<Stored, Refusal>,
) -> Result<u8, WriteFault>
    ensures code { IfOk result (λ code. code ≡ code_of (answer_by closed_by closed)) }
    ensures flushed { OnOk result (IsFlushed (O.state out.new)) }
    ensures prints { Prints (O.state out.old) [] (O.state out.new) [] result (reply message.now (code_of (answer_by closed_by closed)) (body_of (answer_by closed_by closed))) }
{
    send_closed(out, message, closed)?;
    match closed {
        Ok(_) => Ok(0),
        Err(refusal) => Ok(refusal.code()),
    }
}
