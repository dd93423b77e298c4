//! The printed line of a verdict.

ghost use Rattle.std.specs.Prelude.{◌≡◌, [], OnOk, IfOk};
ghost use Rattle.aea_io.specs.Pages.{Prints};
ghost use Rattle.aea_io.specs.Written.{IsFlushed};
ghost use Rattle.aea_command_loss.specs.Verify.{why_text, verdict_text, verdict_status};

use aea_command::{Status, print_with_block};
use aea_io::{Page, Sink, WriteFault, finish, print, print_number};
use aea_verify::{Verdict, Why};

// Prints the rule that is broken, to the end of the line.
fn print_why<O: Sink>(out: &mut O, page: &mut Page, why: Why) -> Result<(), WriteFault>
    ensures { Prints (O.state out.old) page.old (O.state out.new) page.new result (why_text why) }
{
    match why {
        Why::OtherArchive => print(out, page, b" other-archive\n"),
        Why::StillBad { block } => print_with_block(out, page, b" still-bad ", block),
        Why::NotDamaged { block } => print_with_block(out, page, b" not-damaged ", block),
        Why::WordMisses { block } => print_with_block(out, page, b" word-misses ", block),
        Why::WordTouches { block } => print_with_block(out, page, b" word-touches ", block),
        Why::Missing { block } => print_with_block(out, page, b" missing ", block),
        Why::WrongCount => print(out, page, b" wrong-count\n"),
    }
}

// Prints the line of a verdict.
fn print_verdict<O: Sink>(out: &mut O, page: &mut Page, verdict: Verdict) -> Result<(), WriteFault>
    ensures { Prints (O.state out.old) page.old (O.state out.new) page.new result (verdict_text verdict) }
{
    match verdict {
        Verdict::Accepted => print(out, page, b"accepted\n"),
        Verdict::Rejected { line, why } => {
            print_number(out, page, b"rejected ", u64::from(line))?;
            print_why(out, page, why)
        }
    }
}

// The status of a verdict.
fn status_of(verdict: Verdict) -> Status
    ensures { result ≡ verdict_status verdict }
{
    match verdict {
        Verdict::Accepted => Status::Done,
        Verdict::Rejected { .. } => Status::Damage,
    }
}

/// Prints the line of a verdict through a page, and flushes it. The status is that of the verdict.
pub fn put_verdict<O: Sink>(out: &mut O, verdict: Verdict) -> Result<Status, WriteFault>
    ensures flushed { OnOk result (IsFlushed (O.state out.new)) }
    ensures prints { Prints (O.state out.old) [] (O.state out.new) [] result (verdict_text verdict) }
    ensures status { IfOk result (λ status. status ≡ verdict_status verdict) }
{
    let mut page = Page::new();
    print_verdict(out, &mut page, verdict)?;
    finish(out, &mut page)?;
    Ok(status_of(verdict))
}
