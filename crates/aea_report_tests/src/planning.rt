//! The report of a plan, spelled by hand.

ghost use Rattle.std.specs.Prelude.{IfOk};
ghost use Rattle.aea_plan.specs.Plans.{IsSound};

use aea_io::{Page, SureSink, send};
use aea_lattice::{Lattice, parse_block};
use aea_plan::{Plan, print_report};
use aea_view::Marks;
use std::alloc::Global;
use std::test::Fail;

// A plan of a lattice where these blocks alone are not known.
fn plan_without(alloc: Global, lattice: &Lattice, damaged: &[&[u8]]) -> Result<Plan, Fail>
    ensures { IfOk result IsSound }
{
    let mut marks = Marks::new(alloc, lattice)?;
    for text in damaged {
        let Some(block) = parse_block(text) else {
            return Err(Fail::new("no block"));
        };
        if lattice.contains(block) {
            marks.set(block, true);
        }
    }
    let known = marks.complement(alloc)?;
    Ok(Plan::new(alloc, &known)?)
}

// Whether so many blocks are lost by the plan of a lattice where these blocks alone are not known, and its report is this text.
fn is_reported(
    alloc: Global,
    lattice: &Lattice,
    damaged: &[&[u8]],
    lost: u32,
    report: &[u8],
) -> Result<bool, Fail> {
    let plan = plan_without(alloc, lattice, damaged)?;
    let mut text = plan.text_room(alloc)?;
    let mut sink = SureSink::new(alloc, 1000)?;
    let mut page = Page::new();
    Ok(
        print_report(&mut sink, &mut page, &plan, &mut text, &None) == Ok(())
            && send(&mut sink, &mut page) == Ok(())
            && plan.counts.lost == lost
            && sink.bytes() == report,
    )
}

// The report of the two codewords.
fn report_of_two() -> &'static [u8] {
    b"aea-report 1\nlattice 2 2 2 11\nledger none\ncounts 19 0 3 16\n\
lost d1 by 1 3 4 6\nlost h1 by 1 3 4 6\nlost r1 by 1 3 4 6\nlost d3 by 1 3 4 6\nsolved h3\n\
lost r3 by 1 3 4 6\nlost d4 by 1 3 4 6\nlost h4 by 1 3 4 6\nsolved d5\nsolved r5\n\
lost d6 by 1 3 4 6\nlost d8 by 8 9 10 11\nlost h8 by 8 9 10 11\nlost r8 by 8 9 10 11\n\
lost d9 by 8 9 10 11\nlost h9 by 8 9 10 11\nlost d10 by 8 9 10 11\nlost r10 by 8 9 10 11\n\
lost d11 by 8 9 10 11\n"
}

#[test]
fn the_report_of_two_codewords(rt: HostRuntime) -> Result<(), Fail> {
    let Some(lattice) = Lattice::new(2, 2, 2, 11) else {
        return Err(Fail::new("no lattice"));
    };
    let damaged: [&[u8]; 19] = [
        b"d1", b"d3", b"d4", b"d5", b"d6", b"d8", b"d9", b"d10", b"d11", b"h1", b"h3", b"h4",
        b"h8", b"h9", b"r1", b"r3", b"r5", b"r8", b"r10",
    ];
    assert!(rt; is_reported(rt.alloc(), &lattice, &damaged, 16, report_of_two())?);
    Ok(())
}
