//! Objects in parts that are woven and committed call by call, beside blocks of no object: what a failing call and a stop leave,
//! and what is got back, scrubbed and repaired.

ghost use Rattle.std.specs.Prelude.{◌≡◌, ◌≤◌, true, OnOk, IfOk};
ghost use Rattle.aea_disk.specs.State.{IsFixed};
ghost use Rattle.aea_ledger.specs.Values.{IsThisOne};

use crate::archives::{ends_as, is_done, takes};
use aea_append::{HeadFault, PutFault, commit_parts, load_heads, weave_node};
use aea_catalog::{Extent, check_name};
use aea_cli::Status;
use aea_disk::{Disk, FailDisk, Loss, MemDisk, SureDisk};
use aea_ledger::{AppendFault, Ledger, open_ledger};
use aea_records::are_parts;
use aea_runs::run_get;
use aea_test_helpers::{shorten, spoil};
use aea_weave::Heads;
use sha2::{Digest, Sha256};
use std::alloc::Global;
use std::test::Fail;

// The data of six nodes: two of the object `a`, two of `b`, and two of an upload that was given up.
const DATA: [[u8; 16]; 6] = [
    *b"the first of a, ",
    *b"and b begins so ",
    *b"belongs to none ",
    *b"its end\0\0\0\0\0\0\0\0\0",
    *b"and ends so\0\0\0\0\0",
    *b"nor this\0\0\0\0\0\0\0\0",
];

const A: &str = "the first of a, its end";

const B: &str = "and b begins so and ends so";

// The parts of the two, behind the two nodes of the object `old`.
fn parts_of(first: u32) -> [Extent; 2] {
    [
        Extent { first, count: 1 },
        Extent {
            first: first.saturating_add(3),
            count: 1,
        },
    ]
}

// Whether an archive is made, its limit raised, and the object `old` of two nodes stored.
fn begin<D: Disk>(alloc: Global, disk: &mut D) -> bool {
    is_done(alloc, disk, "create 3 2 5 16 4")
        && is_done(alloc, disk, "upgrade")
        && takes(alloc, disk, "old", b"it has seventeen.")
}

// The heads by which the next node of the archive is woven, where it has as many classes of parities as its shape says.
fn heads_of<D: Disk>(alloc: Global, ledger: &Ledger, disk: &mut D) -> Result<Heads, HeadFault>
    requires this { D.reveals → IsThisOne ledger.now ((D.state disk.old).files 0) }
    requires fixed { D.reveals → IsFixed (D.state disk.old) 0 }
    ensures alpha { IfOk result (λ heads. heads.lattice.alpha ≡ ledger.now.shape.alpha) }
    ensures size { IfOk result (λ heads. heads.size ≡ ledger.now.shape.block) }
    ensures this { OnOk result (D.reveals → IsThisOne ledger.now ((D.state disk.new).files 0)) }
    ensures fixed { OnOk result (D.reveals → IsFixed (D.state disk.new) 0) }
{
    let _shape = ledger.shape();
    load_heads(alloc, ledger, disk)
}

// Weaves one node more. False where no archive of this test takes it.
fn weave<D: Disk>(
    disk: &mut D,
    ledger: &Ledger,
    heads: &mut Heads,
    datum: &[u8; 16],
    digests: &mut Vec<[u8; 32]>,
) -> Result<bool, PutFault>
    requires alpha { heads.old.lattice.alpha ≡ ledger.now.shape.alpha }
    requires size { heads.old.size ≡ ledger.now.shape.block }
    requires this { D.reveals → IsThisOne ledger.now ((D.state disk.old).files 0) }
    requires fixed { D.reveals → IsFixed (D.state disk.old) 0 }
    ensures alpha { OnOk result (heads.new.lattice.alpha ≡ ledger.now.shape.alpha) }
    ensures size { OnOk result (heads.new.size ≡ ledger.now.shape.block) }
    ensures this { OnOk result (D.reveals → IsThisOne ledger.now ((D.state disk.new).files 0)) }
    ensures fixed { OnOk result (D.reveals → IsFixed (D.state disk.new) 0) }
{
    let shape = ledger.shape();
    if shape.block() != 16 || heads.next_node() > 1000 {
        return Ok(false);
    }
    let mut cell = [0; 64];
    weave_node(disk, &shape, heads, datum, &mut cell, digests)?;
    Ok(true)
}

// Commits an object in these parts, with the digests of the new nodes. False where no ledger takes it.
fn commit<D: Disk>(
    ledger: &mut Ledger,
    disk: &mut D,
    name: &[u8],
    bytes: &[u8],
    digests: &[[u8; 32]],
    parts: &[Extent],
) -> Result<bool, AppendFault>
    requires live { ledger.old.live ≡ true }
    requires this { D.reveals → IsThisOne ledger.old ((D.state disk.old).files 0) }
    requires fixed { D.reveals → IsFixed (D.state disk.old) 0 }
    ensures live { OnOk result (ledger.new.live ≡ true) }
    ensures this { OnOk result (D.reveals → IsThisOne ledger.new ((D.state disk.new).files 0)) }
    ensures fixed { OnOk result (D.reveals → IsFixed (D.state disk.new) 0) }
{
    let shape = ledger.shape();
    let nodes = ledger.lattice().n();
    let size = bytes.len() as u64;
    if ledger.limit() != 1_048_576 || nodes > 1000 || parts.len() > 10 || digests.len() > 1000 {
        return Ok(false);
    }
    let each = 1 + shape.alpha() as usize;
    let count = digests.len() / each;
    if digests.len() != count * each {
        return Ok(false);
    }
    let count = count as u32;
    if !are_parts(&shape, size, nodes + count, parts)
        || !check_name(name)
        || ledger.catalog().find(name).is_some()
    {
        return Ok(false);
    }
    let digest = Sha256::digest(bytes);
    commit_parts(ledger, disk, name, size, digest, count, digests, parts)?;
    Ok(true)
}

// How far an upload came.
#[derive(Clone, Copy, Debug, PartialEq, Eq)]
enum Step {
    Nothing,
    Woven,
    First,
    Both,
}

// Opens the archive, weaves the six nodes and commits the two objects, the blocks of no object with the first. Returns how far
// it came.
fn upload<D: Disk>(alloc: Global, disk: &mut D) -> Step {
    let Ok(mut ledger) = open_ledger(alloc, disk) else {
        return Step::Nothing;
    };
    let Ok(mut heads) = heads_of(alloc, &ledger, disk) else {
        return Step::Nothing;
    };
    let mut digests = Vec::new(alloc);
    if let Ok(true) = weave(disk, &ledger, &mut heads, &DATA[0], &mut digests)
        && let Ok(true) = weave(disk, &ledger, &mut heads, &DATA[1], &mut digests)
        && let Ok(true) = weave(disk, &ledger, &mut heads, &DATA[2], &mut digests)
        && let Ok(true) = weave(disk, &ledger, &mut heads, &DATA[3], &mut digests)
        && let Ok(true) = weave(disk, &ledger, &mut heads, &DATA[4], &mut digests)
        && let Ok(true) = weave(disk, &ledger, &mut heads, &DATA[5], &mut digests)
    {
        commit_both(&mut ledger, disk, digests.as_slice())
    } else {
        Step::Nothing
    }
}

// Commits the two objects.
fn commit_both<D: Disk>(ledger: &mut Ledger, disk: &mut D, digests: &[[u8; 32]]) -> Step
    requires live { ledger.old.live ≡ true }
    requires this { D.reveals → IsThisOne ledger.old ((D.state disk.old).files 0) }
    requires fixed { D.reveals → IsFixed (D.state disk.old) 0 }
{
    match commit(ledger, disk, b"a", A.as_bytes(), digests, &parts_of(3)) {
        Ok(true) => match commit(ledger, disk, b"b", B.as_bytes(), &[], &parts_of(4)) {
            Ok(true) => Step::Both,
            _ => Step::First,
        },
        _ => Step::Woven,
    }
}

// Whether an object is there, which has this text. None where it is got otherwise, or refused otherwise than by its name.
fn is_there<D: Disk>(alloc: Global, disk: &mut D, name: &str, text: &str) -> Option<bool> {
    match run_get(alloc, disk, name, 99) {
        Ok(left) => {
            let is_got = left.is(Status::Done, text, "");
            let is_unknown = left.is(Status::Refused, "", "refused: unknown name\n");
            (is_got || is_unknown).then_some(is_got)
        }
        Err(_) => None,
    }
}

// How far an archive came, by what is got of it. Nothing where one of its blocks is damaged, or an object is not what it was.
fn step_of<D: Disk>(alloc: Global, disk: &mut D) -> Step {
    let is_whole = is_done(alloc, disk, "scrub")
        && is_there(alloc, disk, "old", "it has seventeen.") == Some(true);
    let both = (is_there(alloc, disk, "a", A), is_there(alloc, disk, "b", B));
    match both {
        (Some(true), Some(true)) if is_whole => Step::Both,
        (Some(true), Some(false)) if is_whole => Step::First,
        (Some(false), Some(false)) if is_whole => Step::Woven,
        _ => Step::Nothing,
    }
}

// Whether one object more is stored and got back, by heads that go on from the last blocks, of whatever object.
fn goes_on<D: Disk>(alloc: Global, disk: &mut D) -> bool {
    let text = "it comes behind them all";
    takes(alloc, disk, "later", text.as_bytes())
        && is_there(alloc, disk, "later", text) == Some(true)
        && is_done(alloc, disk, "scrub")
}

// How far an archive came; nothing also where one object more is not stored then.
fn step_before_another<D: Disk>(alloc: Global, disk: &mut D) -> Step {
    let stands = step_of(alloc, disk);
    if goes_on(alloc, disk) {
        stands
    } else {
        Step::Nothing
    }
}

// An archive with the two objects on a disk that does not fail.
fn uploaded(alloc: Global) -> Option<SureDisk> {
    let mut disk = SureDisk::new(alloc, 4, 2048, 2048).ok()?;
    let is_whole = begin(alloc, &mut disk) && upload(alloc, &mut disk) == Step::Both;
    is_whole.then_some(disk)
}

// Whether a changed byte of a cell of this site is found, and the site is repaired once it is lost.
fn is_repaired(alloc: Global, site: u8) -> bool {
    match uploaded(alloc) {
        Some(mut disk) => {
            step_of(alloc, &mut disk) == Step::Both
                && spoil(&mut disk, site, 150) == Ok(true)
                && ends_as(alloc, &mut disk, "scrub", Status::Damage)
                && shorten(&mut disk, site, 0) == Ok(true)
                && is_done(alloc, &mut disk, "repair")
                && step_before_another(alloc, &mut disk) == Step::Both
        }
        None => false,
    }
}

#[test]
fn objects_in_parts_beside_blocks_of_no_object(rt: HostRuntime) -> Result<(), Fail> {
    for site in 1..=4u8 {
        assert!(rt; is_repaired(rt.alloc(), site), "{site}");
    }
    Ok(())
}

// A disk that keeps its calls, with the archive and the two objects, and after how many calls the archive was begun.
fn recorded(alloc: Global) -> Option<(MemDisk, u64)> {
    let mut disk = MemDisk::new(alloc, 4, 2048, 2048, 400, 8192).ok()?;
    let is_begun = begin(alloc, &mut disk);
    let begun = disk.calls();
    let is_whole = is_begun && upload(alloc, &mut disk) == Step::Both && begun < disk.calls();
    is_whole.then_some((disk, begun))
}

// A disk of which the call after so many fails.
fn failing_disk(alloc: Global, before: u64) -> Option<FailDisk<SureDisk>> {
    let inner = SureDisk::new(alloc, 4, 2048, 2048).ok()?;
    FailDisk::new(alloc, inner, &[before.saturating_add(1)]).ok()
}

// How far an upload comes over a disk, and what is there then: nothing where no archive is begun, or one object more is not stored.
fn upload_over<D: Disk>(alloc: Global, disk: &mut D) -> (Step, Step) {
    if begin(alloc, disk) {
        let came = upload(alloc, disk);
        (came, step_before_another(alloc, disk))
    } else {
        (Step::Nothing, Step::Nothing)
    }
}

// The same over the disk of which the call after so many fails.
fn upload_failing(alloc: Global, before: u64) -> (Step, Step) {
    match failing_disk(alloc, before) {
        Some(mut disk) => upload_over(alloc, &mut disk),
        None => (Step::Nothing, Step::Nothing),
    }
}

// After how many calls the archive is begun and the upload is done; no calls where it is not done.
fn calls_of(alloc: Global) -> (u64, u64) {
    match recorded(alloc) {
        Some((disk, begun)) => (begun, disk.calls()),
        None => (0, 0),
    }
}

#[test]
fn each_call_of_an_upload_fails(rt: HostRuntime) -> Result<(), Fail> {
    let (begun, done) = calls_of(rt.alloc());
    let mut last = Step::Woven;
    for before in begun..done {
        let (came, stands) = upload_failing(rt.alloc(), before);
        // an object is there, too, where the last sync of its commit alone failed
        assert!(rt;
            stands_so(last, came, stands),
            "{before}: {came:?}, {stands:?}"
        );
        last = stands;
    }
    assert!(rt; last == Step::Both);
    Ok(())
}

// How many objects are there after a step.
fn objects_at(step: Step) -> u32 {
    match step {
        Step::Nothing | Step::Woven => 0,
        Step::First => 1,
        Step::Both => 2,
    }
}

// Whether what is there is no less than what was acknowledged, nor than what was there after fewer calls, and at most one object
// more than was acknowledged.
fn stands_so(last: Step, came: Step, stands: Step) -> bool {
    stands != Step::Nothing
        && objects_at(last) <= objects_at(stands)
        && objects_at(came) <= objects_at(stands)
        && objects_at(stands) <= objects_at(came).saturating_add(1)
}

// What is there where the disk is stopped after so many calls; nothing also where one object more is not stored.
fn stopped_after(alloc: Global, disk: &MemDisk, after: u64, loss: Loss) -> Step {
    if disk.calls() < after {
        return Step::Nothing;
    }
    match disk.image(alloc, after, loss) {
        Ok(mut stopped) => step_before_another(alloc, &mut stopped),
        Err(_) => Step::Nothing,
    }
}

// The first stop that leaves what it may not: after how many calls, and what is there; the last one where it does not leave both
// objects.
fn first_wrong_stop(alloc: Global, disk: &MemDisk, begun: u64, loss: Loss) -> Option<(u64, Step)> {
    let mut last = Step::Woven;
    for after in begun..=disk.calls() {
        let stands = stopped_after(alloc, disk, after, loss);
        if !stands_so(last, last, stands) {
            return Some((after, stands));
        }
        last = stands;
    }
    (last != Step::Both).then_some((disk.calls(), last))
}

// The same of the recorded upload.
fn wrong_stop(alloc: Global, loss: Loss) -> Option<(u64, Step)> {
    match recorded(alloc) {
        Some((disk, begun)) => first_wrong_stop(alloc, &disk, begun, loss),
        None => Some((0, Step::Nothing)),
    }
}

#[test]
fn each_stop_of_an_upload(rt: HostRuntime) -> Result<(), Fail> {
    for loss in [Loss::Kept, Loss::Dropped, Loss::Ones, Loss::Zeros] {
        let wrong = wrong_stop(rt.alloc(), loss);
        assert!(rt; wrong == None, "{loss:?} after {wrong:?}");
    }
    Ok(())
}
