//! What `bench/adopt` and `bench/open` run, over the files of the current folder. `adopt` adopts the copies of the ledger, and `start`
//! begins them; each prints a line that says what was answered. `stat` is the command of that name as a program has it that knows no
//! copies: nothing is adopted before, and no Mirror is between. Without a word it adopts.
#![tactic(auto)]

use aea_adopt::{AdoptFault, adopt};
use aea_command_read::stat::stat;
use aea_disk::{DirDisk, Disk};
use aea_io::StdSink;
use aea_mirror::{Mirror, StartFault};
use std::alloc::{AllocError, Global};
use std::{env, io};

// What is answered where copies are adopted.
fn adopt_line<D: Disk>(alloc: Global, disk: &mut D) -> Result<String, AllocError> {
    match adopt(disk) {
        Ok(found) => {
            if found.on {
                format!(in alloc; "on {}", found.end)
            } else {
                String::from_str(alloc, "off")
            }
        }
        Err(AdoptFault::CopiesBad { first, second }) => {
            format!(in alloc; "bad at {first} and {second}")
        }
        Err(AdoptFault::CopiesDiffer { at }) => format!(in alloc; "differ at {at}"),
        Err(AdoptFault::DiskFault) => String::from_str(alloc, "disk fault"),
    }
}

// What is answered where copies are begun, once they were adopted.
fn start_line<D: Disk>(alloc: Global, disk: &mut D) -> Result<String, AllocError> {
    let Ok(adopted) = adopt(disk) else {
        return adopt_line(alloc, disk);
    };
    let line = match Mirror::new(disk, adopted).start() {
        Ok(()) => "begun",
        Err(StartFault::AlreadyOn) => "on already",
        Err(StartFault::DiskFault) => "disk fault",
    };
    String::from_str(alloc, line)
}

// The call that is to be run.
enum Call {
    Adopt,
    Start,
    Stat,
}

// The call of the first word after the program's name.
fn called(rt: &HostRuntime) -> io::Result<Call> {
    let mut args = env::args(rt)?;
    let _program = args.next();
    Ok(match args.next() {
        Some(word) => match word.as_str() {
            "start" => Call::Start,
            "stat" => Call::Stat,
            _ => Call::Adopt,
        },
        None => Call::Adopt,
    })
}

fn main(rt: HostRuntime) -> io::Result<()> {
    let call = called(&rt)?;
    let mut disk = DirDisk::new(rt.alloc(), &rt);
    let line = match call {
        Call::Adopt => adopt_line(rt.alloc(), &mut disk)?,
        Call::Start => start_line(rt.alloc(), &mut disk)?,
        Call::Stat => {
            let mut out = StdSink::new(rt.stdout());
            if stat(rt.alloc(), &mut disk, &mut out).is_ok() {
                return Ok(());
            }
            String::from_str(rt.alloc(), "not done")?
        }
    };
    println!(rt; "{line}")
}
