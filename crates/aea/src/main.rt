//! The program: the words and standard streams of the process and the files of the current folder, handed to `run`.
#![tactic(auto)]

use aea_cli::{Status, run};
use aea_disk::DirDisk;
use aea_io::{StdSink, StdSource};
use std::io::{BufReader, Read};
use std::process::ExitCode;
use std::{env, io};

// The words after the program's name.
fn words(rt: &HostRuntime) -> io::Result<Vec<String>> {
    let mut args = env::args(rt)?;
    let _program = args.next();
    let mut words = Vec::new(rt.alloc());
    for word in args {
        words.push(word)?;
    }
    Ok(words)
}

// Runs the command that the words mean over the current folder, this input and the standard streams.
fn run_words<R: Read + Drop>(rt: &HostRuntime, words: &[String], reader: R) -> Status {
    let mut disk = DirDisk::new(rt.alloc(), rt);
    let mut input = StdSource::new(reader);
    let mut out = StdSink::new(rt.stdout());
    let mut err = StdSink::new(rt.stderr());
    run(rt.alloc(), words, &mut disk, &mut input, &mut out, &mut err)
}

// The exit code where the system does not hand over the words, or no memory for what is read of the input at once, 8 KiB.
const NO_START: u8 = 9;

fn main(rt: HostRuntime) -> ExitCode {
    let Ok(words) = words(&rt) else {
        return ExitCode::from(NO_START);
    };
    match BufReader::new(rt.alloc(), rt.stdin()) {
        Ok(reader) => ExitCode::from(run_words(&rt, words.as_slice(), reader).code()),
        Err(_) => ExitCode::from(NO_START),
    }
}
