//! What `bench/gauss`, `bench/sweep` and `bench/sites` run: an elimination of random rows, the fates of lost blocks, what is lost
//! of random damage and of sites that are gone, and the XOR of blocks and words.
//! The words are `eliminate ROWS COLUMNS` or `fill ROWS COLUMNS`, which leaves the elimination out; `solve ALPHA S P NODES`
//! with the lost blocks on the input, a line each; `losses ALPHA S P NODES PERMILLE SEED` or `marks` with the same numbers,
//! which makes the marks alone; `sites ALPHA S P NODES SITES GONE`, where the first so many sites are gone, or `site_marks`
//! with the same numbers; `pairs ALPHA S P NODES SITES`, where each site and each pair of sites is gone once;
//! `words COUNT ROUNDS` and `bytes COUNT ROUNDS`.
#![tactic(auto)]

ghost use Rattle.std.specs.Prelude.{◌≡◌, IfOk};

mod losing;
mod pairs;
mod rows;
mod runs;
mod shape;
mod solving;

use aea_io::StdSource;
use std::alloc::{AllocError, Global};
use std::{env, io};

// The words after the program's name.
fn words(rt: &HostRuntime) -> io::Result<Vec<String>> {
    let mut args = env::args(rt)?;
    let _program = args.next();
    let mut words = Vec::new(rt.alloc());
    for word in args {
        words.push(word)?;
    }
    Ok(words)
}

// The number of a word, or 0.
fn number(words: &[String], k: usize) -> u32 {
    match words.get(k) {
        Some(word) => word.as_str().parse::<u32>().unwrap_or(0),
        None => 0,
    }
}

// The six numbers after the first word.
fn six(words: &[String]) -> [u32; 6] {
    [
        number(words, 1),
        number(words, 2),
        number(words, 3),
        number(words, 4),
        number(words, 5),
        number(words, 6),
    ]
}

// The line of what is lost, where the words name it.
fn loss_line(alloc: Global, name: &str, numbers: [u32; 6]) -> Result<String, AllocError> {
    match name {
        "losses" => losing::random_line(alloc, numbers, true),
        "marks" => losing::random_line(alloc, numbers, false),
        "sites" => losing::sites_line(alloc, numbers, true),
        "site_marks" => losing::sites_line(alloc, numbers, false),
        "pairs" => pairs::line(alloc, numbers),
        _ => String::from_str(alloc, "no such words"),
    }
}

// The line of what the words name.
fn line(rt: &HostRuntime, words: &[String]) -> Result<String, AllocError> {
    let alloc = rt.alloc();
    let first = number(words, 1);
    let second = number(words, 2);
    let name = match words.first() {
        Some(name) => name.as_str(),
        None => "",
    };
    match name {
        "eliminate" => rows::line(alloc, first, second, true),
        "fill" => rows::line(alloc, first, second, false),
        "words" => runs::words_line(alloc, first, second),
        "bytes" => runs::bytes_line(alloc, first, second),
        "solve" => {
            let mut input = StdSource::new(rt.stdin());
            solving::line(
                alloc,
                &mut input,
                [first, second, number(words, 3), number(words, 4)],
            )
        }
        _ => loss_line(alloc, name, six(words)),
    }
}

fn main(rt: HostRuntime) -> io::Result<()> {
    let words = words(&rt)?;
    let line = line(&rt, words.as_slice())?;
    println!(rt; "{line}")
}
