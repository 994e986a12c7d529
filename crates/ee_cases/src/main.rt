//! Types the worked examples, and tells where the program answers otherwise.
//!
//! An example is a folder of `data/`: a `transcript` and the files that it begins with. Its name is
//! its folder's. A line of the transcript that begins with `$ ` is a command, typed in the folder;
//! the lines behind it are what it prints: standard output, then the line of a fault, then the
//! status in brackets, where that isn't 0. The commands are
//!
//!     $ ee WORD ..          the program; behind its words `< FILE` gives its input, `> FILE` takes its output
//!     $ flock FILE ee ..    the program, while another opening of a file has its lock
//!     $ cat FILE            what a file holds
//!
//! with one space between two words. What `ee run` does is done by `ee run --indexed` too, on a
//! copy of the image, and both are to print and to leave the same.
//!
//! Standard input names the examples, one a line. `rt ci` lays a copy of `data/` where
//! the program runs, so that what the commands write is thrown away. A round of each
//! workload comes behind them.
//!
//!     ee_cases JOB SEED ROUNDS
//!
//! does rounds of one workload (`workloads.rt`), which `bench/run` times.
#![tactic(auto)]

mod desk;
mod typing;
mod workloads;

use std::process::ExitCode;
use std::{env, fs, io};
use typing::typed;
use workloads::{show_each, show_named};

/// Types an example, and gives whether it goes as its transcript says.
fn try_example(rt: &HostRuntime, name: &str) -> io::Result<bool> {
    // Where a folder can't be entered, the next transcript can't be read.
    let _ = env::set_current_dir(rt, name);
    let wanted = fs::read_to_string(rt, "transcript")?;
    let found = typed(rt, wanted.as_str());
    let passed = is_as_wanted(rt, name, found.as_str(), wanted.as_str());
    let _ = env::set_current_dir(rt, "..");
    passed
}

/// Whether an example went as it was to go. Where it didn't, how it went is printed.
fn is_as_wanted(rt: &HostRuntime, name: &str, found: &str, wanted: &str) -> io::Result<bool> {
    if found.as_bytes() == wanted.as_bytes() {
        return Ok(true);
    }
    println!(rt; "{name} goes otherwise:\n{found}")?;
    Ok(false)
}

/// Types each example that is named, and counts those that went as they were to go, and the others.
fn try_all(rt: &HostRuntime, names: &str) -> io::Result<(u64, u64)> {
    let (mut passed, mut failed): (u64, u64) = (0, 0);
    for name in names.lines() {
        if try_example(rt, name)? {
            passed = passed.saturating_add(1);
        } else {
            failed = failed.saturating_add(1);
        }
    }
    Ok((passed, failed))
}

/// Types each example that is named, does a round of each workload, and tells how many examples
/// went as they were to go.
fn try_each(rt: &HostRuntime, names: &str) -> io::Result<u8> {
    let (passed, failed) = try_all(rt, names)?;
    show_each(rt)?;
    println!(rt; "{passed} passed, {failed} failed")?;
    Ok(if failed == 0 { 0 } else { 1 })
}

/// Does what the words ask for, and gives the status.
fn work(rt: &HostRuntime, words: &[String]) -> io::Result<u8> {
    match words {
        [] | [_] => {
            let names = io::read_to_string(rt.alloc(), rt.reader())?;
            try_each(rt, names.as_str())
        }
        [_, name, seed, rounds] => try_workload(rt, name.as_str(), seed.as_str(), rounds.as_str()),
        _ => try_workload(rt, "", "", ""),
    }
}

/// Does the workload that the words name.
fn try_workload(rt: &HostRuntime, name: &str, seed: &str, rounds: &str) -> io::Result<u8> {
    if show_named(rt, name, seed, rounds)? {
        return Ok(0);
    }
    rt.println("ee_cases JOB SEED ROUNDS")?;
    Ok(2)
}

fn main(rt: HostRuntime) -> io::Result<ExitCode> {
    let words: Vec<String> = env::args(&rt)?.collect(rt.alloc())?;
    let status = work(&rt, words.as_slice())?;
    Ok(ExitCode::from(status))
}
