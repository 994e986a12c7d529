//! What a user of `ee` waits for, on texts that are made from a seed: each job prints a digest
//! of all that it gave.
//!
//!     run          a firmware's day: writes, reads and forgettings on a thousand variables
//!     brown-outs   a small part whose power is cut again and again
//!     crowded      a large part with hardly a slot to spare
//!     refused      a part that is filled, and writes for which it has no room
//!     certify      certificates made and checked, and a part's size chosen
//!     settings     settings programmed, listed and tidied by name
//!     parts        images to a part's bytes and back
mod dice;
mod digest;
mod job;
mod naming;
mod part;
mod planning;
mod playing;
mod reading_out;
mod scripts;

use ee_interface::Fault;
use job::{JOBS, Job, job_of};
use naming::settings;
use part::Part;
use planning::certify;
use playing::{brown_outs, crowded, refused, run};
use reading_out::parts;
use std::alloc::Global;
use std::io;

/// Does the job that is named, and prints its digest: so many rounds, each on inputs of its own.
/// Gives whether the words are those of a job.
pub fn show_named(rt: &HostRuntime, name: &str, seed: &str, rounds: &str) -> io::Result<bool> {
    match (job_of(name), seed.parse(), rounds.parse()) {
        (Some(job), Ok(seed), Ok(rounds)) => {
            show(rt, job, seed, rounds)?;
            Ok(true)
        }
        _ => Ok(false),
    }
}

/// Does a round of each job.
pub fn show_each(rt: &HostRuntime) -> io::Result<()> {
    for job in JOBS {
        show(rt, job, 1, 1)?;
    }
    Ok(())
}

/// Does a job, and prints its digest.
fn show(rt: &HostRuntime, job: Job, seed: u32, rounds: u32) -> io::Result<()> {
    let name = job.facts().0;
    match do_job(rt.alloc(), job, seed, rounds) {
        Ok(digest) => println!(rt; "{name} {digest:016x}"),
        Err(fault) => println!(rt; "{name} failed: {fault}"),
    }
}

/// Does a job, and gives the digest of all that it gave.
fn do_job(alloc: Global, job: Job, seed: u32, rounds: u32) -> Result<u64, Fault> {
    let mut part = Part::new(alloc, job, seed)?;
    for _ in 0..rounds {
        do_round(&mut part, job);
    }
    part.digest_of(job)
}

/// Does a round of a job.
fn do_round(part: &mut Part, job: Job) {
    match job {
        Job::Run => run(part),
        Job::BrownOuts => brown_outs(part),
        Job::Crowded => crowded(part),
        Job::Refused => refused(part),
        Job::Certify => certify(part),
        Job::Settings => settings(part),
        Job::Parts => parts(part),
    }
}
