//! The jobs whose text is asked for as a document, by `--json`.
use crate::running::{print, print_text, read_file};
use ee_commands::{plan_json, sizes_json, states_json, wear_json};
use ee_interface::command_line::Job;
use ee_interface::{Fault, File};
use ee_shell::part::inspect_json;
use std::rt::Files;

/// Prints the document of a job. None where the job has no document.
pub(crate) fn work_document<R: Files + Print + AllocGlobal>(
    rt: &R,
    job: &Job<'_>,
) -> Option<Result<(), Fault>> {
    let told = match *job {
        Job::States { image } => tell_states(rt, image),
        Job::Inspect { image } => tell_findings(rt, image),
        Job::Wear { image, before } => tell_wear(rt, image, before),
        Job::Plan { image, script } => tell_plan(rt, image, script),
        Job::Size {
            words,
            script,
            cycles,
            runs,
        } => tell_sizes(rt, words, script, cycles, runs),
        _ => return None,
    };
    Some(told)
}

/// Prints the state of each page of an image.
fn tell_states<R: Files + Print + AllocGlobal>(rt: &R, image: &str) -> Result<(), Fault> {
    let image = read_file(rt, File::Image, image)?;
    print_text(rt, states_json(rt.alloc(), &image))
}

/// Prints what a store finds in an image.
fn tell_findings<R: Files + Print + AllocGlobal>(rt: &R, image: &str) -> Result<(), Fault> {
    let image = read_file(rt, File::Image, image)?;
    print_text(rt, inspect_json(rt.alloc(), &image))
}

/// Prints how often the pages of an image were erased, since an image before it where one is named.
fn tell_wear<R: Files + Print + AllocGlobal>(
    rt: &R,
    image: &str,
    before: Option<&str>,
) -> Result<(), Fault> {
    let now = read_file(rt, File::Image, image)?;
    let text = match before {
        None => wear_json(rt.alloc(), &now, None),
        Some(before) => wear_since(rt, &now, before),
    };
    print_text(rt, text)
}

/// How often the pages of an image were erased since the one of a file.
fn wear_since<R: Files + AllocGlobal>(rt: &R, now: &[u8], before: &str) -> Result<Vec<u8>, Fault> {
    let then = read_file(rt, File::Before, before)?;
    wear_json(rt.alloc(), now, Some(&then))
}

/// Prints the certificate of what a script changes on an image.
fn tell_plan<R: Files + Print + AllocGlobal>(
    rt: &R,
    image: &str,
    script: &str,
) -> Result<(), Fault> {
    let image = read_file(rt, File::Image, image)?;
    let script = read_file(rt, File::Script, script)?;
    print_text(rt, plan_json(rt.alloc(), &image, &script))
}

/// Prints for each number of pages whether it bears so many runs of a script. Where none does,
/// that is told behind it.
fn tell_sizes<R: Files + Print + AllocGlobal>(
    rt: &R,
    words: u16,
    script: &str,
    cycles: u32,
    runs: u32,
) -> Result<(), Fault> {
    let script = read_file(rt, File::Script, script)?;
    let sizes = sizes_json(rt.alloc(), words, &script, cycles, runs)?;
    print(rt, &sizes.text)?;
    if sizes.some_enough {
        return Ok(());
    }
    Err(Fault::NoSizeEnough)
}
