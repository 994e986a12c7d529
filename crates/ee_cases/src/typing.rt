//! The commands of a transcript, as they go when they are typed.
//!
//! An error is shown like what a command prints, and where memory is refused something is missing:
//! the transcript then differs, and no step asks whether the one before it failed.
use super::desk::Desk;
use ee_program::run;
use std::{fs, io};

/// The file of the image that `ee run --indexed` works on.
const COPY: &str = "image-by-index";

/// The command that works on it, before its script.
const RUN_BY_INDEX: &str = "ee run --indexed image-by-index ";

/// Types the commands of a transcript, and gives them with what they print now.
pub fn typed(rt: &HostRuntime, transcript: &str) -> String {
    let mut shown = String::new(rt.alloc());
    for line in transcript.lines() {
        if let Some(command) = line.strip_prefix("$ ") {
            let _ = writeln!(shown, "{line}");
            let _ = shown.push_str(answer(rt, command).as_str());
        }
    }
    shown
}

/// An error as it is shown.
fn told(rt: &HostRuntime, error: io::Error) -> String {
    let mut text = String::new(rt.alloc());
    let _ = writeln!(text, "{error}");
    text
}

/// What a command prints.
fn answer(rt: &HostRuntime, command: &str) -> String {
    if let Some(path) = command.strip_prefix("cat ") {
        return read(rt, path);
    }
    if let Some(held) = command.strip_prefix("flock ") {
        return run_held(rt, held);
    }
    if let Some((typed, path)) = command.split_once(" > ") {
        return write(rt, path, run_on(rt, &[], typed).as_str());
    }
    if let Some((typed, path)) = command.split_once(" < ") {
        return run_on_file(rt, path, typed);
    }
    let files = command.strip_prefix("ee run ").unwrap_or("");
    match files.split_once(" ") {
        Some((image, script)) => run_both(rt, command, image, script),
        None => run_on(rt, &[], command),
    }
}

/// What a file holds.
fn read(rt: &HostRuntime, path: &str) -> String {
    match fs::read_to_string(rt, path) {
        Ok(text) => text,
        Err(error) => told(rt, error),
    }
}

/// Writes what a command printed into a file, and shows nothing.
fn write(rt: &HostRuntime, path: &str, printed: &str) -> String {
    match fs::write(rt, path, printed) {
        Ok(()) => String::new(rt.alloc()),
        Err(error) => told(rt, error),
    }
}

/// Runs the program on a file.
fn run_on_file(rt: &HostRuntime, path: &str, typed: &str) -> String {
    match fs::read(rt, path) {
        Ok(bytes) => run_on(rt, bytes.as_slice(), typed),
        Err(error) => told(rt, error),
    }
}

/// Runs the program while a file is locked. The file and the command are given in one.
fn run_held(rt: &HostRuntime, held: &str) -> String {
    let (path, typed) = held.split_once(" ").unwrap_or((held, ""));
    match fs::open(rt, path) {
        Ok(file) => {
            let _ = file.try_lock();
            run_on(rt, &[], typed)
        }
        Err(error) => told(rt, error),
    }
}

/// Runs `ee run --indexed` on a copy of the image, and then `ee run`, and shows if they print or
/// leave other things. Where there is no image to copy, it is `ee run` alone.
fn run_both(rt: &HostRuntime, command: &str, image: &str, script: &str) -> String {
    if fs::copy(rt, image, COPY).is_err() {
        return run_on(rt, &[], command);
    }
    let by_index = run_by_index(rt, script);
    let mut answer = run_on(rt, &[], command);
    if by_index.as_bytes() != answer.as_bytes() || !leaves_alike(rt, image) {
        answer.clear();
        let _ = answer.push_str("by index it goes otherwise\n");
    }
    answer
}

/// Runs `ee run --indexed` on the copy of the image.
fn run_by_index(rt: &HostRuntime, script: &str) -> String {
    let mut command = String::new(rt.alloc());
    let _ = command.push_str(RUN_BY_INDEX);
    let _ = command.push_str(script);
    run_on(rt, &[], command.as_str())
}

/// Whether both runs left the same image.
fn leaves_alike(rt: &HostRuntime, image: &str) -> bool {
    let Ok(by_index) = fs::read(rt, COPY) else {
        return false;
    };
    match fs::read(rt, image) {
        Ok(left) => by_index.as_slice() == left.as_slice(),
        Err(_) => false,
    }
}

/// Runs the program on the words of a command, with this input. Its status stands in brackets
/// behind what it prints, if that isn't 0.
fn run_on(rt: &HostRuntime, input: &[u8], command: &str) -> String {
    let words = words_of(rt, command);
    let desk = Desk::new(rt, input);
    let status = match words.as_slice() {
        [_, words @ ..] => run(&desk, words),
        [] => 0,
    };
    let mut answer = desk.shown();
    if status != 0 {
        let _ = writeln!(answer, "[{status}]");
    }
    answer
}

/// The words of a command.
fn words_of(rt: &HostRuntime, command: &str) -> Vec<String> {
    let mut words = Vec::new(rt.alloc());
    for word in command.split_whitespace() {
        if let Ok(word) = String::from_str(rt.alloc(), word) {
            let _ = words.push(word);
        }
    }
    words
}
