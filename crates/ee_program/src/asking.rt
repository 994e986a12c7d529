//! What is asked of the program by its words, and what is said where it is refused.
use crate::documents::work_document;
use crate::explain::{
    fault_told, help_asked, line_asked, path_of, push_dump_length, push_entry, push_help,
    push_line_cause, push_meaning, push_no_line, push_remedy, push_unknown_name, push_words,
    push_words_cause, why_bad_line,
};
use crate::files::FileLocks;
use crate::running::{bad_command_line, eprint_bytes, out_of_memory, print, read_file, tell, work};
use ee_interface::command_line::{Job, job};
use ee_interface::{Fault, File};
use ee_text::next_line;
use std::alloc::{AllocError, Global};
use std::rt::Files;

/// The word in front of a command that asks for what explains a refusal.
const EXPLAIN: &str = "--explain";

/// The word in front of a command that asks to write no file.
const DRY_RUN: &str = "--dry-run";

/// The word in front of a command that asks for its text as a document.
const JSON: &str = "--json";

/// What somebody reads at a terminal who gives a script there.
const WAITS: &[u8] = b"ee: reads a script, a command a line, as w 1 10; Ctrl-D ends it\n";

/// What the line of a bad command line means.
const BAD_WORDS: &[u8] = b"status 2
cause: the words are no row of the commands
to do: ask which word is wrong: ee --explain COMMAND ..
";

/// What is said of a command that has no document.
const NO_DOCUMENT: &[u8] = b"  only states, inspect, wear, size and plan have --json\n";

/// Which standard streams are a terminal.
#[derive(Clone, Copy, Debug)]
pub struct Terminals {
    pub input: bool,
    pub error: bool,
}

/// What the words in front of a command ask for, and whether somebody types the script.
#[derive(Clone, Copy)]
struct Options {
    explains: bool,
    is_dry: bool,
    is_json: bool,
    is_typed: bool,
}

/// Does what the words ask for, and gives the status that the program ends with: 0 done, 2 bad
/// command line, 3 bad file, 4 refused, 5 want of memory.
///
/// Files are read whole, in the order in which they are named, before anything is decided. An image
/// is written only after all work succeeded, and its file is closed before anything is printed.
pub fn run<R: FileLocks + Input + Print + Eprint + AllocGlobal>(rt: &R, words: &[String]) -> u8 {
    let terminals = Terminals {
        input: false,
        error: false,
    };
    run_for(rt, words, terminals)
}

/// The same. Behind the line of a refusal stands what explains it, where somebody reads it at a
/// terminal or asks for it by a word `--explain` in front of the command. Where `--dry-run` stands
/// there no file is written; where `--json` does, the command's text is a document. Who is to type
/// a script at a terminal is told that.
pub fn run_for<R: FileLocks + Input + Print + Eprint + AllocGlobal>(
    rt: &R,
    words: &[String],
    terminals: Terminals,
) -> u8 {
    let mut texts: Vec<&str> = Vec::new(rt.alloc());
    for word in words {
        if texts.push(word.as_str()).is_err() {
            return out_of_memory(rt);
        }
    }
    let (explains_first, words) = split_option(EXPLAIN, texts.as_slice());
    let (is_dry, words) = split_option(DRY_RUN, words);
    let (is_json, words) = split_option(JSON, words);
    let (explains, words) = split_option(EXPLAIN, words);
    let options = Options {
        explains: terminals.error || explains_first || explains,
        is_dry,
        is_json,
        is_typed: terminals.input && terminals.error,
    };
    do_words(rt, words, options)
}

/// The words behind an option, and whether it is given.
fn split_option<'w, 'a>(option: &str, words: &'w [&'a str]) -> (bool, &'w [&'a str]) {
    match words.split_first() {
        Some((first, behind)) if *first == option => (true, behind),
        _ => (false, words),
    }
}

/// Does what the words ask for, or prints the help of a command. Explains a refusal, if that is
/// wanted.
fn do_words<R: FileLocks + Input + Print + Eprint + AllocGlobal>(
    rt: &R,
    words: &[&str],
    options: Options,
) -> u8 {
    if options.is_json {
        return do_document(rt, words, options.explains);
    }
    if let Some(name) = help_asked(words) {
        return tell_help(rt, name);
    }
    if let Some(line) = line_asked(words) {
        return tell_meaning(rt, line, options.explains);
    }
    match job(words) {
        None => refuse_words(rt, words, options.explains),
        Some(job) => do_job(rt, &job, options),
    }
}

/// Prints the document of the job that the words ask for, or says that they ask for none.
fn do_document<R: Files + Print + Eprint + AllocGlobal>(
    rt: &R,
    words: &[&str],
    explains: bool,
) -> u8 {
    let Some(job) = job(words) else {
        return refuse_words(rt, words, explains);
    };
    match work_document(rt, &job) {
        None => refuse_document(rt, explains),
        Some(done) => end_job(rt, &job, done, explains),
    }
}

/// Says that a job has no document, and why, if that is to be explained. Gives the status.
fn refuse_document<R: Eprint>(rt: &R, explains: bool) -> u8 {
    let status = bad_command_line(rt);
    if explains {
        eprint_bytes(rt, NO_DOCUMENT);
    }
    status
}

/// Whether a job reads a script of standard input.
fn is_try(job: &Job<'_>) -> bool {
    match *job {
        Job::Try { .. } => true,
        _ => false,
    }
}

/// Does a job, and gives the status.
fn do_job<R: FileLocks + Input + Print + Eprint + AllocGlobal>(
    rt: &R,
    job: &Job<'_>,
    options: Options,
) -> u8 {
    if options.is_typed && is_try(job) {
        eprint_bytes(rt, WAITS);
    }
    let done = work(rt, options.is_dry, job);
    end_job(rt, job, done, options.explains)
}

/// Tells the fault that ended a job, and explains it, if that is wanted. Gives the status.
fn end_job<R: Files + Eprint + AllocGlobal>(
    rt: &R,
    job: &Job<'_>,
    done: Result<(), Fault>,
    explains: bool,
) -> u8 {
    match done {
        Ok(()) => 0,
        Err(fault) => {
            let status = tell(rt, &fault);
            if explains {
                explain(rt, job, &fault);
            }
            status
        }
    }
}

/// Says that words are no command line, and why, if that is to be explained. Gives the status.
fn refuse_words<R: Eprint + AllocGlobal>(rt: &R, words: &[&str], explains: bool) -> u8 {
    let mut text = Vec::new(rt.alloc());
    let status = bad_command_line(rt);
    if explains && push_words_cause(&mut text, words).is_ok() {
        eprint_bytes(rt, &text);
    }
    status
}

/// Prints the help of a command, and gives the status.
fn tell_help<R: Print + Eprint + AllocGlobal>(rt: &R, name: &str) -> u8 {
    let mut text = Vec::new(rt.alloc());
    if push_help(&mut text, name).is_err() {
        return out_of_memory(rt);
    }
    print_or_tell(rt, &text)
}

/// Prints what the fault line of these words means, and gives the status.
fn tell_meaning<R: Print + Eprint + AllocGlobal>(rt: &R, words: &[&str], explains: bool) -> u8 {
    let mut line = Vec::new(rt.alloc());
    if push_words(&mut line, words).is_err() {
        return out_of_memory(rt);
    }
    if line.as_slice() == b"ee: bad command line".as_slice() {
        return print_or_tell(rt, BAD_WORDS);
    }
    let Ok(told) = fault_told(rt.alloc(), &line) else {
        return out_of_memory(rt);
    };
    let Some(fault) = told else {
        return refuse_line(rt, &line, explains);
    };
    let mut text = Vec::new(rt.alloc());
    if push_meaning(&mut text, &fault).is_err() {
        return out_of_memory(rt);
    }
    print_or_tell(rt, &text)
}

/// Prints a text, and gives the status.
fn print_or_tell<R: Print + Eprint + AllocGlobal>(rt: &R, text: &[u8]) -> u8 {
    match print(rt, text) {
        Ok(()) => 0,
        Err(fault) => tell(rt, &fault),
    }
}

/// Says that no fault has a line, and why, if that is to be explained. Gives the status.
fn refuse_line<R: Eprint + AllocGlobal>(rt: &R, line: &[u8], explains: bool) -> u8 {
    let mut text = Vec::new(rt.alloc());
    let status = bad_command_line(rt);
    if explains && push_no_line(&mut text, line).is_ok() {
        eprint_bytes(rt, &text);
    }
    status
}

/// Says what is wrong in a job's files, and what to do. Where memory is refused nothing is said.
fn explain<R: Files + Eprint + AllocGlobal>(rt: &R, job: &Job<'_>, fault: &Fault) {
    let mut text = Vec::new(rt.alloc());
    let told = match *fault {
        Fault::BadLine {
            file: File::Script,
            line,
        } => push_script_line(rt, &mut text, job, line),
        Fault::DumpLength => push_dump_length(&mut text, job),
        Fault::UnknownName => push_unknown_name(&mut text, job, name_of(job)),
        _ => push_entry_or_remedy(rt, &mut text, job, fault),
    };
    if told.is_ok() {
        eprint_bytes(rt, &text);
    }
}

/// The name of the setting that a job is about.
fn name_of<'a>(job: &Job<'a>) -> &'a str {
    match *job {
        Job::Get { name, .. } | Job::Set { name, .. } | Job::Unset { name, .. } => name,
        _ => "",
    }
}

/// The file of settings or values of which a fault names an entry, and its number.
fn entry_of(fault: &Fault) -> Option<(File, u64)> {
    match *fault {
        Fault::BadName(entry)
        | Fault::BadField(entry)
        | Fault::BadRange(entry)
        | Fault::SameAddress(entry) => Some((File::Settings, entry)),
        Fault::BadValue(entry)
        | Fault::UnknownValue(entry)
        | Fault::ValueOutOfRange { entry, .. }
        | Fault::FullAt(entry)
        | Fault::SpentAt(entry) => Some((File::Values, entry)),
        _ => None,
    }
}

/// Writes the name of the entry that a fault is about, if it is about one, and what to do.
fn push_entry_or_remedy<R: Files + AllocGlobal>(
    rt: &R,
    out: &mut Vec<u8>,
    job: &Job<'_>,
    fault: &Fault,
) -> Result<(), AllocError> {
    let Some((file, number)) = entry_of(fault) else {
        return push_remedy(out, job, fault);
    };
    let Some(path) = path_of(job, file) else {
        return push_remedy(out, job, fault);
    };
    let Ok(text) = read_file(rt, file, path) else {
        return push_remedy(out, job, fault);
    };
    match toml::table_from_slice(rt.alloc(), &text) {
        Ok(table) => push_entry(out, job, fault, &table, number),
        Err(_) => push_remedy(out, job, fault),
    }
}

/// Writes why a line of a job's script is bad, where the script is in a file.
fn push_script_line<R: Files + AllocGlobal>(
    rt: &R,
    out: &mut Vec<u8>,
    job: &Job<'_>,
    number: u64,
) -> Result<(), AllocError> {
    let Some(path) = path_of(job, File::Script) else {
        return Ok(());
    };
    let Ok(script) = read_file(rt, File::Script, path) else {
        return Ok(());
    };
    let (line, is_ended) = line_at(&script, number);
    push_line_cause(out, path, line, why_bad_line(line, is_ended))
}

/// The line of this number, counted from 1, without its line feed, and whether it has one.
fn line_at(text: &[u8], number: u64) -> (&[u8], bool) {
    let mut rest = text;
    'lines: for _ in 1..number {
        rest = match next_line(rest) {
            Some((_, behind)) => behind,
            None => return (&[], false),
        };
    }
    match next_line(rest) {
        Some((line, _)) => (line, true),
        None => (rest, false),
    }
}
