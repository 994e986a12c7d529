//! The commands, built with `clap`, which finds in a line of each row of the help the command and
//! the values that `job` gives. Rows and lines are texts: an array of them costs the prover more.
use crate::tests::same;
use clap::builder::ValueParser;
use clap::error::ErrorKind;
use clap::{Arg, ArgAction, ArgMatches, Command};
use ee_flash::Shape;
use ee_interface::command_line::{Form, HELP};
use ee_program::explain::line_asked;
use ee_shell::{Job, job};
use std::alloc::Global;
use std::process::Abort;

/// The commands with their words. Flags and words in brackets may be left out.
const COMMANDS: &str = "\
try P W
format P W IMAGE
import --pairs --coded P W DUMP IMAGE
export --pairs --coded IMAGE DUMP
import-hex --pairs --coded P W BASE DUMP IMAGE
export-hex --pairs --coded --fill IMAGE BASE DUMP
import-xcube P W DUMP IMAGE
run --indexed IMAGE SCRIPT
list IMAGE [SETTINGS]
get IMAGE SETTINGS NAME
set IMAGE SETTINGS NAME VALUE
unset IMAGE SETTINGS NAME
apply IMAGE SETTINGS VALUES
verify IMAGE SETTINGS VALUES
header --rust SETTINGS
stale IMAGE SETTINGS
tidy IMAGE SETTINGS
plan IMAGE SCRIPT
check IMAGE SCRIPT CERTIFICATE
size W SCRIPT CYCLES RUNS
inspect IMAGE
wear IMAGE [BEFORE]
states IMAGE
clean IMAGE
rescue IMAGE
forget-all --force IMAGE
explain LINE";

/// A line of each row of the help, and where words may be left out one with them and one without.
const LINES: &str = "\
ee try 2 5
ee format 64 512 a.image
ee import 1 6 a.bin a.image
ee export a.image a.bin
ee import-hex 1 256 0807F000 a.hex a.image
ee export-hex a.image 0807f000 a.hex
ee import-xcube 1 6 a.bin a.image
ee import --pairs 1 6 a.bin a.image
ee import-hex --pairs 1 256 0807F000 a.hex a.image
ee export --pairs a.image a.bin
ee export-hex --pairs a.image 0807f000 a.hex
ee import --coded 1 6 a.bin a.image
ee import-hex --coded 1 256 0807F000 a.hex a.image
ee export --coded a.image a.bin
ee export-hex --coded a.image 0807f000 a.hex
ee export-hex --fill a.image 0807f000 a.hex
ee run a.image a.script
ee run --indexed a.image a.script
ee list a.image
ee list a.image a.settings
ee get a.image a.settings volume
ee set a.image a.settings volume 4294967295
ee unset a.image a.settings volume
ee apply a.image a.settings a.values
ee verify a.image a.settings a.values
ee header a.settings
ee header --rust a.settings
ee stale a.image a.settings
ee tidy a.image a.settings
ee plan a.image a.script
ee check a.image a.script a.certificate
ee size 512 a.script 10000 4294967295
ee inspect a.image
ee wear a.image
ee wear a.image b.image
ee states a.image
ee clean a.image
ee rescue a.image
ee forget-all a.image
ee forget-all --force a.image
ee explain ee:spent
ee --help
ee -h
ee help
ee --version";

/// What a word may be: a number within bounds, or any text.
fn parser_of<'a>(id: &str) -> ValueParser<'a> {
    match id {
        "P" => ValueParser::unsigned(1, 64),
        "W" => ValueParser::unsigned(5, 512),
        "VALUE" => ValueParser::unsigned(0, 4_294_967_295),
        "CYCLES" | "RUNS" => ValueParser::unsigned(1, 4_294_967_295),
        _ => ValueParser::string(),
    }
}

/// A word of a command.
fn word<'a>(memory: Global, id: &'a str) -> Arg<'a> {
    match id.strip_prefix("--") {
        Some(name) => Arg::new(memory, id).long(name).action(ArgAction::SetTrue),
        None => Arg::new(memory, id)
            .required(!id.starts_with("["))
            .value_parser(parser_of(id)),
    }
}

/// The command with this name and these words.
fn command<'a>(rt: &impl Abort, memory: Global, name: &'a str, ids: &'a str) -> Command<'a> {
    let mut command = Command::new(memory, name);
    for id in ids.split_whitespace() {
        command = command.arg(word(memory, id)).expect(rt, "no room");
    }
    command
}

/// All commands.
fn table<'a>(rt: &impl Abort, memory: Global) -> Command<'a> {
    let mut table = Command::new(memory, "ee").version("0");
    for row in COMMANDS.lines() {
        let (name, ids) = row.split_once(" ").expect(rt, "no words");
        table = table
            .subcommand(command(rt, memory, name, ids))
            .expect(rt, "no room");
    }
    table
}

/// Whether `clap` found this text, or that the word was left out.
fn has(found: &ArgMatches<'_>, id: &str, text: Option<&str>) -> bool {
    found.get_str(id) == text
}

/// Whether it found this number.
fn counts(found: &ArgMatches<'_>, id: &str, number: u64) -> bool {
    found.get_one::<u64>(id) == Some(number)
}

/// Whether it found these numbers of pages and words.
fn fits(found: &ArgMatches<'_>, shape: Shape) -> bool {
    counts(found, "P", shape.pages() as u64) & counts(found, "W", shape.words() as u64)
}

/// Whether it found this base. It reads no hexadecimal.
fn starts(found: &ArgMatches<'_>, base: u32) -> bool {
    match found.get_str("BASE") {
        Some(text) => u32::from_str_radix(text, 16).ok() == Some(base),
        None => false,
    }
}

/// Whether it found this image, these settings, and this text for the word behind them.
fn names(found: &ArgMatches<'_>, image: &str, settings: &str, id: &str, text: &str) -> bool {
    has(found, "IMAGE", Some(image))
        & has(found, "SETTINGS", Some(settings))
        & has(found, id, Some(text))
}

/// The command that a job is of, and whether `clap` found each value that the job has.
fn told(job: &Job<'_>, found: &ArgMatches<'_>) -> (&'static str, bool) {
    match *job {
        Job::Try { shape } => ("try", fits(found, shape)),
        Job::Format { shape, image } => (
            "format",
            fits(found, shape) & has(found, "IMAGE", Some(image)),
        ),
        Job::Run {
            indexed,
            image,
            script,
        } => (
            "run",
            (found.get_flag("--indexed") == indexed)
                & has(found, "IMAGE", Some(image))
                & has(found, "SCRIPT", Some(script)),
        ),
        Job::Plan { image, script } => (
            "plan",
            has(found, "IMAGE", Some(image)) & has(found, "SCRIPT", Some(script)),
        ),
        Job::Check {
            image,
            script,
            certificate,
        } => (
            "check",
            has(found, "IMAGE", Some(image))
                & has(found, "SCRIPT", Some(script))
                & has(found, "CERTIFICATE", Some(certificate)),
        ),
        Job::Size {
            words,
            script,
            cycles,
            runs,
        } => (
            "size",
            counts(found, "W", u64::from(words))
                & has(found, "SCRIPT", Some(script))
                & counts(found, "CYCLES", u64::from(cycles))
                & counts(found, "RUNS", u64::from(runs)),
        ),
        _ => told_of_settings(job, found),
    }
}

// The same of a job on settings of an image.
fn told_of_settings(job: &Job<'_>, found: &ArgMatches<'_>) -> (&'static str, bool) {
    match *job {
        Job::Set {
            image,
            settings,
            name,
            value,
        } => (
            "set",
            names(found, image, settings, "NAME", name) & counts(found, "VALUE", u64::from(value)),
        ),
        Job::Get {
            image,
            settings,
            name,
        } => ("get", names(found, image, settings, "NAME", name)),
        Job::Unset {
            image,
            settings,
            name,
        } => ("unset", names(found, image, settings, "NAME", name)),
        Job::Apply {
            image,
            settings,
            values,
        } => ("apply", names(found, image, settings, "VALUES", values)),
        Job::Verify {
            image,
            settings,
            values,
        } => ("verify", names(found, image, settings, "VALUES", values)),
        _ => told_of_schemas(job, found),
    }
}

// The same of a job on all settings of a file.
fn told_of_schemas(job: &Job<'_>, found: &ArgMatches<'_>) -> (&'static str, bool) {
    match *job {
        Job::Header { rust, settings } => (
            "header",
            (found.get_flag("--rust") == rust) & has(found, "SETTINGS", Some(settings)),
        ),
        Job::Stale { image, settings } => (
            "stale",
            has(found, "IMAGE", Some(image)) & has(found, "SETTINGS", Some(settings)),
        ),
        Job::Tidy { image, settings } => (
            "tidy",
            has(found, "IMAGE", Some(image)) & has(found, "SETTINGS", Some(settings)),
        ),
        Job::List { image, settings } => (
            "list",
            has(found, "IMAGE", Some(image)) & has(found, "[SETTINGS]", settings),
        ),
        _ => told_of_parts(job, found),
    }
}

/// Whether it found the flag of this form, and of no other.
fn is_of(found: &ArgMatches<'_>, form: Form) -> bool {
    (found.get_flag("--pairs") == (form == Form::Pairs))
        & (found.get_flag("--coded") == (form == Form::Coded))
}

// The same of a job on a part's dump.
fn told_of_parts(job: &Job<'_>, found: &ArgMatches<'_>) -> (&'static str, bool) {
    match *job {
        Job::Import {
            form,
            shape,
            dump,
            image,
        } => (
            "import",
            is_of(found, form)
                & fits(found, shape)
                & has(found, "DUMP", Some(dump))
                & has(found, "IMAGE", Some(image)),
        ),
        Job::Export { form, image, dump } => (
            "export",
            is_of(found, form) & has(found, "IMAGE", Some(image)) & has(found, "DUMP", Some(dump)),
        ),
        _ => told_of_hex(job, found),
    }
}

// The same of a job on a part's dump in Intel HEX.
fn told_of_hex(job: &Job<'_>, found: &ArgMatches<'_>) -> (&'static str, bool) {
    match *job {
        Job::ImportHex {
            form,
            shape,
            base,
            dump,
            image,
        } => (
            "import-hex",
            is_of(found, form)
                & fits(found, shape)
                & starts(found, base)
                & has(found, "DUMP", Some(dump))
                & has(found, "IMAGE", Some(image)),
        ),
        Job::ExportHex {
            form,
            fill,
            image,
            base,
            dump,
        } => (
            "export-hex",
            is_of(found, form)
                & (found.get_flag("--fill") == fill)
                & has(found, "IMAGE", Some(image))
                & starts(found, base)
                & has(found, "DUMP", Some(dump)),
        ),
        _ => told_of_images(job, found),
    }
}

// The same of a job on an image alone.
fn told_of_images(job: &Job<'_>, found: &ArgMatches<'_>) -> (&'static str, bool) {
    match *job {
        Job::Wear { image, before } => (
            "wear",
            has(found, "IMAGE", Some(image)) & has(found, "[BEFORE]", before),
        ),
        Job::States { image } => ("states", has(found, "IMAGE", Some(image))),
        Job::Clean { image } => ("clean", has(found, "IMAGE", Some(image))),
        Job::Rescue { image } => ("rescue", has(found, "IMAGE", Some(image))),
        Job::ForgetAll { force, image } => (
            "forget-all",
            (found.get_flag("--force") == force) & has(found, "IMAGE", Some(image)),
        ),
        Job::Inspect { image } => ("inspect", has(found, "IMAGE", Some(image))),
        Job::ImportXcube { shape, dump, image } => (
            "import-xcube",
            fits(found, shape) & has(found, "DUMP", Some(dump)) & has(found, "IMAGE", Some(image)),
        ),
        _ => ("", false),
    }
}

// What `clap` answers to the words that ask for what the program tells of itself.
fn told_of_itself(job: &Job<'_>) -> Option<ErrorKind> {
    match *job {
        Job::Help => Some(ErrorKind::DisplayHelp),
        Job::Version => Some(ErrorKind::DisplayVersion),
        _ => None,
    }
}

// Looks whether `clap` finds in the words of a line what `job` gives, or the line that is asked of.
fn compare(rt: &impl Abort, memory: Global, line: &str, words: &[&'static str]) {
    let behind = words.get(1..).unwrap_or(&[]);
    if let Some(asked) = line_asked(behind) {
        return compare_asked(rt, memory, words, asked.first().copied());
    }
    let Some(job) = job(behind) else {
        panic!(rt; "no job");
    };
    match table(rt, memory).try_get_matches_from(words) {
        Ok(found) => {
            let (name, found) = found.subcommand().expect(rt, "no command");
            same(rt, line, told(&job, found), (name, true));
        }
        Err(error) => same(rt, line, Some(error.kind()), told_of_itself(&job)),
    }
}

// Looks whether `clap` finds the line that is asked of.
fn compare_asked(rt: &impl Abort, memory: Global, words: &[&'static str], asked: Option<&str>) {
    match table(rt, memory).try_get_matches_from(words) {
        Ok(found) => {
            let (name, found) = found.subcommand().expect(rt, "no command");
            same(
                rt,
                "asked",
                (name, has(&found, "LINE", asked)),
                ("explain", true),
            );
        }
        Err(_) => panic!(rt; "no match"),
    }
}

#[test]
fn clap_finds_the_same_values(rt: HostRuntime) {
    for line in LINES.lines() {
        let words: Vec<&'static str> = line
            .split_whitespace()
            .collect(rt.alloc())
            .expect(&rt, "no room");
        compare(&rt, rt.alloc(), line, words.as_slice());
    }
}

// The command that a row or a line begins with, and its flag, if that comes next.
fn start_of(row: &str) -> (&str, &str) {
    let mut words = row.split_whitespace();
    let name = words.next().unwrap_or("");
    let flag = words.next().unwrap_or("");
    let name = match name.split_once("[") {
        Some((name, _)) => name,
        None => name.strip_suffix(",").unwrap_or(name),
    };
    (name, if flag.starts_with("--") { flag } else { "" })
}

// Whether a line has the command and the flag that a row begins with.
fn has_line(row: &str) -> bool {
    for line in LINES.lines() {
        if start_of(line.strip_prefix("ee ").unwrap_or("")) == start_of(row) {
            return true;
        }
    }
    false
}

#[test]
fn each_row_of_the_help_has_a_line(rt: HostRuntime) {
    let mut rows = 0u32;
    for row in HELP.lines() {
        if let Some(row) = row.strip_prefix("  ee ")
            && !row.starts_with(" ")
        {
            same(&rt, row, has_line(row), true);
            rows = rows.saturating_add(1);
        }
    }
    // One for each command at least.
    same(&rt, "rows", rows >= 25, true);
}
