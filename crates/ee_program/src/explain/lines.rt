//! The lines that explain a refusal, and the help of a command.
use crate::explain::causes::LineCause;
use crate::explain::meanings::cause_of;
use crate::explain::paths::path_of;
use crate::explain::remedies::remedy_of;
use arrayvec::ArrayVec;
use ee_interface::command_line::{
    Form, HELP, Job, Operand, WordFault, WordsCause, least_number, most_number, why_no_job,
    why_no_line,
};
use ee_interface::{Fault, File, status_of};
use ee_text::{Fields, push_number, push_number_behind};
use std::alloc::{AllocError, Allocator};
use toml::Table;

/// How many bytes of a text that is wrong are shown.
const MOST_SHOWN: usize = 60;

/// How many fields of a line are looked at: one more than a command has.
const MOST_FIELDS: usize = 4;

/// The command whose help these words ask for: `help NAME` or `NAME --help`.
///
/// Source: ours.
pub fn help_asked<'a>(words: &[&'a str]) -> Option<&'a str> {
    match *words {
        ["help", name] | [name, "--help"] if is_command(name) => Some(name),
        _ => None,
    }
}

/// Whether a command that takes words has this name.
fn is_command(name: &str) -> bool {
    name == "explain" || why_no_job(&[name]) != WordsCause::NoCommand
}

/// Writes the rows of the help that a command has, and an example. After an error there may be a
/// part of them.
///
/// Source: ours.
pub fn push_help<A: Allocator>(out: &mut Vec<u8, A>, name: &str) -> Result<(), AllocError> {
    for row in HELP.lines() {
        if is_row_of(row, name) {
            push_line(out, "", row)?;
        }
    }
    push_line(out, "  such as ee ", example_of(name))
}

/// Whether a row of the help is one of this command's.
fn is_row_of(row: &str, name: &str) -> bool {
    let Some(words) = row.strip_prefix("  ee ") else {
        return false;
    };
    match words.split_once(" ") {
        Some(("import[-hex]", _)) => name == "import" || name == "import-hex",
        Some(("export[-hex]", _)) => name == "export" || name == "export-hex",
        Some((first, _)) => first == name,
        None => false,
    }
}

/// The words of a line that a command takes.
fn example_of(name: &str) -> &'static str {
    match name {
        "try" => "try 1 6 < my.script",
        "format" => "format 1 256 device.image",
        "import" => "import 1 256 part.bin device.image",
        "export" => "export device.image part.bin",
        "import-hex" => "import-hex 1 256 0807f000 part.hex device.image",
        "export-hex" => "export-hex device.image 0807f000 part.hex",
        "run" => "run device.image my.script",
        "list" => "list device.image my.toml",
        "get" => "get device.image my.toml volume",
        "set" => "set device.image my.toml volume 7",
        "unset" => "unset device.image my.toml volume",
        "apply" => "apply device.image my.toml factory.toml",
        "verify" => "verify device.image my.toml factory.toml",
        "header" => "header my.toml > settings.h",
        _ => example_of_others(name),
    }
}

/// The same of the commands that are not there.
fn example_of_others(name: &str) -> &'static str {
    match name {
        "stale" => "stale device.image my.toml",
        "tidy" => "tidy device.image my.toml",
        "plan" => "plan device.image my.script > my.certificate",
        "check" => "check device.image my.script my.certificate",
        "size" => "size 256 my.script 10000 3650",
        "inspect" => "inspect device.image",
        "wear" => "wear device.image",
        "states" => "states device.image",
        "clean" => "clean device.image",
        "rescue" => "rescue device.image",
        "forget-all" => "forget-all --force device.image",
        "import-xcube" => "import-xcube 1 256 part.bin device.image",
        "explain" => "explain ee: image unformatted",
        _ => "--help",
    }
}

/// Writes why words are no command line, what is wanted, and what to type. After an error there may
/// be a part of it.
///
/// Source: ours.
pub fn push_words_cause<A: Allocator>(
    out: &mut Vec<u8, A>,
    words: &[&str],
) -> Result<(), AllocError> {
    let cause = why_no_job(words);
    if cause == WordsCause::NoCommand {
        out.extend_from_slice(b"  no command that takes words has the name ")?;
        push_word(out, named_command(words))?;
        return push_line(out, "\n  type: ", "ee --help");
    }
    let name = word_at(words, 0);
    push_cause(out, words, cause)?;
    match cause {
        WordsCause::Wrong { operand, .. } => push_wanted(out, operand)?,
        WordsCause::NoRow => push_line(out, "  wanted: ", whole_row_of(name))?,
        _ => push_line(out, "  wanted is such as ee ", example_of(name))?,
    }
    push_line(out, "  type: ee help ", name)
}

/// The word that is to be the name of a command: behind `help` the second.
fn named_command<'a>(words: &[&'a str]) -> &'a str {
    match *words {
        ["help", name, ..] => name,
        _ => word_at(words, 0),
    }
}

/// The word behind so many. An empty text where there is none.
fn word_at<'a>(words: &[&'a str], before: usize) -> &'a str {
    match words.get(before) {
        Some(word) => word,
        None => "",
    }
}

/// Writes which of these words is wrong, and how.
fn push_cause<A: Allocator>(
    out: &mut Vec<u8, A>,
    words: &[&str],
    cause: WordsCause,
) -> Result<(), AllocError> {
    match cause {
        WordsCause::NoCommand => push_line(out, "  ", "no command begins so"),
        WordsCause::NoRow => push_line(out, "  ", "each word by itself is as it is to be"),
        WordsCause::Missing(operand) => {
            out.extend_from_slice(b"  ")?;
            push_line(out, operand_name(operand), " is missing")
        }
        WordsCause::Surplus { before } => {
            push_quoted(out, "  ", word_at(words, usize::from(before)))?;
            push_line(out, " is one word too many", "")
        }
        WordsCause::Wrong {
            before,
            operand,
            fault,
        } => {
            out.extend_from_slice(b"  ")?;
            out.extend_from_slice(operand_name(operand).as_bytes())?;
            push_quoted(out, " is ", word_at(words, usize::from(before)))?;
            push_line(out, ", ", fault_words(fault))
        }
    }
}

/// How a word is wrong.
fn fault_words(fault: WordFault) -> &'static str {
    match fault {
        WordFault::ZeroInFront => "with a zero in front",
        WordFault::OutOfRange => "out of range",
        WordFault::NoNumber => "not a number in digits alone",
        WordFault::NoBase => "not a base",
        WordFault::NoTear => "none of the four letters",
    }
}

/// Writes what a word is to be.
fn push_wanted<A: Allocator>(out: &mut Vec<u8, A>, operand: Operand) -> Result<(), AllocError> {
    if let Some(most) = most_number(operand) {
        push_number_behind(out, b"  wanted: a number from ", least_number(operand))?;
        push_number_behind(out, b" to ", most)?;
        return out.extend_from_slice(b"\n");
    }
    let wanted = match operand {
        Operand::Base => "eight hexadecimal digits, a multiple of 8",
        Operand::Tear => "n, d, t or m",
        _ => "a text",
    };
    push_line(out, "  wanted: ", wanted)
}

/// What is wanted of all words of a command together.
fn whole_row_of(name: &str) -> &'static str {
    match name {
        "import-hex" => "a part that ends at the address ffffffff or before",
        _ => "a flag once, right behind the name",
    }
}

/// The name of an operand in the help and in FORMATS.md.
fn operand_name(operand: Operand) -> &'static str {
    match operand {
        Operand::Pages => "P",
        Operand::PageWords => "W",
        Operand::Base => "BASE",
        Operand::Value => "VALUE",
        Operand::Cycles => "CYCLES",
        Operand::Runs => "RUNS",
        Operand::Image => "IMAGE",
        Operand::Before => "BEFORE",
        Operand::Dump => "DUMP",
        Operand::Script => "SCRIPT",
        Operand::Certificate => "CERTIFICATE",
        Operand::Settings => "SETTINGS",
        Operand::Name => "NAME",
        Operand::Values => "VALUES",
        Operand::Address => "A",
        Operand::Stored => "V",
        Operand::Step => "N",
        Operand::Tear => "T",
    }
}

/// Writes what to do at a fault of a job. After an error there may be a part of it.
///
/// Source: ours.
pub fn push_remedy<A: Allocator>(
    out: &mut Vec<u8, A>,
    job: &Job<'_>,
    fault: &Fault,
) -> Result<(), AllocError> {
    out.extend_from_slice(b"  to do:")?;
    for word in remedy_of(fault).split_whitespace() {
        out.extend_from_slice(b" ")?;
        push_filled(out, job, fault, word)?;
    }
    out.extend_from_slice(b"\n")
}

/// Writes what a fault line means: the status behind it, what is wrong, and what to do. After an
/// error there may be a part of it.
///
/// Source: ours.
pub fn push_meaning<A: Allocator>(out: &mut Vec<u8, A>, fault: &Fault) -> Result<(), AllocError> {
    push_number_behind(out, b"status ", u64::from(status_of(fault)))?;
    push_line(out, "", "")?;
    push_line(out, "cause: ", cause_of(fault))?;
    push_line(out, "to do: ", remedy_of(fault))
}

/// Writes that no fault has a line. After an error there may be a part of it.
///
/// Source: ours.
pub fn push_no_line<A: Allocator>(out: &mut Vec<u8, A>, line: &[u8]) -> Result<(), AllocError> {
    out.extend_from_slice(b"  no fault has the line \"")?;
    push_shown_front(out, line)?;
    push_line(
        out,
        "\"\n  wanted: a line as ee printed it, such as ",
        "ee: spent",
    )
}

/// Writes words with a space between each two. After an error there may be a part of them.
///
/// Source: ours.
pub fn push_words<A: Allocator>(out: &mut Vec<u8, A>, words: &[&str]) -> Result<(), AllocError> {
    let mut is_first = true;
    for word in words {
        if !is_first {
            out.extend_from_slice(b" ")?;
        }
        is_first = false;
        out.extend_from_slice(word.as_bytes())?;
    }
    Ok(())
}

/// Writes a word of a remedy, or what it stands for.
fn push_filled<A: Allocator>(
    out: &mut Vec<u8, A>,
    job: &Job<'_>,
    fault: &Fault,
    word: &str,
) -> Result<(), AllocError> {
    if word == "Np" {
        return push_line_number(out, fault);
    }
    let Some(path) = path_for(job, fault, word) else {
        return out.extend_from_slice(word.as_bytes());
    };
    out.extend_from_slice(path.as_bytes())
}

/// Writes the number of the line that is bad, and `p` behind it.
fn push_line_number<A: Allocator>(out: &mut Vec<u8, A>, fault: &Fault) -> Result<(), AllocError> {
    match *fault {
        Fault::BadLine { line, .. } => push_number(out, line)?,
        _ => out.extend_from_slice(b"N")?,
    }
    out.extend_from_slice(b"p")
}

/// The path that a word of a remedy stands for, if a shell takes it as it is.
fn path_for<'a>(job: &Job<'a>, fault: &Fault, word: &str) -> Option<&'a str> {
    let path = path_of(job, file_of(word, fault)?)?;
    if is_plain_path(path) {
        Some(path)
    } else {
        None
    }
}

/// The file that a word of a remedy stands for.
fn file_of(word: &str, fault: &Fault) -> Option<File> {
    match word {
        "IMAGE" => Some(File::Image),
        "SCRIPT" => Some(File::Script),
        "SETTINGS" => Some(File::Settings),
        "VALUES" => Some(File::Values),
        "DUMP" => Some(File::Dump),
        "FILE" => match *fault {
            Fault::CannotRead(file)
            | Fault::TooLong(file)
            | Fault::BadLine { file, .. }
            | Fault::BadShape(file) => Some(file),
            _ => None,
        },
        _ => None,
    }
}

/// Whether a shell takes a path as it is, as one word.
fn is_plain_path(path: &str) -> bool {
    !path.is_empty() && path.as_bytes().iter().all(|byte| is_plain_byte(*byte))
}

/// Whether a byte is a letter, a digit or one of `/._-+`.
fn is_plain_byte(byte: u8) -> bool {
    match byte {
        b'a'..=b'z' | b'A'..=b'Z' | b'0'..=b'9' => true,
        b'/' | b'.' | b'_' | b'-' | b'+' => true,
        _ => false,
    }
}

/// Writes how long the dump of a job's part is, and what to do where it isn't. After an error there
/// may be a part of it.
///
/// Source: ours.
pub fn push_dump_length<A: Allocator>(
    out: &mut Vec<u8, A>,
    job: &Job<'_>,
) -> Result<(), AllocError> {
    if let Some(length) = length_wanted(job) {
        push_number_behind(out, b"  wanted: ", length as u64)?;
        out.extend_from_slice(b" bytes for these P and W\n")?;
    }
    push_remedy(out, job, &Fault::DumpLength)
}

/// How many bytes the dump of a job is to have.
fn length_wanted(job: &Job<'_>) -> Option<usize> {
    match *job {
        Job::Import { form, shape, .. } => Some(form.dump_length(shape)),
        Job::ImportXcube { shape, .. } => Some(Form::Words.dump_length(shape)),
        _ => None,
    }
}

/// Writes the name that no setting has, and where the names are. After an error there may be a part
/// of it.
///
/// Source: ours.
pub fn push_unknown_name<A: Allocator>(
    out: &mut Vec<u8, A>,
    job: &Job<'_>,
    name: &str,
) -> Result<(), AllocError> {
    push_quoted(out, "  no setting has the name ", name)?;
    out.extend_from_slice(b"\n")?;
    push_remedy(out, job, &Fault::UnknownName)
}

/// Writes the name of an entry of a TOML document at which there is a fault, counted from 1 by
/// rising name, and what to do. After an error there may be a part of it.
///
/// Source: ours.
pub fn push_entry<A: Allocator>(
    out: &mut Vec<u8, A>,
    job: &Job<'_>,
    fault: &Fault,
    table: &Table,
    number: u64,
) -> Result<(), AllocError> {
    if let Some(name) = name_at(table, number) {
        push_quoted(out, "  the entry is ", name)?;
        out.extend_from_slice(b"\n")?;
    }
    push_remedy(out, job, fault)
}

/// The name of the entry of this number, counted from 1 by rising name.
fn name_at<'t>(table: &'t Table, number: u64) -> Option<&'t str> {
    let mut left = number;
    for (name, _) in table.iter() {
        left = left.saturating_sub(1);
        if left == 0 {
            return Some(name.as_str());
        }
    }
    None
}

/// Writes why a line is none of a script, what is wanted, and what to type. After an error there
/// may be a part of it.
///
/// Source: ours.
pub fn push_line_cause<A: Allocator>(
    out: &mut Vec<u8, A>,
    script: &str,
    line: &[u8],
    cause: LineCause,
) -> Result<(), AllocError> {
    let script = if is_plain_path(script) {
        script
    } else {
        "SCRIPT"
    };
    out.extend_from_slice(b"  the line is \"")?;
    push_shown_front(out, line)?;
    out.extend_from_slice(b"\"\n")?;
    match cause {
        LineCause::Unended => {
            push_line(out, "  wanted: ", "a line feed behind it")?;
            push_line(out, "  type: echo >> ", script)
        }
        LineCause::WithReturn => {
            push_line(
                out,
                "  wanted: ",
                "a line feed with no carriage return, \\r, before it",
            )?;
            out.extend_from_slice(b"  type: tr -d '\\r' < ")?;
            push_line(out, script, " > NEW")
        }
        LineCause::Spaced => {
            push_line(
                out,
                "  wanted: ",
                "a command, with one space between its words, and none before or behind them",
            )?;
            push_line(out, "  such as ", "w 1 10")
        }
        LineCause::UpperCase => {
            push_line(out, "  wanted: ", "letters in lower case")?;
            push_line(out, "  such as ", "w 1 10")
        }
        LineCause::NoCommand => push_field_cause(out, line),
    }
}

/// Writes which field of a line is wrong, and what is wanted there.
fn push_field_cause<A: Allocator>(out: &mut Vec<u8, A>, line: &[u8]) -> Result<(), AllocError> {
    let mut fields: ArrayVec<&str, MOST_FIELDS> = ArrayVec::new();
    for field in Fields::of(line) {
        let Ok(field) = str::from_utf8(field) else {
            return push_commands(out);
        };
        if fields.try_push(field).is_err() {
            return push_commands(out);
        }
    }
    let cause = why_no_line(fields.as_slice());
    match cause {
        WordsCause::NoCommand => push_commands(out),
        WordsCause::NoRow => push_line(out, "  wanted: ", "no x and no p in plan, check and size"),
        WordsCause::Wrong { operand, .. } => {
            push_cause(out, fields.as_slice(), cause)?;
            push_wanted(out, operand)
        }
        _ => {
            push_cause(out, fields.as_slice(), cause)?;
            push_commands(out)
        }
    }
}

/// Writes which lines a script may have.
fn push_commands<A: Allocator>(out: &mut Vec<u8, A>) -> Result<(), AllocError> {
    push_line(out, "  wanted: ", "w A V, r A, f A, c, x N T or p")
}

/// Writes a word between quotes behind a text.
fn push_quoted<A: Allocator>(
    out: &mut Vec<u8, A>,
    front: &str,
    word: &str,
) -> Result<(), AllocError> {
    out.extend_from_slice(front.as_bytes())?;
    out.extend_from_slice(b"\"")?;
    push_word(out, word)?;
    out.extend_from_slice(b"\"")
}

/// Writes a word as it looks, or its first bytes.
fn push_word<A: Allocator>(out: &mut Vec<u8, A>, word: &str) -> Result<(), AllocError> {
    push_shown_front(out, word.as_bytes())
}

/// Writes a text as it looks, or its first bytes.
fn push_shown_front<A: Allocator>(out: &mut Vec<u8, A>, text: &[u8]) -> Result<(), AllocError> {
    for byte in &text[..text.len().min(MOST_SHOWN)] {
        push_shown(out, *byte)?;
    }
    Ok(())
}

/// Writes a byte as it looks: one that is not printed by its number.
fn push_shown<A: Allocator>(out: &mut Vec<u8, A>, byte: u8) -> Result<(), AllocError> {
    match byte {
        b'\r' => out.extend_from_slice(b"\\r"),
        b'\t' => out.extend_from_slice(b"\\t"),
        32..=126 => out.extend_from_slice(&[byte]),
        _ => out.extend_from_slice(b"?"),
    }
}

/// Writes a line of two texts.
fn push_line<A: Allocator>(
    out: &mut Vec<u8, A>,
    front: &str,
    text: &str,
) -> Result<(), AllocError> {
    out.extend_from_slice(front.as_bytes())?;
    out.extend_from_slice(text.as_bytes())?;
    out.extend_from_slice(b"\n")
}
