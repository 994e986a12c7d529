//! Why a line is none of a script, by its bytes.
ghost use Rattle.std.specs.Prelude.{◌≡◌, ◌≢◌, ◌↔◌, IsTrue, true, false};
ghost use Rattle.ee_program.specs.Explain.Explaining.{IsCommandLine, IsSpaced, IsUnended, IsUpperCase, IsWithReturn, has_capital, has_loose_space, is_upper};
ghost use Rattle.ee_program.specs.declared.explain.causes.LineCause.TheVariants.{Spaced, Unended, UpperCase, WithReturn};

use ee_interface::script::read_command;

/// Why a line of a script is bad.
///
/// Source: ours.
#[derive(Clone, Copy, Debug, PartialEq, Eq)]
pub enum LineCause {
    /// It is a command, and the text ends behind it with no line feed.
    Unended,
    /// It is a command with a carriage return behind it.
    WithReturn,
    /// It is empty, begins or ends with a space, or has two of them side by side.
    Spaced,
    /// It has a letter in upper case.
    UpperCase,
    /// None of these.
    NoCommand,
}

/// Why a line, without its line feed, is none of a script: the first cause that applies. `is_ended`
/// says whether it has a line feed.
///
/// Source: ours.
pub fn why_bad_line(line: &[u8], is_ended: bool) -> LineCause
    ensures unended { result ≡ Unended ↔ IsUnended line.now is_ended }
    ensures with_return { result ≡ WithReturn ↔ IsWithReturn line.now is_ended }
    ensures spaced { result ≡ Spaced ↔ IsSpaced line.now is_ended }
    ensures upper_case { result ≡ UpperCase ↔ IsUpperCase line.now is_ended }
{
    if !is_ended && is_command_line(line) {
        return LineCause::Unended;
    }
    match line {
        [front @ .., b'\r'] if is_command_line(front) => LineCause::WithReturn,
        _ => why_no_command(line),
    }
}

/// Why a line that is no command is none, by its bytes.
fn why_no_command(line: &[u8]) -> LineCause
    ensures by_itself { (result ≢ Unended) × (result ≢ WithReturn) }
    ensures spaced { result ≡ Spaced ↔ has_loose_space line.now ≡ true }
    ensures upper_case { result ≡ UpperCase
        ↔ (has_loose_space line.now ≡ false) × (has_capital line.now ≡ true) }
{
    if finds_loose_space(line) {
        LineCause::Spaced
    } else if finds_capital(line) {
        LineCause::UpperCase
    } else {
        LineCause::NoCommand
    }
}

/// Whether a line is empty, begins or ends with a space, or has two of them side by side.
fn finds_loose_space(line: &[u8]) -> bool
    ensures { result ≡ has_loose_space line.now }
{
    let mut behind_space = true;
    for byte in line {
        if behind_space && *byte == b' ' {
            return true;
        }
        behind_space = *byte == b' ';
    }
    behind_space
}

/// Whether a line has a letter in upper case.
fn finds_capital(line: &[u8]) -> bool
    ensures { result ≡ has_capital line.now }
{
    line.iter().any(|byte| is_capital(*byte))
}

/// Whether it is one.
fn is_capital(byte: u8) -> bool
    ensures { result ≡ is_upper byte }
{
    b'A' <= byte && byte <= b'Z'
}

/// Whether a line is a command's.
fn is_command_line(line: &[u8]) -> bool
    ensures { IsTrue result ↔ IsCommandLine line.now }
{
    read_command(line).is_some()
}
