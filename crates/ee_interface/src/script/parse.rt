//! The reading of a script's line: each command has one spelling, and no other line is read.
ghost use Rattle.std.specs.Prelude.{◌≡◌, ◌+◌, ◌<◌, ◌^◌, ◌++◌, ◌∷◌, ℕ, List, Some, IfNone, IfSome, IsSomeAnd, decimal, codes};
ghost use Rattle.ee_codec.specs.Words.{IsAddress, IsValue};
ghost use Rattle.ee_text.specs.Line.{line_of};
ghost use Rattle.ee_text.specs.Number.{StartsWithNoDigit};
ghost use Rattle.ee_interface.specs.Script.Command.{IsCommand, letter, command_text};
ghost use Rattle.ee_interface.specs.Script.Script.{NoLine};
ghost use Rattle.ee_interface.specs.declared.script.command.Command.TheVariants as commands;

use super::command::Command;
use ee_codec::Address;
use ee_flash::{Fuse, Tear};
use ee_text::{leading_number, next_field, number};

/// The command that a line spells, without its line feed. None where it spells none.
pub fn read_command(line: &[u8]) -> Option<Command>
    // What is read is spelled so.
    ensures found { IfSome result (λ command. IsCommand command × (line.now ≡ command_text command)) }
    // What is spelled so is read.
    ensures only { (command : Command) → IsCommand command → line.now ≡ command_text command
        → result ≡ Some command }
{
    match leading_command(line) {
        Some((command, [])) => Some(command),
        _ => None,
    }
}

/// The command whose line stands at the front of a text, and what stands behind the line. None
/// where no good line stands there.
#[inline(always)]
pub fn next_command(text: &[u8]) -> Option<(Command, &[u8])>
    ensures found { IfSome result (λ parts. IsCommand parts.0
        × (text.now ≡ line_of (command_text parts.0) ++ parts.1.now)) }
    ensures none { IfNone result (NoLine text.now) }
{
    match leading_command(text) {
        Some((command, [b'\n', behind @ ..])) => Some((command, behind)),
        _ => None,
    }
}

/// The command that is spelled at the front of a text, and what stands behind it: a number that
/// ends it goes up to the first byte that is no digit.
#[inline(always)]
fn leading_command(text: &[u8]) -> Option<(Command, &[u8])>
    ensures found { IfSome result (λ parts. IsCommand parts.0
        × (text.now ≡ command_text parts.0 ++ parts.1.now)) }
    ensures only { (command : Command) (behind : List ℕ) → IsCommand command
        → StartsWithNoDigit behind → text.now ≡ command_text command ++ behind
        → IsSomeAnd result (λ parts. (parts.0 ≡ command) × (parts.1.now ≡ behind)) }
{
    match text {
        [b'w', b' ', fields @ ..] => leading_write(fields),
        [b'r', b' ', field @ ..] => match leading_address(field) {
            Some((address, behind)) => Some((Command::Read { address }, behind)),
            None => None,
        },
        [b'f', b' ', field @ ..] => match leading_address(field) {
            Some((address, behind)) => Some((Command::Forget { address }, behind)),
            None => None,
        },
        [b'c', behind @ ..] => Some((Command::Clean, behind)),
        [b'x', b' ', fields @ ..] => leading_arm(fields),
        [b'p', behind @ ..] => Some((Command::PowerOn, behind)),
        _ => None,
    }
}

/// The write of the address and the value at the front of a text.
#[inline(always)]
fn leading_write(text: &[u8]) -> Option<(Command, &[u8])>
    ensures found { IfSome result (λ parts. IsCommand parts.0
        × (codes "w " ++ text.now ≡ command_text parts.0 ++ parts.1.now)) }
    ensures only { (address value : ℕ) (behind : List ℕ) → IsAddress address → IsValue value
        → StartsWithNoDigit behind
        → text.now ≡ decimal address ++ 32 ∷ (decimal value ++ behind)
        → IsSomeAnd result (λ parts. (parts.0 ≡ commands.Write address value)
        × (parts.1.now ≡ behind)) }
{
    let Some((address, [b' ', value @ ..])) = leading_address(text) else {
        return None;
    };
    let (value, behind) = leading_number(value, u32::MAX)?;
    Some((Command::Write { address, value }, behind))
}

/// The address at the front of a text.
#[inline(always)]
fn leading_address(text: &[u8]) -> Option<(Address, &[u8])>
    ensures found { IfSome result (λ parts. IsAddress parts.0
        × (text.now ≡ decimal parts.0 ++ parts.1.now)) }
    ensures only { (address : ℕ) (behind : List ℕ) → IsAddress address
        → StartsWithNoDigit behind → text.now ≡ decimal address ++ behind
        → IsSomeAnd result (λ parts. (parts.0 ≡ address) × (parts.1.now ≡ behind)) }
{
    let (number, behind) = leading_number(text, u32::from(u16::MAX))?;
    Some((Address::new(number as u16)?, behind))
}

/// The cut to come whose step and tear stand at the front of a text.
fn leading_arm(text: &[u8]) -> Option<(Command, &[u8])>
    ensures found { IfSome result (λ parts. IsCommand parts.0
        × (codes "x " ++ text.now ≡ command_text parts.0 ++ parts.1.now)) }
    ensures only { (fuse : Fuse) (behind : List ℕ) → fuse.after + 1 < 2 ^ 64
        → text.now ≡ decimal (fuse.after + 1) ++ 32 ∷ (letter fuse.tear ++ behind)
        → IsSomeAnd result (λ parts. (parts.0 ≡ commands.Arm fuse) × (parts.1.now ≡ behind)) }
{
    let (step, Some(rest)) = next_field(text) else {
        return None;
    };
    let after = number(step)?.checked_sub(1)?;
    let (tear, behind) = leading_tear(rest)?;
    let fuse = Fuse { after, tear };
    Some((Command::Arm { fuse }, behind))
}

/// The tear whose letter stands at the front of a text.
fn leading_tear(text: &[u8]) -> Option<(Tear, &[u8])>
    ensures found { IfSome result (λ parts. text.now ≡ letter parts.0 ++ parts.1.now) }
    ensures only { (tear : Tear) (behind : List ℕ) → text.now ≡ letter tear ++ behind
        → IsSomeAnd result (λ parts. (parts.0 ≡ tear) × (parts.1.now ≡ behind)) }
{
    match text {
        [b'n', behind @ ..] => Some((Tear::Nothing, behind)),
        [b'd', behind @ ..] => Some((Tear::Done, behind)),
        [b't', behind @ ..] => Some((Tear::Torn, behind)),
        [b'm', behind @ ..] => Some((Tear::Mixed, behind)),
        _ => None,
    }
}
