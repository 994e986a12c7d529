//! Reading the text of a certificate.
ghost use Rattle.std.specs.Prelude.{◌≡◌, ◌≢◌, ◌⊎◌, ℕ, ◌+◌, ◌^◌, ◌<◌, List, ◌∷◌, ◌++◌, Some, IfSome, IfNone, IfOk, IfErr, OnOk, MatchOption, MatchResult, decimal};
ghost use Rattle.ee_text.specs.Line.{line_of};
ghost use Rattle.ee_check.specs.declared.certificate.Stretch.{Stretch};
ghost use Rattle.ee_check.specs.Certificate.{Claim, claim_of};
ghost use Rattle.ee_check.specs.Text.{heading, stretch_text, ending, stretch_lines, IsNumber, IsStretch, AreStretches, NoStretch, NoFirstLine, IsText, IsCertificateTextFault, IsEndingFault, IsFirstBadCertificateLine};

use super::certificate::{Certificate, Stretch};
use ee_text::{next_field, next_line, number};
use std::alloc::{AllocError, Allocator};

/// Why a text isn't read as a certificate.
#[derive(Clone, Copy, Debug, PartialEq, Eq)]
pub enum TextFault {
    /// The number of the first bad line, counted from 1. A line that is missing is bad.
    BadText(u64),
    /// Memory ran out.
    Memory,
}

impl From<AllocError> for TextFault {
    ghost use Rattle.std.specs.Prelude.{◌≡◌};
    ghost use Rattle.ee_check.specs.declared.reading.TextFault.TheVariants.{Memory};

    ghost from_gives = { λ _ fault. fault ≡ Memory };

    fn from(_error: AllocError) -> TextFault {
        TextFault::Memory
    }
}

/// The certificate that a text says.
///
/// # Errors
///
/// The first bad line; want of memory can come in place of any answer.
pub fn read_certificate<A: Allocator + Copy>(
    alloc: A,
    text: &[u8],
) -> Result<Certificate<A>, TextFault>
    ensures found { IfOk result (λ certificate. IsText text.now (claim_of certificate)) }
    ensures fault { IfErr result (IsCertificateTextFault text.now) }
    // Every text of a claim is read, and every bad line is named.
    ensures only { (claim : Claim) → IsText text.now claim
        → MatchResult result
        (λ certificate. claim_of certificate ≡ claim)
        (λ fault. fault ≡ TextFault.Memory) }
    ensures bad { (n : ℕ) → IsFirstBadCertificateLine text.now n
        → MatchResult result (λ _. ⊥)
        (λ fault. (fault ≡ TextFault.BadText n) ⊎ (fault ≡ TextFault.Memory)) }
{
    let Some((heading, rest)) = next_heading(text) else {
        return Err(TextFault::BadText(1));
    };
    let (stretches, rest) = read_stretches(alloc, rest)?;
    check_ending(rest, stretches.len() as u64)?;
    Ok(Certificate {
        slots: heading.slots,
        fill: heading.fill,
        live: heading.live,
        writes: heading.writes,
        stretches,
    })
}

/// The numbers of the first line.
#[derive(Clone, Copy)]
struct Heading {
    slots: u64,
    fill: u64,
    live: u64,
    writes: u64,
}

/// The numbers of the first line, and what stands behind it.
fn next_heading(text: &[u8]) -> Option<(Heading, &[u8])>
    ensures found { IfSome result (λ parts. text.now
        ≡ line_of (heading parts.0.slots parts.0.fill parts.0.live parts.0.writes) ++ parts.1.now) }
    ensures none { IfNone result (NoFirstLine text.now) }
{
    let (line, rest) = next_line(text)?;
    read_heading(line).zip(Some(rest))
}

/// The stretches whose lines stand at the front of the text, and what stands behind them.
fn read_stretches<A: Allocator + Copy>(
    alloc: A,
    text: &[u8],
) -> Result<(Vec<Stretch, A>, &[u8]), AllocError>
    ensures lines { IfOk result (λ read. text.now ≡ stretch_lines read.0.items ++ read.1.now) }
    ensures proper { IfOk result (λ read. AreStretches read.0.items) }
    ensures all { IfOk result (λ read. NoStretch read.1.now) }
{
    let mut stretches = Vec::new(alloc);
    let mut rest = text;
    while let Some((stretch, more)) = next_stretch(rest) {
        stretches.push(stretch)?;
        rest = more;
    }
    Ok((stretches, rest))
}

/// The stretch whose line stands at the front of the text, and what stands behind it.
fn next_stretch(text: &[u8]) -> Option<(Stretch, &[u8])>
    ensures found { IfSome result (λ parts.
        IsStretch parts.0 × (text.now ≡ line_of (stretch_text parts.0) ++ parts.1.now)) }
    ensures none { IfNone result (NoStretch text.now) }
{
    let (line, rest) = next_line(text)?;
    read_stretch(line).zip(Some(rest))
}

/// Whether the last line, with this count, is all that is left.
fn check_ending(text: &[u8], count: u64) -> Result<(), TextFault>
    requires { count + 3 < 2 ^ 64 }
    ensures ok { OnOk result (text.now ≡ line_of (ending count)) }
    ensures err { IfErr result (IsEndingFault text.now count) }
{
    let Some((line, rest)) = next_line(text) else {
        return Err(TextFault::BadText(count + 2));
    };
    if read_ending(line) != Some(count) {
        return Err(TextFault::BadText(count + 2));
    }
    if !rest.is_empty() {
        return Err(TextFault::BadText(count + 3));
    }
    Ok(())
}

/// The numbers that the first line says.
fn read_heading(line: &[u8]) -> Option<Heading>
    ensures found { IfSome result (λ h. line.now ≡ heading h.slots h.fill h.live h.writes) }
    ensures only { (slots fill live writes : ℕ)
        → IsNumber slots → IsNumber fill → IsNumber live → IsNumber writes
        → line.now ≡ heading slots fill live writes
        → result ≡ Some record { slots = slots; fill = fill; live = live; writes = writes } }
{
    let (slots, rest) = first_number(b"slots ", line)?;
    let (fill, rest) = first_number(b"fill ", rest)?;
    let (live, rest) = first_number(b"live ", rest)?;
    let writes = last_number(b"writes ", rest)?;
    Some(Heading {
        slots,
        fill,
        live,
        writes,
    })
}

/// The stretch that a line says.
fn read_stretch(line: &[u8]) -> Option<Stretch>
    ensures found { IfSome result (λ stretch. IsStretch stretch × (line.now ≡ stretch_text stretch)) }
    ensures only { (stretch : Stretch) → IsStretch stretch → line.now ≡ stretch_text stretch
        → result ≡ Some stretch }
{
    let (to, rest) = first_number(b"to ", line)?;
    let from = last_number(b"from ", rest)?;
    Some(Stretch { to, from })
}

/// The count that the last line says.
fn read_ending(line: &[u8]) -> Option<u64>
    ensures found { IfSome result (λ count. line.now ≡ ending count) }
    ensures only { (count : ℕ) → IsNumber count → line.now ≡ ending count → result ≡ Some count }
{
    last_number(b"transfers ", line)
}

/// The number that stands behind this name and before a space, and what stands behind the space.
fn first_number<'a>(name: &[u8], text: &'a [u8]) -> Option<(u64, &'a [u8])>
    ensures found { IfSome result (λ parts. text.now ≡ name.now ++ (decimal parts.0 ++ 32 ∷ parts.1.now)) }
    ensures only { (n : ℕ) (rest : List ℕ) → IsNumber n
        → text.now ≡ name.now ++ (decimal n ++ 32 ∷ rest)
        → MatchOption result ⊥ (λ parts. (parts.0 ≡ n) × (parts.1.now ≡ rest)) }
{
    let (field, rest) = next_field(behind(name, text)?);
    number(field).zip(rest)
}

/// The number that stands behind this name and is the last.
fn last_number(name: &[u8], text: &[u8]) -> Option<u64>
    ensures found { IfSome result (λ n. text.now ≡ name.now ++ decimal n) }
    ensures only { (n : ℕ) → IsNumber n → text.now ≡ name.now ++ decimal n → result ≡ Some n }
{
    number(behind(name, text)?)
}

/// What stands behind this name.
fn behind<'a>(name: &[u8], text: &'a [u8]) -> Option<&'a [u8]>
    ensures found { IfSome result (λ rest. text.now ≡ name.now ++ rest.now) }
    ensures none { IfNone result ((rest : List ℕ) → text.now ≢ name.now ++ rest) }
{
    text.strip_prefix(name)
}
