//! The checker: each stretch of a certificate is judged where the one before it ends.
ghost use Rattle.std.specs.Prelude.{◌≡◌, ◌⊎◌, ◌≤◌, List, IsTrue, ◌↔◌, IfOk, IfErr, MatchResult, length};
ghost use Rattle.ee_check.specs.Schedule.{Move, IsSchedule, cost};
ghost use Rattle.ee_check.specs.Start.{IsStart};
ghost use Rattle.ee_check.specs.Certificate.{first_place, IsCertificateHeader, IsForced, EachStretch, IsCertificate, claim_of};
ghost use Rattle.ee_check.specs.Fault.{IsCause, IsFirstFlaw};

use super::certificate::{Certificate, Stretch};
use super::change::Change;
use super::start::Start;
use super::walk::Walk;
use std::alloc::{AllocError, Allocator};

/// Why a certificate is refused. Stretches are counted from 1.
#[derive(Clone, Copy, Debug, PartialEq, Eq)]
pub enum CheckFault {
    /// The slots, the fill, the live addresses or the changes that it states aren't the
    /// start's and the trace's.
    WrongStart,
    /// This stretch doesn't end behind the one before it, or it ends behind the trace.
    NotRising(u64),
    /// At the beginning of this stretch another number of slots is used at least.
    WrongFrom(u64),
    /// This stretch has no more changes than there are free slots.
    NotForced(u64),
    /// Memory ran out.
    Memory,
}

impl From<AllocError> for CheckFault {
    ghost use Rattle.std.specs.Prelude.{◌≡◌};
    ghost use Rattle.ee_check.specs.declared.checking.CheckFault.TheVariants.{Memory};

    ghost from_gives = { λ _ fault. fault ≡ Memory };

    fn from(_error: AllocError) -> CheckFault {
        CheckFault::Memory
    }
}

/// The number of stretches of a certificate: every store that appends each change of the trace, and
/// transfers by copying the live addresses when it likes, transfers at least as often.
///
/// # Errors
///
/// What is wrong with the certificate; want of memory can come in place of any answer.
pub fn check<A: Allocator + Copy, B: Allocator, C: Allocator>(
    alloc: A,
    start: &Start<B>,
    trace: &[Change],
    certificate: &Certificate<C>,
) -> Result<u64, CheckFault>
    // It is a certificate, of so many stretches.
    ensures accepted { IfOk result (λ k.
        IsCertificate start.now trace.now (claim_of certificate.now)
        × (k ≡ length (claim_of certificate.now).stretches)) }
    // No schedule costs less.
    ensures bound { IfOk result
        (λ k. (moves : List Move) → IsSchedule start.now trace.now moves → k ≤ cost moves) }
    ensures refused { IfErr result (λ fault.
        IsCause start.now trace.now (claim_of certificate.now) fault ⊎ (fault ≡ CheckFault.Memory)) }
    // Every certificate is accepted, and every cause of a fault is named.
    ensures accepts { IsCertificate start.now trace.now (claim_of certificate.now)
        → MatchResult result
        (λ k. k ≡ length (claim_of certificate.now).stretches)
        (λ fault. fault ≡ CheckFault.Memory) }
    ensures names { (cause : CheckFault)
        → IsCause start.now trace.now (claim_of certificate.now) cause
        → MatchResult result (λ _. ⊥) (λ fault. (fault ≡ cause) ⊎ (fault ≡ CheckFault.Memory)) }
{
    if !has_header(start, trace, certificate) {
        return Err(CheckFault::WrongStart);
    }
    check_stretches(alloc, start, trace, &certificate.stretches)
}

/// Whether the certificate's header is the start's and the trace's.
fn has_header<B: Allocator, C: Allocator>(
    start: &Start<B>,
    trace: &[Change],
    certificate: &Certificate<C>,
) -> bool
    ensures header { IsTrue result ↔ IsCertificateHeader start.now trace.now (claim_of certificate.now) }
    ensures start { IsStart start.now }
{
    certificate.slots == start.slots()
        && certificate.fill == start.fill()
        && certificate.live == start.live().len() as u64
        && certificate.writes == trace.len() as u64
}

/// The number of these stretches, each of which is forced where the one before it
/// ends; or the first flaw.
fn check_stretches<A: Allocator + Copy, B: Allocator>(
    alloc: A,
    start: &Start<B>,
    trace: &[Change],
    stretches: &[Stretch],
) -> Result<u64, CheckFault>
    ensures ok { IfOk result (λ k.
        EachStretch start.now trace.now IsForced (first_place start.now) stretches.now
        × (k ≡ length stretches.now)) }
    ensures err { IfErr result (λ fault.
        IsFirstFlaw start.now trace.now stretches.now fault ⊎ (fault ≡ CheckFault.Memory)) }
{
    let mut walk = Walk::new(alloc, start, stretches.len())?;
    let mut count = 0;
    for stretch in stretches {
        walk.judge(start, trace, *stretch, count + 1)?;
        walk.pass(trace, stretch.to)?;
        count += 1;
    }
    Ok(count)
}
