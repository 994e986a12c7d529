//! Plans of scripts on images, and the certificates that prove them.
ghost use Rattle.std.specs.Prelude.{◌≡◌, ◌++◌, ◌∷◌, [], IfErr, IfNone, IfOk, IfSome, OnOk};
ghost use Rattle.ee_text.specs.Line.{line_of};
ghost use Rattle.ee_interface.specs.Script.Command.{command_text};
ghost use Rattle.ee_interface.specs.Script.Script.{NoLineOf};
ghost use Rattle.ee_check.specs.Certificate.{claim_of};
ghost use Rattle.ee_commands.specs.Planning.{IsCheckingFault, IsPlanned, IsPlannedClaim, IsPlanningFault, IsProved, IsTask, IsTaskFault, IsTrace, IsTraceCommand, IsTraceFault, fault_of_plan, proved_text};
ghost use Rattle.ee_image_store.specs.Trace.{trace_of};
ghost use Rattle.ee_interface.specs.Causes.{NamesEach};

use ee_check::{Certificate, Change, Start, check, read_certificate, write_certificate};
use ee_image_store::open_image;
use ee_interface::Fault;
use ee_interface::script::{Command, ScriptFault, next_command};
use ee_plan::{PlanFault, plan, start_of};
use ee_text::push_number;
use std::alloc::{AllocError, Allocator};

/// The text of the tight certificate of a script on the image that a text spells: the fewest
/// transfers that any store takes for the script's writes, and where each of them is forced. Lines
/// that read or clean are passed over.
///
/// Source: ours.
///
/// # Errors
///
/// The first cause that applies: the image is no device's, or not legal; the script has a bad line,
/// as is here a line that cuts power or turns it on; the writes make more addresses live than there
/// are slots. `Memory` can come in place of any answer.
pub fn plan_script<A: Allocator + Copy>(
    alloc: A,
    image: &[u8],
    script: &[u8],
) -> Result<Vec<u8, A>, Fault>
    ensures planned { IfOk result (λ text. IsPlanned image.now script.now text.items) }
    ensures fault { IfErr result (IsPlanningFault image.now script.now) }
    // No cause is passed over.
    ensures names { NamesEach Fault.Memory (IsPlanningFault image.now script.now) result }
{
    let certificate = planned(alloc, image, script)?;
    let mut text = Vec::new(alloc);
    write_certificate(&certificate, &mut text)?;
    Ok(text)
}

/// The tight certificate of a script on the image that a text spells.
pub(crate) fn planned<A: Allocator + Copy>(
    alloc: A,
    image: &[u8],
    script: &[u8],
) -> Result<Certificate<A>, Fault>
    ensures planned { IfOk result
        (λ certificate. IsPlannedClaim image.now script.now (claim_of certificate)) }
    ensures fault { IfErr result (IsPlanningFault image.now script.now) }
    ensures memory { IfOk result (λ _. IsPlanningFault image.now script.now Fault.Memory) }
    // No cause is passed over.
    ensures names { NamesEach Fault.Memory (IsPlanningFault image.now script.now) result }
{
    let (start, trace) = read_task(alloc, image, script)?;
    match plan(alloc, &start, &trace) {
        Ok(plan) => Ok(plan.certificate),
        Err(fault) => Err(fault_of(fault)),
    }
}

/// Checks the certificate that a text says against a script on the image that a text spells, and
/// gives what there is to print: `proved K`, K the number of transfers that no store can do
/// without. Lines of the script that read or clean are passed over.
///
/// Source: ours.
///
/// # Errors
///
/// The first cause that applies: the image is no device's, or not legal; the script has a bad line,
/// as is here a line that cuts power or turns it on, or the certificate's text has; the certificate
/// is refused. `Memory` can come in place of any answer.
pub fn check_script<A: Allocator + Copy>(
    alloc: A,
    image: &[u8],
    script: &[u8],
    certificate: &[u8],
) -> Result<Vec<u8, A>, Fault>
    ensures proved { IfOk result
        (λ text. IsProved image.now script.now certificate.now text.items) }
    ensures fault { IfErr result (IsCheckingFault image.now script.now certificate.now) }
    // No cause is passed over.
    ensures names { NamesEach Fault.Memory (IsCheckingFault image.now script.now certificate.now) result }
{
    let (start, trace) = read_task(alloc, image, script)?;
    let certificate = read_certificate(alloc, certificate)?;
    let transfers = check(alloc, &start, &trace, &certificate)?;
    let mut text = Vec::new(alloc);
    push_proved(&mut text, transfers)?;
    Ok(text)
}

/// The fault of a trace that has no plan.
fn fault_of(fault: PlanFault) -> Fault
    ensures { result ≡ fault_of_plan fault }
{
    match fault {
        PlanFault::NotFitting(change) => Fault::NotFitting(change),
        PlanFault::Memory => Fault::Memory,
    }
}

/// The start that the image of a text gives, and the trace of a script.
fn read_task<A: Allocator + Copy>(
    alloc: A,
    image: &[u8],
    script: &[u8],
) -> Result<(Start<A>, Vec<Change, A>), Fault>
    ensures task { IfOk result (λ task. IsTask image.now script.now task.0 task.1.items) }
    ensures fault { IfErr result (IsTaskFault image.now script.now) }
{
    let store = open_image(alloc, image)?;
    let start = start_of(alloc, &store)?;
    let trace = read_trace(alloc, script)?;
    Ok((start, trace))
}

/// The writes and forgettings of a script that leaves power alone.
pub(crate) fn read_trace<A: Allocator + Copy>(
    alloc: A,
    script: &[u8],
) -> Result<Vec<Change, A>, ScriptFault>
    ensures trace { IfOk result (λ trace. IsTrace script.now trace.items) }
    ensures fault { IfErr result (IsTraceFault script.now) }
{
    let mut trace = Vec::new(alloc);
    let mut rest = script;
    let mut line = 0;
    'lines: while !rest.is_empty() {
        line += 1;
        let Some((command, more)) = next_of_trace(rest) else {
            return Err(ScriptFault::BadLine(line));
        };
        push_change(&mut trace, command)?;
        rest = more;
    }
    Ok(trace)
}

/// The command whose line stands at the front of a text, and what stands behind the line. None
/// where no line stands there that a trace's script may have.
fn next_of_trace(text: &[u8]) -> Option<(Command, &[u8])>
    ensures found { IfSome result (λ parts. IsTraceCommand parts.0
        × (text.now ≡ line_of (command_text parts.0) ++ parts.1.now)) }
    ensures none { IfNone result (NoLineOf IsTraceCommand text.now) }
{
    match next_command(text) {
        Some((Command::Arm { .. } | Command::PowerOn, _)) => None,
        found => found,
    }
}

/// Puts a command at the end of a trace, if it is a change.
fn push_change<A: Allocator>(trace: &mut Vec<Change, A>, command: Command) -> Result<(), AllocError>
    ensures { OnOk result (trace.new.items ≡ trace.old.items ++ trace_of (command ∷ [])) }
{
    match command {
        Command::Write { address, .. } => trace.push(Change::Write(address))?,
        Command::Forget { address } => trace.push(Change::Forget(address))?,
        Command::Read { .. } | Command::Clean | Command::Arm { .. } | Command::PowerOn => {}
    }
    Ok(())
}

/// Writes how many transfers are proved. After an error there may be a part of the line.
fn push_proved<A: Allocator>(out: &mut Vec<u8, A>, transfers: u64) -> Result<(), AllocError>
    ensures { OnOk result (out.new.items ≡ out.old.items ++ proved_text transfers) }
{
    out.extend_from_slice(b"proved ")?;
    push_number(out, transfers)?;
    out.extend_from_slice(b"\n")
}
