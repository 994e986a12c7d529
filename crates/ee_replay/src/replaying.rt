//! The calls that answer a script on an image: a store is opened, serves the script,
//! and is left as a text.
ghost use Rattle.std.specs.Prelude.{◌≡◌, ◌⊎◌, ℕ, List, IfOk, IfErr, MatchResult, Some};
ghost use Rattle.ee_flash.specs.Device.{Device};
ghost use Rattle.ee_flash.specs.Size.{slot_count};
ghost use Rattle.ee_check.specs.Schedule.{IsProper};
ghost use Rattle.ee_core.specs.Points.{open_point};
ghost use Rattle.ee_core.specs.State.{state_of};
ghost use Rattle.ee_plan.specs.Start.{IsStartOf};
ghost use Rattle.ee_interface.specs.Script.Script.{IsFirstBadCommandLine};
ghost use Rattle.ee_replay.specs.Serving.{IsTraced};
ghost use Rattle.ee_replay.specs.Replaying.{IsReplayFault, IsReplayed, IsRunFault, IsRunOn, IsTried};
ghost use Rattle.ee_replay.specs.Reading.{IsGiven, IsNotAnswered, IsReaderFault};
ghost use Rattle.ee_image_store.specs.Opening.{HasStore, IsOpenFault, StaysOn};
ghost use Rattle.ee_interface.specs.Causes.{NamesEach};

use super::desk::{Desk, Kind};
use super::reporting::report_on;
use super::serving::Server;
use ee_check::Start;
use ee_flash::{MemFlash, Shape};
use ee_image_store::{new_store, text_of};
use ee_interface::ReplayFault;
use ee_interface::command_line::MOST_READS;
use ee_interface::script::{answer_reader, answer_script};
use std::alloc::{Allocator, Global};
use std::io::Read;

/// What a script leaves: the image as text, and the report.
///
/// Source: ours.
#[derive(Debug, Drop)]
pub struct Replayed<A: Allocator = Global> {
    /// The text of the image afterwards.
    pub image: Vec<u8, A>,
    /// One line for each line of the script, the line of the end, and the text of the
    /// certificate that no store makes the accepted changes with fewer moves, or that there
    /// is none, after a cut.
    pub report: Vec<u8, A>,
}

/// Answers a script on the store whose image a text spells, and gives the image that this leaves
/// and the report. Marks that a cut left to set are set.
///
/// Source: ours.
///
/// # Errors
///
/// The first `ReplayFault` that applies; `Memory` can come in place of any answer.
pub fn replay<A: Allocator + Copy>(
    alloc: A,
    image: &[u8],
    script: &[u8],
) -> Result<Replayed<A>, ReplayFault>
    ensures replayed { IfOk result (λ replayed.
        IsReplayed image.now script.now replayed.image.items replayed.report.items) }
    ensures fault { IfErr result (IsReplayFault image.now script.now) }
    // No cause is passed over.
    ensures names { NamesEach ReplayFault.Memory (IsReplayFault image.now script.now) result }
{
    match replay_as(alloc, image, script, Kind::AsPays) {
        // What memory an index took may be what the report wanted.
        Err(ReplayFault::Memory) => replay_as(alloc, image, script, Kind::Plain),
        replayed => replayed,
    }
}

/// `replay` on a store that keeps an index in memory. No clause says that it has one, since it gives
/// what `replay` gives: a test counts its requests for memory, also behind a cut.
///
/// Source: ours.
///
/// # Errors
///
/// The first `ReplayFault` that applies; `Memory` can come in place of any answer.
pub fn replay_indexed<A: Allocator + Copy>(
    alloc: A,
    image: &[u8],
    script: &[u8],
) -> Result<Replayed<A>, ReplayFault>
    ensures replayed { IfOk result (λ replayed.
        IsReplayed image.now script.now replayed.image.items replayed.report.items) }
    ensures fault { IfErr result (IsReplayFault image.now script.now) }
    // No cause is passed over.
    ensures names { NamesEach ReplayFault.Memory (IsReplayFault image.now script.now) result }
{
    replay_as(alloc, image, script, Kind::Indexed)
}

/// The same on this kind of store.
fn replay_as<A: Allocator + Copy>(
    alloc: A,
    image: &[u8],
    script: &[u8],
    kind: Kind,
) -> Result<Replayed<A>, ReplayFault>
    ensures replayed { IfOk result (λ replayed.
        IsReplayed image.now script.now replayed.image.items replayed.report.items) }
    ensures fault { IfErr result (IsReplayFault image.now script.now) }
    // No cause is passed over.
    ensures names { NamesEach ReplayFault.Memory (IsReplayFault image.now script.now) result }
{
    let desk = Desk::open(alloc, image, kind)?;
    run_on(alloc, desk, kind, script)
}

/// `replay` of a script that a reader gives in pieces. The image is opened before the first
/// read; what one read call gives is judged before the next; no more than `MOST_READS` read
/// calls are made, tries after an interruption among them. Of the script no more is kept than
/// one unfinished line.
///
/// Source: ours.
///
/// # Errors
///
/// The first `ReplayFault` that applies, and of those of the script the one that is met first:
/// `Read` where a read failed or there were too many, with no bad line judged before. `Memory` can
/// come in place of any answer.
pub fn replay_reader<A: Allocator + Copy, R: Read>(
    alloc: A,
    image: &[u8],
    reader: &mut R,
) -> Result<Replayed<A>, ReplayFault>
    ensures replayed { IfOk result (λ replayed. (script : List ℕ)
        × IsGiven (R.remaining reader.old) (R.remaining reader.new) script
        × IsReplayed image.now script replayed.image.items replayed.report.items) }
    ensures fault { IfErr result
        (IsReaderFault (R.remaining reader.old) (R.remaining reader.new) image.now) }
    // No cause against the image is passed over.
    ensures names { NamesEach ReplayFault.Memory (IsOpenFault image.now) result }
    // A bad line is never passed over.
    ensures bad { (script : List ℕ) (n : ℕ) → R.remaining reader.old ≡ Some script
        → HasStore image.now → IsFirstBadCommandLine script n → MatchResult result (λ _. ⊥)
        (λ fault. (fault ≡ ReplayFault.Script n) ⊎ (fault ≡ ReplayFault.Memory)
        ⊎ (fault ≡ ReplayFault.Read)) }
{
    let desk = Desk::open(alloc, image, Kind::Plain)?;
    run_reader(alloc, desk, reader)
}

/// Answers a script on a new device of this shape, which is formatted first, and gives the image
/// that this leaves and the report.
///
/// Source: ours.
///
/// # Errors
///
/// `Script`, the first bad line; `Memory` can come in place of any answer.
pub fn try_script<A: Allocator + Copy>(
    alloc: A,
    shape: Shape,
    script: &[u8],
) -> Result<Replayed<A>, ReplayFault>
    ensures tried { IfOk result (λ replayed.
        IsTried shape script.now replayed.image.items replayed.report.items) }
    ensures fault { IfErr result (IsRunFault script.now) }
    // A bad line is never passed over.
    ensures bad { (n : ℕ) → IsFirstBadCommandLine script.now n
        → MatchResult result (λ _. ⊥)
        (λ fault. (fault ≡ ReplayFault.Script n) ⊎ (fault ≡ ReplayFault.Memory)) }
{
    let new = new_store(alloc, shape)?;
    run_on(alloc, Desk::of(new), Kind::Plain, script)
}

/// Answers a script at a desk, and gives the image that this leaves and the report.
fn run_on<A: Allocator + Copy>(
    alloc: A,
    desk: Desk<A>,
    kind: Kind,
    script: &[u8],
) -> Result<Replayed<A>, ReplayFault>
    requires { StaysOn desk }
    ensures run { IfOk result (λ replayed.
        IsRunOn desk script.now replayed.image.items replayed.report.items) }
    ensures fault { IfErr result (IsRunFault script.now) }
{
    let (desk, start) = desk.started(alloc)?;
    let server = Server::new(alloc, desk, kind);
    let (server, lines) = answer_script(alloc, server, script)?;
    left_by(alloc, server, &start, lines)
}

/// The same of a script that a reader gives.
fn run_reader<A: Allocator + Copy, R: Read>(
    alloc: A,
    desk: Desk<A>,
    reader: &mut R,
) -> Result<Replayed<A>, ReplayFault>
    requires { StaysOn desk }
    ensures run { IfOk result (λ replayed. (script : List ℕ)
        × IsGiven (R.remaining reader.old) (R.remaining reader.new) script
        × IsRunOn desk script replayed.image.items replayed.report.items) }
    ensures fault { IfErr result
        (IsNotAnswered (R.remaining reader.old) (R.remaining reader.new)) }
{
    let (desk, start) = desk.started(alloc)?;
    let server = Server::new(alloc, desk, Kind::Plain);
    let (server, lines) = answer_reader(alloc, server, reader, MOST_READS)?;
    left_by(alloc, server, &start, lines)
}

/// The image and the report that a script leaves: `start` is what its trace began from, `lines` are
/// those of its answers.
fn left_by<A: Allocator + Copy>(
    alloc: A,
    server: Server<A>,
    start: &Start<A>,
    lines: Vec<u8, A>,
) -> Result<Replayed<A>, ReplayFault>
    ensures run { IfOk result (λ replayed. (old : Device) (script : List ℕ)
        → IsTraced old script (open_point server.desk) server.notes lines.items
        → IsStartOf (slot_count old.size) (state_of old) start.now → IsProper start.now
        → StaysOn old
        → IsRunOn old script replayed.image.items replayed.report.items) }
    ensures fault { IfErr result (λ fault. fault ≡ ReplayFault.Memory) }
{
    let Server {
        desk,
        notes,
        kind,
        ..
    } = server;
    let mut desk = desk;
    desk.settle_to_count(alloc, kind);
    let store = desk.into_store();
    let report = report_on(start, notes, &store, lines)?;
    let image = text_of(alloc, store.flash())?;
    Ok(Replayed { image, report })
}
