//! The whole report of a script: its answers, how the desk stands at the end, and the certificate
//! that no store could have moved its live set less often.
ghost use Rattle.std.specs.Prelude.{◌≡◌, ◌++◌, ℕ, List, IfOk, OnOk, codes, decimal, false, true};
ghost use Rattle.ee_check.specs.Schedule.{IsProper};
ghost use Rattle.ee_check.specs.Text.{text_of};
ghost use Rattle.ee_flash.specs.Device.{Device, IsOn};
ghost use Rattle.ee_flash.specs.Size.{slot_count};
ghost use Rattle.ee_plan.specs.Start.{IsStartOf};
ghost use Rattle.ee_core.specs.Points.{open_point};
ghost use Rattle.ee_core.specs.State.{state_of};
ghost use Rattle.ee_replay.specs.Report.{desk_line, end_line};
ghost use Rattle.ee_replay.specs.Serving.{IsServed, IsTraced, claim_noted};
ghost use Rattle.ee_image_store.specs.Opening.{StaysOn};

use super::noting::Notes;
use ee_check::{Start, write_certificate};
use ee_core::Variables;
use ee_text::push_number_behind;
use std::alloc::{AllocError, Allocator};

/// The whole report: the lines of the answers, how the desk stands, and the certificate of what was
/// noted, if power was not cut.
pub(crate) fn report_on<A: Allocator, B: Allocator, V: Variables>(
    start: &Start<B>,
    notes: Notes<A>,
    store: &V,
    lines: Vec<u8, A>,
) -> Result<Vec<u8, A>, AllocError>
    ensures { IfOk result (λ report. (old : Device) (script : List ℕ)
        → IsTraced old script (open_point (V.device store.now)) notes lines.items
        → IsStartOf (slot_count old.size) (state_of old) start.now → IsProper start.now
        → StaysOn old
        → IsServed old script (open_point (V.device store.now)) report.items) }
{
    let mut report = lines;
    push_desk(store, notes.transfers(), &mut report)?;
    push_certificate(start, notes, &mut report)?;
    Ok(report)
}

/// Writes the certificate of what was noted, or that there is none, after a cut. After an error
/// there may be a part of it.
fn push_certificate<A: Allocator, B: Allocator>(
    start: &Start<B>,
    notes: Notes<A>,
    report: &mut Vec<u8, A>,
) -> Result<(), AllocError>
    ensures cut { OnOk result (notes.cut ≡ true
        → report.new.items ≡ report.old.items ++ codes "no certificate\n") }
    ensures plain { OnOk result (notes.cut ≡ false
        → report.new.items ≡ report.old.items ++ text_of (claim_noted start.now notes)) }
{
    if notes.was_cut() {
        return report.extend_from_slice(b"no certificate\n");
    }
    write_certificate(&notes.into_certificate(start), report)
}

/// Writes how a store stands, or that none is open, and how often it moved. After an error there
/// may be a part of the line.
fn push_desk<A: Allocator, V: Variables>(
    store: &V,
    transfers: u64,
    report: &mut Vec<u8, A>,
) -> Result<(), AllocError>
    ensures { let device = V.device store.now in OnOk result (report.new.items
        ≡ report.old.items
        ++ desk_line (slot_count device.size) device.on (state_of device) transfers) }
{
    if store.is_on() {
        return push_end(store, transfers, report);
    }
    push_off(transfers, report)
}

/// Writes that no store is open, and how often it moved. After an error there may be
/// a part of the line.
fn push_off<A: Allocator>(transfers: u64, report: &mut Vec<u8, A>) -> Result<(), AllocError>
    ensures { OnOk result (report.new.items ≡ report.old.items
        ++ (codes "end off transfers " ++ decimal transfers ++ codes "\n")) }
{
    push_number_behind(report, b"end off transfers ", transfers)?;
    report.extend_from_slice(b"\n")
}

/// Writes how a store stands, and how often it moved. After an error there may be a part of the
/// line.
fn push_end<A: Allocator, V: Variables>(
    store: &V,
    transfers: u64,
    report: &mut Vec<u8, A>,
) -> Result<(), AllocError>
    requires { IsOn (V.device store.now) }
    ensures { let device = V.device store.now in OnOk result (report.new.items ≡ report.old.items
        ++ end_line (slot_count device.size) (state_of device) transfers) }
{
    let fill = store.fill();
    let room = store.slots() - fill;
    push_number_behind(report, b"end fill ", fill as u64)?;
    push_number_behind(report, b" room ", room as u64)?;
    push_number_behind(report, b" live ", store.live_count() as u64)?;
    push_number_behind(report, b" pending ", store.pending() as u64)?;
    push_number_behind(report, b" transfers ", transfers)?;
    report.extend_from_slice(b"\n")
}
