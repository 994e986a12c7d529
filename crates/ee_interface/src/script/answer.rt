//! The answers to a script, one line of its report each.
ghost use Rattle.std.specs.Prelude.{◌≡◌, [], ◌∷◌, ◌++◌, OnErr, OnOk};
ghost use Rattle.ee_interface.specs.Script.Answer.{GrowsByFront, report};

use ee_text::push_number;
use std::alloc::{AllocError, Allocator};

/// What a report says on one line.
#[derive(Clone, Copy, Debug, PartialEq, Eq)]
pub enum Answer {
    /// `ok`: the change was appended.
    Appended,
    /// `moved`: no slot was free, and all values were moved to the other set with the change.
    Moved,
    /// `full`: the address has no value, and there is no room for one more.
    Full,
    /// `spent`: no slot is free, and no generation is left to move the values to the other set.
    Spent,
    /// `clean`: a page was erased.
    Cleaned,
    /// `idle`: there was nothing to clean.
    Idle,
    /// The value that was read.
    Value(u32),
    /// `none`: the address has no value to read.
    NoValue,
    /// `absent`: the address has no value to forget.
    Absent,
    /// `armed`: a cut is to come.
    Armed,
    /// `cut`: power was cut. No store is open.
    Cut,
    /// `off`: no store is open.
    Off,
    /// `open`: a store is open.
    Opened,
}

/// Writes the answer's line at the end of a report. After an error the report has what it had, and
/// perhaps a front of the line.
// One for each line of a script; its call would cost as much as most lines.
#[inline(always)]
pub fn push_answer<A: Allocator>(out: &mut Vec<u8, A>, answer: Answer) -> Result<(), AllocError>
    ensures ok { OnOk result (out.new.items ≡ out.old.items ++ report (answer ∷ [])) }
    ensures err { OnErr result (GrowsByFront out.old.items (report (answer ∷ [])) out.new.items) }
{
    // The rare ones share one call.
    let rare: &[u8] = match answer {
        Answer::Appended => return out.extend_from_slice(b"ok\n"),
        Answer::Moved => return out.extend_from_slice(b"moved\n"),
        Answer::Value(value) => {
            push_number(out, u64::from(value))?;
            return out.extend_from_slice(b"\n");
        }
        Answer::NoValue => return out.extend_from_slice(b"none\n"),
        Answer::Full => b"full\n",
        Answer::Spent => b"spent\n",
        Answer::Cleaned => b"clean\n",
        Answer::Idle => b"idle\n",
        Answer::Absent => b"absent\n",
        Answer::Armed => b"armed\n",
        Answer::Cut => b"cut\n",
        Answer::Off => b"off\n",
        Answer::Opened => b"open\n",
    };
    out.extend_from_slice(rare)
}
