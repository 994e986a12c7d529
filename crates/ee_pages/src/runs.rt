//! The words of a page, several at a time.
ghost use Rattle.std.specs.Prelude.{◌≡◌, ◌<◌, ◌≤◌, ◌+◌, length};
ghost use Rattle.ee_flash.specs.Runs.{AreReadings, words_from};
ghost use Rattle.ee_flash.specs.Size.{page_count};
ghost use Rattle.ee_pages.specs.declared.runs.TheConstants.{RUN};

use ee_flash::Flash;

/// How many words a loop over a page asks its flash for at once.
pub(crate) const RUN: usize = 16;

/// What stands in the room for a run before that is read: any number. Its halves are alike, since
/// cores of 32 bits write such a number with less code.
pub(crate) const UNREAD: u64 = 0x1_0000_0001;

/// Readings of the words of a page from a place on: up to `RUN` of them, all before
/// `end`, and at least one.
#[inline(always)]
pub(crate) fn run_from<'a, F: Flash>(
    flash: &'a F,
    page: usize,
    at: usize,
    end: usize,
    room: &'a mut [u64; RUN],
) -> &'a [u64]
    requires page_in_range { page < page_count (F.device flash.now).size }
    requires place_in_range { at < end }
    requires end_in_range { end ≤ (F.device flash.now).size.words }
    ensures readings { let words = words_from (F.device flash.now) page at (length result.now) in
        AreReadings (F.reads flash.now) words result.now }
    ensures some { 0 < length result.now }
    ensures within { at + length result.now ≤ end }
{
    let count = RUN.min(end - at);
    flash.run(page, at, &mut room[..count])
}
