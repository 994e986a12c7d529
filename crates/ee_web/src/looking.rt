//! What a look finds in a store: an address with its value, or how far the store is used.
ghost use Rattle.std.specs.Prelude.{◌≡◌};
ghost use Rattle.ee_web.specs.Looks.{AreStoreCounts, IsNext, IsValueRead};
ghost use Rattle.ee_web.specs.Mirror.{IsMirror, mirrored_device};
ghost use Rattle.ee_pages.specs.LiveOrder.{above_of};

use crate::answer::Answer;
use crate::draft::{DraftFlash, Drafted, Lent};
use crate::listing::ListedStep;
use ee_codec::Address;
use ee_core::count_pending;
use ee_flash::{Flash, Shape};
use ee_pages::{latest, live_count, next_live, scan};

/// What a look finds: an address with its value, 0 and 0 where there is none.
#[derive(Clone, Copy)]
pub struct Found {
    /// What is answered.
    pub answer: Answer,
    /// The address.
    pub address: u16,
    /// Its value.
    pub value: u32,
}

impl Found {
    ghost use Rattle.ee_web.specs.Looks.{found_result, none_found};

    /// What the caller is told.
    pub(crate) fn into_result(self) -> FoundResult
        ensures { result ≡ found_result self }
    {
        let (page, place) = self.answer.foreign();
        FoundResult {
            status: self.answer.status(),
            address: u32::from(self.address),
            value: self.value,
            page,
            place,
        }
    }

    /// Nothing, with this answer.
    pub(crate) fn none(answer: Answer) -> Found
        ensures { result ≡ none_found answer }
    {
        Found {
            answer,
            address: 0,
            value: 0,
        }
    }
}

/// What a look tells its caller.
///
/// Source: ours.
#[repr(C)]
#[derive(Clone, Copy)]
pub struct FoundResult {
    /// The number of an answer (`status_of` in `specs/Answers.antt`).
    pub status: usize,
    /// The address, 1 to 65534; 0 where none is found.
    pub address: u32,
    /// Its value; 0 where none is found.
    pub value: u32,
    /// The page of the foreign word, where the status is that there is one; else 0.
    pub page: usize,
    /// Its place in the page.
    pub place: usize,
}

/// What a count tells its caller.
///
/// Source: ours.
#[repr(C)]
#[derive(Clone, Copy)]
pub struct CountsResult {
    /// The number of an answer (`status_of` in `specs/Answers.antt`).
    pub status: usize,
    /// How many addresses have a value, 0 to the slots.
    pub live: usize,
    /// How many slots of the live set are used, torn ones too: 0 to the slots.
    pub fill: usize,
    /// How many of its slots are free.
    pub room: usize,
    /// Its generation, 1 to 4294967294.
    pub generation: usize,
    /// How many pages wait to be erased, 0 to 64.
    pub pending: usize,
    /// The page of the foreign word, where the status is that there is one; else 0.
    pub page: usize,
    /// Its place in the page.
    pub place: usize,
}

/// How far a store is used, all 0 where there is none.
#[derive(Clone, Copy)]
pub struct Counts {
    /// What is answered.
    pub answer: Answer,
    /// How many addresses have a value.
    pub live: usize,
    /// How many slots are used, torn ones too.
    pub fill: usize,
    /// How many slots are free.
    pub room: usize,
    /// The generation of the live set.
    pub generation: u32,
    /// How many pages wait to be erased.
    pub pending: usize,
}

impl Counts {
    ghost use Rattle.ee_web.specs.Looks.{counts_result, none_counted};

    /// What the caller is told.
    pub(crate) fn into_result(self) -> CountsResult
        ensures { result ≡ counts_result self }
    {
        let (page, place) = self.answer.foreign();
        CountsResult {
            status: self.answer.status(),
            live: self.live,
            fill: self.fill,
            room: self.room,
            generation: self.generation as usize,
            pending: self.pending,
            page,
            place,
        }
    }

    /// No counts, with this answer.
    pub(crate) fn none(answer: Answer) -> Counts
        ensures { result ≡ none_counted answer }
    {
        Counts {
            answer,
            live: 0,
            fill: 0,
            room: 0,
            generation: 0,
            pending: 0,
        }
    }
}

/// Looks an address up. It takes no step, and hands the list back.
pub(crate) fn look_up<'w, 'l, K: Lent>(
    shape: Shape,
    words: &'w [u64],
    flags: &'w [u8],
    wears: &[u64],
    listed: &'l mut [ListedStep],
    address: Address,
) -> (Found, &'l mut [ListedStep])
    requires mirror { IsMirror shape words.now flags.now wears.now }
    requires start { K.start ≡ mirrored_device shape words.now flags.now wears.now }
    requires list { listed.ghost_name ≡ K.list }
    ensures { IsValueRead K.start address result.0 }
{
    let draft = DraftFlash::<K>::of(shape, words, flags, wears, listed);
    let found = find(&draft, address);
    let Drafted { listed, .. } = draft.ended(found.answer);
    (found, listed)
}

/// Looks an address up in any device.
fn find<F: Flash>(flash: &F, address: Address) -> Found
    ensures { IsValueRead (F.device flash.now) address result }
{
    let layout = match scan(flash) {
        Ok(layout) => layout,
        Err(fault) => return Found::none(Answer::NoStore(fault)),
    };
    match latest(flash, &layout, address) {
        Some(value) => Found {
            answer: Answer::Done,
            address: address.get(),
            value,
        },
        None => Found::none(Answer::Nothing),
    }
}

/// Looks for the next address that has a value. It hands the list back.
pub(crate) fn look_on<'w, 'l, K: Lent>(
    shape: Shape,
    words: &'w [u64],
    flags: &'w [u8],
    wears: &[u64],
    listed: &'l mut [ListedStep],
    after: Option<Address>,
) -> (Found, &'l mut [ListedStep])
    requires mirror { IsMirror shape words.now flags.now wears.now }
    requires start { K.start ≡ mirrored_device shape words.now flags.now wears.now }
    requires list { listed.ghost_name ≡ K.list }
    ensures { IsNext K.start (above_of after) result.0 }
{
    let draft = DraftFlash::<K>::of(shape, words, flags, wears, listed);
    let found = find_next(&draft, after);
    let Drafted { listed, .. } = draft.ended(found.answer);
    (found, listed)
}

/// Looks for the next address in any device.
fn find_next<F: Flash>(flash: &F, after: Option<Address>) -> Found
    ensures { IsNext (F.device flash.now) (above_of after) result }
{
    let layout = match scan(flash) {
        Ok(layout) => layout,
        Err(fault) => return Found::none(Answer::NoStore(fault)),
    };
    match next_live(flash, &layout, after) {
        Some((address, value)) => Found {
            answer: Answer::Done,
            address: address.get(),
            value,
        },
        None => Found::none(Answer::Nothing),
    }
}

/// Counts what is used. It hands the list back.
pub(crate) fn count<'w, 'l, K: Lent>(
    shape: Shape,
    words: &'w [u64],
    flags: &'w [u8],
    wears: &[u64],
    listed: &'l mut [ListedStep],
) -> (Counts, &'l mut [ListedStep])
    requires mirror { IsMirror shape words.now flags.now wears.now }
    requires start { K.start ≡ mirrored_device shape words.now flags.now wears.now }
    requires list { listed.ghost_name ≡ K.list }
    ensures { AreStoreCounts K.start result.0 }
{
    let draft = DraftFlash::<K>::of(shape, words, flags, wears, listed);
    let found = find_counts(&draft);
    let Drafted { listed, .. } = draft.ended(found.answer);
    (found, listed)
}

/// Counts what is used in any device.
fn find_counts<F: Flash>(flash: &F) -> Counts
    ensures { AreStoreCounts (F.device flash.now) result }
{
    let layout = match scan(flash) {
        Ok(layout) => layout,
        Err(fault) => return Counts::none(Answer::NoStore(fault)),
    };
    Counts {
        answer: Answer::Done,
        live: live_count(flash, &layout),
        fill: layout.fill,
        room: flash.shape().slots().saturating_sub(layout.fill),
        generation: layout.generation,
        pending: count_pending(flash, layout.side.other()),
    }
}
