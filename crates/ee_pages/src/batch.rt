//! The next live addresses, as many as are found in one look through the slots.
ghost use Rattle.std.specs.Prelude.{◌≡◌, ◌≤◌, ◌<◌, ◌⊎◌, ◌+◌, ◌-◌, ◌*◌, ◌%◌, ◌/◌, ◌^◌, ℕ, [], None, length, map, take, true, false, List};
ghost use Rattle.ee_flash.specs.Runs.{AreReadings};
ghost use Rattle.ee_flash.specs.Size.{header_words};
ghost use Rattle.std.specs.List.{All};
ghost use Rattle.ee_codec.specs.Reading.{slot_of};
ghost use Rattle.ee_codec.specs.Words.{IsAddress};
ghost use Rattle.ee_pages.specs.Meaning.{meaning};
ghost use Rattle.ee_pages.specs.LiveOrder.{AreLiveThrough, above_of};
ghost use Rattle.ee_pages.specs.Nearest.{HasPlaces, IsRising, noted_above, slot_names, with_each_named};
ghost use Rattle.ee_pages.specs.Sets.{set_of, slots_of};
ghost use Rattle.ee_pages.specs.declared.batch_items.TheConstants.{BATCH};

use crate::batch_items::Batch;
use crate::find::Layout;
use crate::number::address_in;
use crate::runs::{RUN, UNREAD, run_from};
use crate::side::{Side, first_page};
use ee_codec::Address;
use ee_flash::{Flash, HEADER_WORDS, Word};

/// The live addresses of a stretch of addresses, with their values: as many as are found in one
/// look through the slots.
///
/// Source: ours.
#[derive(Drop)]
pub struct LiveBatch {
    /// By rising address.
    pub found: Batch,
    /// Behind them no address up to this one is live, or none at all.
    pub through: Option<Address>,
}

impl LiveBatch {
    /// One with no addresses. It stays out of the calls that begin with one, since it is long.
    ///
    /// Source: ours.
    #[inline(never)]
    pub fn new() -> LiveBatch
        ensures found { result.found.items ≡ [] }
        ensures through { result.through ≡ None }
    {
        LiveBatch {
            found: Batch::new(),
            through: None,
        }
    }
}

/// Puts the next live addresses above `after`, or the first of all if `after` is `None`, into a
/// batch, with their values, in place of what it held: up to `BATCH`, from one look through the
/// slots. There may be none, and more behind `through`, where addresses were forgotten. The
/// layout is the image's.
///
/// Source: ours.
pub fn next_batch<F: Flash>(
    flash: &F,
    layout: &Layout,
    after: Option<Address>,
    batch: &mut LiveBatch,
)
    ensures live { let slots = slots_of (set_of layout.now.side (F.device flash.now)) in
        AreLiveThrough (meaning slots) (above_of after) batch.new.found.items batch.new.through }
    ensures proper { All (λ found. IsAddress found.0) batch.new.found.items }
    ensures from { above_of after < 65535 }
{
    batch.found.take_out();
    gather(flash, layout.side, number_of(after), &mut batch.found);
    batch.through = batch.found.last_if_full();
    batch.found.keep_living();
}

/// The number above which a batch begins.
fn number_of(after: Option<Address>) -> u16
    ensures value { result ≡ above_of after }
    ensures fits { result < 65535 }
{
    match after {
        None => 0,
        Some(address) => address.get(),
    }
}

/// Puts in the next addresses above this one of which a slot says something, each with
/// what the last one says.
fn gather<F: Flash>(flash: &F, side: Side, above: u16, nearest: &mut Batch)
    requires above { above < 65535 }
    requires empty { nearest.old.named ≡ [] }
    ensures { let slots = slots_of (set_of side (F.device flash.now)) in
        nearest.new.named ≡ take BATCH (with_each_named above slots []) }
{
    for page in 0..flash.shape().pages() {
        gather_page(flash, side, page, above, nearest);
    }
}

/// Notes what the slots of a page say, behind those of the pages before.
fn gather_page<F: Flash>(flash: &F, side: Side, page: usize, above: u16, nearest: &mut Batch)
    requires page_in_range { page < (F.device flash.now).size.pages }
    requires above { above < 65535 }
    requires before { let device = F.device flash.now in nearest.old.named
        ≡ take BATCH (with_each_named above
        (take (page * (device.size.words - header_words)) (slots_of (set_of side device))) []) }
    ensures { let device = F.device flash.now in nearest.new.named
        ≡ take BATCH (with_each_named above
        (take ((page + 1) * (device.size.words - header_words)) (slots_of (set_of side device))) []) }
{
    let here = first_page(flash, side) + page;
    let words = flash.shape().words();
    let mut span = span_of(nearest, above);
    let mut room = [UNREAD; RUN];
    let mut at = HEADER_WORDS;
    'runs: while at < words {
        let run = run_from(flash, here, at, words, &mut room);
        at += run.len();
        span = note_all(flash, above, span, run, nearest);
    }
}

/// Notes what the words of these readings say, of so many addresses above this one, which are those
/// that have a place in the batch. Gives how many have one then.
#[inline(never)]
fn note_all<F: Flash>(
    flash: &F,
    above: u16,
    span: u32,
    readings: &[u64],
    nearest: &mut Batch,
) -> u32
    requires rising { IsRising above nearest.old.named }
    requires few { length nearest.old.named ≤ BATCH }
    requires places { HasPlaces BATCH above span nearest.old.named }
    ensures noted { (words : List Word) → AreReadings (F.reads flash.now) words readings.now
        → nearest.new.named ≡ take BATCH (with_each_named above words nearest.old.named) }
    ensures places { HasPlaces BATCH above result nearest.new.named }
{
    let mut span = span;
    for reading in readings {
        span = note_within(flash, above, span, *reading, nearest);
    }
    span
}

/// Notes what the word of a reading says, if it is of one of so many addresses above this one.
fn note_within<F: Flash>(flash: &F, above: u16, span: u32, reading: u64, nearest: &mut Batch) -> u32
    requires rising { IsRising above nearest.old.named }
    requires few { length nearest.old.named ≤ BATCH }
    requires places { HasPlaces BATCH above span nearest.old.named }
    ensures noted { (word : Word) → F.reads flash.now word reading → nearest.new.named
        ≡ take BATCH (noted_above above (slot_names (slot_of word)) nearest.old.named) }
    ensures rising { IsRising above nearest.new.named }
    ensures few { length nearest.new.named ≤ BATCH }
    ensures places { HasPlaces BATCH above result nearest.new.named }
{
    // Asked first, since most words are of an address that has no place in a batch.
    let address = address_in(reading);
    if !is_within(address, above, span) {
        return span;
    }
    let number = flash.number(reading);
    if address_in(number) != address {
        return span;
    }
    if nearest.note_any(number) {
        span_of(nearest, above)
    } else {
        span
    }
}

/// How many addresses above this one have a place in a batch.
fn span_of(nearest: &Batch, above: u16) -> u32
    requires above { above < 65535 }
    requires rising { IsRising above nearest.now.named }
    ensures { HasPlaces BATCH above result nearest.now.named }
{
    u32::from(nearest.greatest() - above)
}

/// Whether an address is one of so many above another one.
fn is_within(address: u16, above: u16, span: u32) -> bool
    requires { above + span < 65535 }
    ensures yes { result ≡ true → (above < address) × (address ≤ above + span) }
    ensures no { result ≡ false → (address ≤ above) ⊎ (above + span < address) }
{
    // One comparison, since what is no greater than `above` wraps.
    u32::from(address).wrapping_sub(u32::from(above) + 1) < span
}
