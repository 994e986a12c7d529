//! The room of a batch: up to `BATCH` addresses with their values, and while it is
//! filled some with none.
ghost use Rattle.std.specs.Prelude.{◌≡◌, ◌≢◌, ◌<◌, ◌≤◌, ◌+◌, ◌-◌, ◌*◌, ◌/◌, ◌%◌, ◌^◌, ◌==◌, ℕ, [], ◌∷◌, ◌++◌, IfNone, IfSome, None, false, insert, length, map, slice_index, slice_index_or, slice_set, take, true};
ghost use Rattle.std.specs.List.{All};
ghost use Rattle.ee_codec.specs.Words.{IsAddress};
ghost use Rattle.ee_pages.specs.Nearest.{HasSameLast, IsOfAddress, IsRising, item_by, last_named, live_values, named_by, with_named};
ghost use Rattle.ee_pages.specs.declared.batch_items.TheConstants.{BATCH};

use crate::number::{address_in, gives_value, says_something};
use ee_codec::{Address, element_word};
use std::marker::Model;

/// How many addresses a batch has room for.
pub const BATCH: usize = 28;

/// Addresses with their values, up to `BATCH`, in the value itself. While it is filled an address
/// may stand in it that has no value.
///
/// Source: ours.
#[derive(Drop)]
pub struct Batch {
    /// The words of elements and forgettings, in the order of their addresses.
    numbers: [u64; BATCH],
    len: usize,
}

impl Model for Batch {
    ghost use Rattle.std.specs.Prelude.{◌≡◌, ◌≤◌, length, map, take};
    ghost use Rattle.std.specs.List.{All};
    ghost use Rattle.ee_pages.specs.Nearest.{Batch as Items, IsOfAddress, item_by, named_by};
    ghost use Rattle.ee_pages.specs.declared.batch_items.TheConstants.{BATCH};

    ghost Value = { Items };

    ghost view = { λ batch. record {
      named = map named_by (take batch.len batch.numbers);
      items = map item_by (take batch.len batch.numbers);
    } };

    ghost invariant = { λ batch. (batch.len ≤ BATCH) × (length batch.numbers ≡ BATCH)
        × All IsOfAddress batch.numbers };
}

impl Batch {
    /// An empty batch.
    pub fn new() -> Batch
        ensures items { result.items ≡ [] }
        ensures named { result.named ≡ [] }
    {
        // Any number of an address serves where there is none yet.
        Batch {
            numbers: [1; BATCH],
            len: 0,
        }
    }

    /// How many addresses are in it, 0 to `BATCH`.
    pub fn len(&self) -> usize
        ensures value { result ≡ length self.now.items }
        ensures fits { result ≤ BATCH }
    {
        self.len
    }

    /// Whether there is none.
    pub fn is_empty(&self) -> bool
        ensures { result ≡ (length self.now.items == 0) }
    {
        self.len == 0
    }

    /// Whether there is no room for one more.
    pub fn is_full(&self) -> bool
        ensures value { result ≡ (length self.now.items == BATCH) }
        ensures fits { length self.now.items ≤ BATCH }
    {
        self.len == BATCH
    }

    /// The address at this place, counted from 0, with its value. `None` behind the last.
    #[inline(always)]
    pub fn get(&self, place: usize) -> Option<(Address, u32)>
        ensures found { IfSome result (λ found. (place < length self.now.items)
            × (found ≡ slice_index_or self.now.items place found)) }
        ensures none { IfNone result (length self.now.items ≤ place) }
        ensures fits { length self.now.items ≤ BATCH }
    {
        if place >= self.len {
            return None;
        }
        let number = self.numbers[place];
        let address = Address::new(address_in(number))?;
        Some((address, (number >> 32) as u32))
    }

    /// Puts an address with its value behind the others.
    pub fn push(&mut self, address: Address, value: u32)
        requires { length self.old.items < BATCH }
        ensures items { self.new.items ≡ self.old.items ++ (address, value) ∷ [] }
    {
        self.numbers[self.len] = element_word(address, value);
        self.len += 1;
    }

    /// Takes all addresses out.
    pub(crate) fn take_out(&mut self)
        ensures { self.new.named ≡ [] }
    {
        self.len = 0;
    }

    /// Notes what a number with an address says of it, over what was noted of it, if it is that of
    /// an element or a forgetting. Where there is no room the last address falls out. Says whether
    /// there may be another last address, or one more, than before. It stands in the loop over a
    /// run, so that no number of an address that has a place takes a call.
    #[inline(always)]
    pub(crate) fn note_any(&mut self, number: u64) -> bool
        requires proper { IsOfAddress number }
        requires rising { (above : ℕ) × IsRising above self.old.named }
        requires few { length self.old.named ≤ BATCH }
        ensures noted { number / 2 ^ 16 % 2 ^ 16 < 2
            → self.new.named ≡ take BATCH (with_named (named_by number) self.old.named) }
        ensures unsaid { 2 ≤ number / 2 ^ 16 % 2 ^ 16 → self.new.named ≡ self.old.named }
        ensures same { result ≡ false → HasSameLast self.old.named self.new.named }
    {
        says_something(number) && self.put(number)
    }

    /// The same for an element or a forgetting.
    fn put(&mut self, number: u64) -> bool
        requires proper { IsOfAddress number }
        requires rising { (above : ℕ) × IsRising above self.old.named }
        requires few { length self.old.named ≤ BATCH }
        ensures noted { self.new.named ≡ take BATCH (with_named (named_by number) self.old.named) }
        ensures same { result ≡ false → HasSameLast self.old.named self.new.named }
    {
        let address = address_in(number);
        let through = self.place_through(address);
        if through > 0 && self.has(through - 1, address) {
            self.set(through - 1, number);
            return false;
        }
        if through < BATCH {
            self.insert(through, number);
        }
        true
    }

    /// How many of the addresses, which rise, are no greater than this one.
    fn place_through(&self, address: u16) -> usize
        ensures within { result ≤ length self.now.named }
        ensures through { 0 < result
            → (slice_index_or self.now.named (result - 1) (0, None)).0 ≤ address }
        ensures behind { result < length self.now.named
            → address < (slice_index_or self.now.named result (0, None)).0 }
    {
        place_in(&self.numbers[..self.len], address)
    }

    /// Whether this address stands at this place.
    fn has(&self, place: usize, address: u16) -> bool
        ensures yes { result ≡ true → (place < length self.now.named)
            × ((slice_index_or self.now.named place (0, None)).0 ≡ address) }
        ensures no { result ≡ false → place < length self.now.named
            → (slice_index_or self.now.named place (0, None)).0 ≢ address }
    {
        place < self.len && address_in(self.numbers[place]) == address
    }

    /// Notes of the address at this place what a number says of it.
    fn set(&mut self, place: usize, number: u64)
        requires proper { IsOfAddress number }
        requires within { place < length self.old.named }
        requires room { place < BATCH }
        ensures { self.new.named ≡ slice_set self.old.named place (named_by number) }
    {
        self.numbers[place] = number;
    }

    /// Puts a number in at this place. Where there is no room the last one falls out.
    fn insert(&mut self, place: usize, number: u64)
        requires proper { IsOfAddress number }
        requires within { place ≤ length self.old.named }
        requires room { place < BATCH }
        ensures { self.new.named ≡ take BATCH (insert self.old.named place (named_by number)) }
    {
        let end = one_more(self.len);
        put_in(&mut self.numbers, place, end, number);
        self.len = end;
    }

    /// The last address, where there is no room for one more.
    pub(crate) fn last_if_full(&self) -> Option<Address>
        ensures none { IfNone result (length self.now.named < BATCH) }
        ensures full { IfSome result (λ last. length self.now.named ≡ BATCH) }
        ensures last { (above : ℕ)
            → IfSome result (λ last. last ≡ last_named above self.now.named) }
    {
        if self.len < BATCH {
            return None;
        }
        Address::new(address_in(self.numbers[BATCH - 1]))
    }

    /// The greatest address that has a place in it: the last one, where there is no room for one
    /// more.
    pub(crate) fn greatest(&self) -> u16
        ensures room { length self.now.named < BATCH → result ≡ 65534 }
        ensures full { (above : ℕ) → length self.now.named ≡ BATCH
            → result ≡ last_named above self.now.named }
        ensures fits { length self.now.named ≤ BATCH }
        ensures proper { IsAddress result }
    {
        if self.len < BATCH {
            return u16::MAX - 1;
        }
        address_in(self.numbers[BATCH - 1])
    }

    /// Keeps those that have a value.
    pub(crate) fn keep_living(&mut self)
        ensures items { self.new.items ≡ live_values self.old.named }
        ensures proper { All (λ found. IsAddress found.0) self.new.items }
    {
        self.len = keep(&mut self.numbers, self.len);
    }
}

/// One more, up to the room of a batch.
fn one_more(count: usize) -> usize
    requires { count ≤ BATCH }
    ensures room { count < BATCH → result ≡ count + 1 }
    ensures full { count ≡ BATCH → result ≡ BATCH }
    ensures fits { result ≤ BATCH }
    ensures more { count ≤ result }
{
    if count < BATCH { count + 1 } else { BATCH }
}

/// How many of these addresses, which rise, are no greater than this one. It looks from the last
/// down, since most addresses are above all.
fn place_in(rising: &[u64], address: u16) -> usize
    ensures within { result ≤ length rising.now }
    ensures through { 0 < result → slice_index rising.now (result - 1) % 2 ^ 16 ≤ address }
    ensures behind { result < length rising.now
        → address < slice_index rising.now result % 2 ^ 16 }
{
    let mut place = rising.len();
    'behind: while place > 0 && address < address_in(rising[place - 1]) {
        place -= 1;
    }
    place
}

/// Puts a number in at this place of a list, and moves what stands from there on to before `end`
/// one further; the last of these falls out.
fn put_in(list: &mut [u64], place: usize, end: usize, number: u64)
    requires place { place ≤ end }
    requires end { end ≤ length list.old }
    ensures put { take end list.new ≡ take end (insert list.old place number) }
    ensures proper { All IsOfAddress list.old → IsOfAddress number → All IsOfAddress list.new }
{
    let mut carried = number;
    for at in place..end {
        let next = list[at];
        list[at] = carried;
        carried = next;
    }
}

/// Moves those of the first `count` that give a value to the front, and says how many there are.
fn keep(numbers: &mut [u64], count: usize) -> usize
    requires { count ≤ length numbers.old }
    ensures living { map item_by (take result numbers.new)
        ≡ live_values (map named_by (take count numbers.old)) }
    ensures few { result ≤ count }
    ensures proper { All IsOfAddress numbers.old → All IsOfAddress numbers.new }
{
    let mut kept = 0;
    for place in 0..count {
        let number = numbers[place];
        if gives_value(number) {
            numbers[kept] = number;
            kept += 1;
        }
    }
    kept
}
