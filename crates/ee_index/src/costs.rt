//! When an index pays: what looking for values has cost a store without one, beside what
//! an index would cost.
//!
//! All is counted in looks at a slot for a value, each some eight instructions. The figures were
//! taken by callgrind.

use ee_pages::BATCH;

/// What a look through the slots for a value costs besides, in looks.
const STARTING_LOOKS: u64 = 8;

/// What a used slot costs in a look for the next batch of live addresses, in looks.
const USED_SLOT_LOOKS: u64 = 2;

/// What a free slot costs in such a look, in looks.
const FREE_SLOT_LOOKS: u64 = 1;

/// What a batch costs besides, in looks, where the addresses stand in their order, as a move leaves
/// them. Where they stand in none it is up to ten times as much.
const BATCH_LOOKS: u64 = 200;

/// What an index costs for each used slot when it is made and given back, in looks.
const ENTERING_LOOKS: u64 = 10;

/// What each index costs besides when it is made and given back, as much as so many slots.
const FIXED_SLOTS: u64 = 16;

/// What an index costs with each change, in looks.
const KEEPING_LOOKS: u64 = 6;

/// What an index costs for each live address when they are moved, in looks.
const MOVING_LOOKS: u64 = 5;

/// What an index costs with each read, in looks, where its addresses rise evenly. Else it costs
/// more, the more often they can be halved.
const READING_LOOKS: u64 = 6;

/// An index is made when looking has cost so many times what it may cost, so that it takes no more
/// than a tenth of what the lines before it took.
const TIMES: u64 = 10;

/// What looking through the slots costs and what an index costs, from line to line.
#[derive(Clone, Copy)]
pub struct Costs {
    has_index: bool,
    /// How much more looking has cost than an index would have; where there is one, how
    /// much it may lose yet.
    ahead: u64,
    /// The most that `ahead` comes to.
    most: u64,
    /// How often an index lost its reserve.
    losses: u32,
    /// How many reads go by before one is measured.
    left: u32,
    /// How many reads the measured one stands for.
    apart: u32,
    /// What the next distance is taken from.
    random: u32,
}

impl Costs {
    /// Nothing was looked for yet, and there is no index.
    pub fn new() -> Costs {
        Costs {
            has_index: false,
            ahead: 0,
            most: u64::MAX,
            losses: 0,
            left: 8,
            apart: 8,
            random: 1,
        }
    }

    /// An index of so many used slots was made now. It may lose its reserve before it is given
    /// back.
    pub fn with_index(self, fill: usize) -> Costs {
        Costs {
            has_index: true,
            ahead: self.reserve(fill),
            most: self.price(fill).saturating_mul(TIMES),
            ..self
        }
    }

    /// The index was given back now.
    pub fn without_index(self) -> Costs {
        Costs {
            has_index: false,
            ahead: 0,
            most: u64::MAX,
            losses: self.losses.saturating_add(1),
            ..self
        }
    }

    /// A change was appended. Says whether an index has nothing left to lose.
    #[inline]
    pub fn note_append(&mut self) -> bool {
        self.ahead = self.ahead.saturating_sub(KEEPING_LOOKS);
        self.has_index && self.ahead == 0
    }

    /// A change moved so many live addresses, in a set of so many slots.
    pub fn note_move(&mut self, live: usize, slots: usize) {
        let looking = count_cost(live, slots, slots);
        let moving = (live as u64).saturating_mul(MOVING_LOOKS);
        self.balance(looking, moving.saturating_add(KEEPING_LOOKS));
    }

    /// An address with no value was looked for in so many used slots.
    pub fn note_absent(&mut self, fill: usize) {
        self.balance(looking(fill), reading(fill));
    }

    /// A write of a new address was refused, since each of so many slots holds a live one: it was
    /// looked for, and they were counted.
    pub fn note_full(&mut self, slots: usize) {
        let counting = count_cost(slots, slots, slots);
        self.balance(looking(slots).saturating_add(counting), reading(slots));
    }

    /// A value was read. Says whether it is this read's turn to be measured: one of some sixty is,
    /// at uneven distances.
    #[inline]
    pub fn note_read(&mut self) -> bool {
        self.left = self.left.saturating_sub(1);
        self.measures_now()
    }

    /// Whether the read that was noted last is to be measured.
    #[inline]
    pub fn measures_now(&self) -> bool {
        self.left == 0
    }

    /// This read, which is measured, takes so many looks, or one in an index of so many addresses.
    /// It stands for those since the one before it.
    pub fn measure_read(&mut self, looks: usize, addresses: usize) {
        let reads = u64::from(self.apart);
        self.balance(
            looking(looks).saturating_mul(reads),
            reading(addresses).saturating_mul(reads),
        );
        self.random = self
            .random
            .wrapping_mul(1_664_525)
            .wrapping_add(1_013_904_223);
        self.apart = 1 + (self.random >> 25);
        self.left = self.apart;
    }

    /// Whether the other kind of store pays by now, where so many slots are used.
    pub fn is_time_to_change(&self, fill: usize) -> bool {
        if self.has_index {
            return self.ahead == 0;
        }
        self.ahead >= self.price(fill).saturating_mul(TIMES)
    }

    /// Whether an index pays for one count of so many live addresses, in a set of which so
    /// many slots are used.
    pub fn pays_for_a_count(&self, live: usize, fill: usize, slots: usize) -> bool {
        count_cost(live, fill, slots) >= self.price(fill)
    }

    /// What an index of so many used slots may cost: its making, and its reserve.
    fn price(&self, fill: usize) -> u64 {
        making(fill).saturating_add(self.reserve(fill))
    }

    /// What an index may lose against looking before it is given back: half of what its making
    /// costs, and twice as much each time that this was too little, for a move may be still to come
    /// that makes up for it.
    fn reserve(&self, fill: usize) -> u64 {
        (making(fill) / 2).saturating_mul(1 << self.losses.min(32))
    }

    fn balance(&mut self, looking: u64, indexed: u64) {
        let ahead = self.ahead.saturating_add(looking).min(self.most);
        self.ahead = ahead.saturating_sub(indexed);
    }
}

/// What so many live addresses cost to count in a set of which so many slots are used.
fn count_cost(live: usize, fill: usize, slots: usize) -> u64 {
    let free = slots.saturating_sub(fill) as u64;
    let batch_looks = (fill as u64)
        .saturating_mul(USED_SLOT_LOOKS)
        .saturating_add(free.saturating_mul(FREE_SLOT_LOOKS))
        .saturating_add(BATCH_LOOKS);
    ((live / BATCH) as u64 + 1).saturating_mul(batch_looks)
}

/// What an index of so many used slots costs when it is made and given back.
fn making(fill: usize) -> u64 {
    (fill as u64)
        .saturating_add(FIXED_SLOTS)
        .saturating_mul(ENTERING_LOOKS)
}

/// What a look through so many slots costs.
fn looking(looks: usize) -> u64 {
    (looks as u64).saturating_add(STARTING_LOOKS)
}

/// What a read in an index of so many addresses costs, between where they rise evenly
/// and where they don't.
fn reading(addresses: usize) -> u64 {
    u64::from((usize::BITS - addresses.leading_zeros()) / 2).saturating_add(READING_LOOKS)
}
