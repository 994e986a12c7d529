//! The live addresses as a table of all addresses, in which a change takes one look.
ghost use Rattle.std.specs.Prelude.{◌≡◌, [], length, IfOk};
ghost use Rattle.ee_check.specs.Live.{live_after_one};

use super::change::Change;
use ee_codec::Address;
use std::alloc::{AllocError, Allocator};
use std::collections::BTreeSet;
use std::marker::Model;

/// How many entries a table has: one for each number of 16 bits.
const ENTRIES: usize = 65536;

/// Which addresses are live, as a table of all of them: a change takes one look. It takes 64 KB.
#[derive(Drop)]
pub(crate) struct LiveTable<A: Allocator> {
    is_live: Vec<bool, A>,
    /// How many addresses are live.
    count: u64,
}

impl<A: Allocator> Model for LiveTable<A> {
    ghost use Rattle.std.specs.Prelude.{◌≡◌, ℕ, List, length};
    ghost use Rattle.ee_check.specs.Table.{addresses_from};

    ghost Value = { List ℕ };

    ghost view = { λ t. addresses_from 0 t.is_live.items };

    ghost invariant = { λ t.
        (length t.is_live.items ≡ 65536) × (t.count ≡ length (addresses_from 0 t.is_live.items)) };
}

impl<A: Allocator + Copy> LiveTable<A> {
    /// No address is live.
    pub(crate) fn new(alloc: A) -> Result<LiveTable<A>, AllocError>
        ensures { IfOk result (λ table. table ≡ []) }
    {
        Ok(LiveTable {
            is_live: vec![in alloc; false; ENTRIES]?,
            count: 0,
        })
    }

    /// The addresses of a set.
    pub(crate) fn of<B: Allocator>(
        alloc: A,
        live: &BTreeSet<Address, B>,
    ) -> Result<LiveTable<A>, AllocError>
        ensures { IfOk result (λ table. table ≡ live.now.keys) }
    {
        let mut table = LiveTable::new(alloc)?;
        for address in live {
            table.make(Change::Write(*address));
        }
        Ok(table)
    }
}

impl<A: Allocator> LiveTable<A> {
    /// Makes the change.
    pub(crate) fn make(&mut self, change: Change)
        ensures { self.new ≡ live_after_one self.old change }
    {
        match change {
            Change::Write(address) => {
                let index = address.get() as usize;
                self.count += !self.is_live[index] as u64;
                self.is_live[index] = true;
            }
            Change::Forget(address) => {
                let index = address.get() as usize;
                self.count -= self.is_live[index] as u64;
                self.is_live[index] = false;
            }
        }
    }

    /// How many addresses are live.
    pub(crate) fn len(&self) -> u64
        ensures { result ≡ length self.now }
    {
        self.count
    }
}
