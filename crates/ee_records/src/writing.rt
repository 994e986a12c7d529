//! Writing a record: the words that change, and then its head.
ghost use Rattle.std.specs.Prelude.{◌≡◌, ◌<◌, ◌≤◌, ◌*◌, ◌+◌, ◌^◌, OnOk, length};
ghost use Rattle.ee_flash.specs.Device.{IsOn};
ghost use Rattle.ee_core.specs.State.{state_of};
ghost use Rattle.ee_records.specs.Calls.{AreChanged, AreChangedIn, AreWrites, PreparesRecord, WritesRecord, turning};
ghost use Rattle.ee_records.specs.Record.{words_with};
ghost use Rattle.ee_records.specs.Steps.{AreTurnsIn, AreUnchanged, EndsSo, HaveWords, KeepsCounted, PutsOne};

use crate::fault::RecordFault;
use crate::record::Record;
use crate::words::{has_value, record_word, word_turn, words_with};
use ee_codec::Address;
use ee_core::{Put, Variables, WriteFault};

/// Each of the sixteen turns.
const ALL_TURNS: u32 = 65535;

impl Record {
    /// Writes the record: after this call, and after a cut in it too, it has these bytes or is as
    /// it was. Each word that changes takes a slot, the check another, and the head a third; in a
    /// record of more than 60 bytes the words that share a turn with one of them may take one too.
    /// Where nothing changes no slot is taken, and it answers `false`.
    ///
    /// # Errors
    ///
    /// The first `RecordFault` that applies.
    ///
    /// Source: ours.
    pub fn write<V: Variables>(&self, store: &mut V, bytes: &[u8]) -> Result<bool, RecordFault>
        ensures { WritesRecord (V.device store.old) self.now.base self.now.words bytes.now result
            (V.device store.new) }
    {
        let Some(put) = self.prepare(store, bytes)? else {
            return Ok(false);
        };
        put_value(store, put.address, put.value)?;
        Ok(true)
    }

    /// Makes all of a write but its last single write, and gives that: a value that `write` or
    /// `write_all` is to write before the record is prepared or written again. So several records
    /// are written at once or none is, beside other variables, by one list. `None` where the record
    /// has these bytes already. The record is as it was until that value is written.
    ///
    /// # Errors
    ///
    /// The first `RecordFault` that applies.
    ///
    /// Source: ours.
    pub fn prepare<V: Variables>(
        &self,
        store: &mut V,
        bytes: &[u8],
    ) -> Result<Option<Put>, RecordFault>
        ensures { PreparesRecord (V.device store.old) self.now.base self.now.words bytes.now
            result (V.device store.new) }
    {
        let Ok(old) = store.read(self.base()) else {
            return Err(RecordFault::Off);
        };
        if bytes.len() > self.capacity() {
            return Err(RecordFault::TooLong);
        }
        // Where there is no record, each word goes to its first address.
        let Some(head) = old else {
            return self.turn_words(store, bytes, ALL_TURNS, ALL_TURNS);
        };
        let turns = head / 65536;
        let turned = self.changed_turns(store, bytes, turns);
        if turned == 0 && head % 65536 == bytes.len() as u32 {
            return Ok(None);
        }
        self.turn_words(store, bytes, turns, turned)
    }

    /// The turns of the words that these bytes change.
    fn changed_turns<V: Variables>(&self, store: &V, bytes: &[u8], turns: u32) -> u32
        requires on { IsOn (V.device store.now) }
        requires fits { length bytes.now ≤ 4 * self.now.words }
        ensures few { result < 2 ^ 16 }
        ensures unchanged { AreUnchanged (words_with (length bytes.now))
            (state_of (V.device store.now)).map self.now.base bytes.now turns result }
        ensures changed { AreChanged (words_with (length bytes.now))
            (state_of (V.device store.now)).map self.now.base bytes.now turns result }
    {
        let mut turned = 0;
        'words: for word in 0..words_with(bytes.len()) {
            let address = self.place(word, word_turn(turns, word));
            if !has_value(store, address, record_word(bytes, word)) {
                turned |= 1 << (word % 16);
            }
        }
        turned
    }

    /// Puts the words that turn at their other addresses, and gives the head that turns them.
    fn turn_words<V: Variables>(
        &self,
        store: &mut V,
        bytes: &[u8],
        turns: u32,
        turned: u32,
    ) -> Result<Option<Put>, RecordFault>
        requires on { IsOn (V.device store.old) }
        requires fits { length bytes.now ≤ 4 * self.now.words }
        requires turns_fit { turns < 2 ^ 16 }
        requires turned_fit { turned < 2 ^ 16 }
        requires head { AreTurnsIn (state_of (V.device store.old)).map self.now.base turns }
        requires unchanged { AreUnchanged (words_with (length bytes.now))
            (state_of (V.device store.old)).map self.now.base bytes.now turns turned }
        requires changed { AreChangedIn (words_with (length bytes.now))
            (state_of (V.device store.old)).map self.now.base bytes.now turned }
        ensures { PreparesRecord (V.device store.old) self.now.base self.now.words bytes.now
            result (V.device store.new) }
    {
        self.put_words(store, bytes, turns, turned)?;
        Ok(Some(Put {
            address: self.base(),
            value: (turns ^ turned) * 65536 + bytes.len() as u32,
        }))
    }

    /// Puts the words that turn at their other addresses, where they don't stand there.
    fn put_words<V: Variables>(
        &self,
        store: &mut V,
        bytes: &[u8],
        turns: u32,
        turned: u32,
    ) -> Result<(), RecordFault>
        requires on { IsOn (V.device store.old) }
        requires fits { length bytes.now ≤ 4 * self.now.words }
        ensures ends { EndsSo self.now.base self.now.words result (V.device store.old)
            (V.device store.new) }
        ensures kept { KeepsCounted self.now.base self.now.words turns
            (state_of (V.device store.old)).map (state_of (V.device store.new)).map }
        ensures there { OnOk result (HaveWords (words_with (length bytes.now))
            (state_of (V.device store.new)).map self.now.base bytes.now turns turned) }
        ensures paid { OnOk result (AreWrites (turning turned (words_with (length bytes.now)))
            (V.device store.old) (V.device store.new)) }
    {
        'words: for word in 0..words_with(bytes.len()) {
            if word_turn(turned, word) == 1 {
                let address = self.place(word, 1 - word_turn(turns, word));
                put_value(store, address, record_word(bytes, word))?;
            }
        }
        Ok(())
    }
}

/// Gives an address a value, if it doesn't have it.
fn put_value<V: Variables>(store: &mut V, address: Address, value: u32) -> Result<(), RecordFault>
    requires { IsOn (V.device store.old) }
    ensures { PutsOne (V.device store.old) address value result (V.device store.new) }
{
    if has_value(store, address, value) {
        return Ok(());
    }
    match store.write(address, value) {
        Ok(_) => Ok(()),
        Err(WriteFault::Off) => Err(RecordFault::Off),
        Err(WriteFault::Full) => Err(RecordFault::Full),
        Err(WriteFault::Spent) => Err(RecordFault::Spent),
        Err(WriteFault::Memory) => Err(RecordFault::Memory),
        Err(WriteFault::Cut) => Err(RecordFault::Cut),
    }
}
