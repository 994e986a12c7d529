//! Forgetting a record, and the words that it doesn't need.
ghost use Rattle.std.specs.Prelude.{◌≡◌, false, true};
ghost use Rattle.ee_flash.specs.Device.{IsOn};
ghost use Rattle.ee_records.specs.Calls.{ForgetsRecord, IsNeeded, TrimsRecord};
ghost use Rattle.ee_records.specs.Steps.{ForgetsOne};

use crate::fault::TrimFault;
use crate::record::Record;
use crate::words::{word_turn, words_with};
use ee_codec::Address;
use ee_core::{ForgetFault, Variables};

impl Record {
    /// Takes the record away, by one slot. Its words stay, and take slots at moves: `trim` takes
    /// them away.
    ///
    /// # Errors
    ///
    /// The first `ForgetFault` that applies: `Absent` where there is no head.
    ///
    /// Source: ours.
    pub fn forget<V: Variables>(&self, store: &mut V) -> Result<(), ForgetFault>
        ensures { ForgetsRecord (V.device store.old) self.now.base self.now.words result
            (V.device store.new) }
    {
        match store.forget(self.base()) {
            Ok(_) => Ok(()),
            Err(fault) => Err(fault),
        }
    }

    /// Takes away the values at the record's addresses that it doesn't need, each by one slot: the
    /// other address of each word, and the words behind its end; all of them where there is no
    /// record. Each of them takes a slot at every move while it has a value.
    ///
    /// # Errors
    ///
    /// The first `TrimFault` that applies.
    ///
    /// Source: ours.
    pub fn trim<V: Variables>(&self, store: &mut V) -> Result<(), TrimFault>
        ensures { TrimsRecord (V.device store.old) self.now.base self.now.words result
            (V.device store.new) }
    {
        let Ok(head) = store.read(self.base()) else {
            return Err(TrimFault::Off);
        };
        'places: for at in 0..2 * words_with(self.capacity()) {
            let word = at / 2;
            let turn = (at % 2) as u32;
            if !is_needed(head, word, turn) {
                forget_value(store, self.place(word, turn))?;
            }
        }
        Ok(())
    }
}

/// Whether the record with this head needs the word at its address by this turn.
fn is_needed(head: Option<u32>, word: usize, turn: u32) -> bool
    ensures yes { result ≡ true → IsNeeded head word turn }
    ensures no { result ≡ false → ¬ IsNeeded head word turn }
{
    match head {
        Some(head) => {
            word < words_with((head % 65536) as usize) && word_turn(head / 65536, word) == turn
        }
        None => false,
    }
}

/// Takes the value of an address away, if it has one.
fn forget_value<V: Variables>(store: &mut V, address: Address) -> Result<(), TrimFault>
    requires { IsOn (V.device store.old) }
    ensures { ForgetsOne (V.device store.old) address result (V.device store.new) }
{
    match store.forget(address) {
        Ok(_) => Ok(()),
        Err(ForgetFault::Absent) => Ok(()),
        Err(ForgetFault::Off) => Err(TrimFault::Off),
        Err(ForgetFault::Spent) => Err(TrimFault::Spent),
        Err(ForgetFault::Cut) => Err(TrimFault::Cut),
    }
}
