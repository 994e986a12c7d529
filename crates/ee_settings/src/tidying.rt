//! Tidying: each address that has a value and that no setting and no record has is forgotten.
ghost use Rattle.std.specs.Prelude.{◌≡◌, ◌≢◌, ℕ, None, IfOk, IfErr, OnOk, length};
ghost use Rattle.ee_flash.specs.Device.{IsOn};
ghost use Rattle.ee_pages.specs.LiveOrder.{AreNextLive};
ghost use Rattle.ee_core.specs.State.{state_of};
ghost use Rattle.ee_settings.specs.Tidying.{ForgetsEach, Stops, Tidies, unnamed_among, unnamed_of};

use crate::fault::TidyFault;
use crate::schema::Schema;
use crate::settings::Settings;
use ee_codec::Address;
use ee_core::{ForgetFault, Variables};
use ee_pages::Batch;
use std::alloc::Allocator;

impl<A: Allocator> Schema<A> {
    /// Forgets each address that has a value and that no setting and no record has, by rising
    /// address, and gives how many there were: 0 to the slots. `laws` says what is read then.
    ///
    /// # Errors
    ///
    /// The first `TidyFault` that applies. `Spent` and `Cut` are the answer of a forgetting that
    /// was made, behind others: what was forgotten before it stays so.
    ///
    /// Source: ours.
    pub fn tidy<V: Variables>(&self, store: &mut V) -> Result<u64, TidyFault>
        ensures { Tidies self.now (V.device store.old) result (V.device store.new) }
    {
        if !store.is_on() {
            return Err(TidyFault::Off);
        }
        let mut forgotten = 0;
        let mut after = None;
        'forgetting: loop {
            let batch = store.next_batch(after);
            forgotten += forget_unnamed(self.settings(), store, &batch.found)?;
            let Some(through) = batch.through else {
                return Ok(forgotten);
            };
            after = Some(through);
        }
    }
}

/// Forgets those of the next live addresses that no setting and no record has, and gives how many
/// there were.
fn forget_unnamed<A: Allocator, V: Variables>(
    settings: &Settings<A>,
    store: &mut V,
    found: &Batch,
) -> Result<u64, TidyFault>
    requires on { IsOn (V.device store.old) }
    requires live { (above : ℕ)
        × AreNextLive (state_of (V.device store.old)).map above found.now.items }
    ensures count { IfOk result (λ count.
        count ≡ length (unnamed_among settings.now found.now.items)) }
    ensures forgotten { OnOk result (ForgetsEach (unnamed_among settings.now found.now.items)
        (V.device store.old) (V.device store.new)) }
    ensures stopped { IfErr result (λ fault. Stops (unnamed_among settings.now found.now.items)
        (V.device store.old) fault (V.device store.new)) }
{
    let mut forgotten = 0;
    let mut place = 0;
    'each: while let Some((address, _)) = found.get(place) {
        forgotten += forget_one(settings, store, address)?;
        place += 1;
    }
    Ok(forgotten)
}

/// Forgets an address that has a value, if no setting and no record has it, and gives how many that
/// is: 1, or 0.
fn forget_one<A: Allocator, V: Variables>(
    settings: &Settings<A>,
    store: &mut V,
    address: Address,
) -> Result<u64, TidyFault>
    requires on { IsOn (V.device store.old) }
    requires live { (state_of (V.device store.old)).map address ≢ None }
    ensures count { IfOk result (λ count. count ≡ length (unnamed_of settings.now address)) }
    ensures forgotten { OnOk result (ForgetsEach (unnamed_of settings.now address)
        (V.device store.old) (V.device store.new)) }
    ensures stopped { IfErr result (λ fault. Stops (unnamed_of settings.now address)
        (V.device store.old) fault (V.device store.new)) }
{
    if settings.has(address) {
        return Ok(0);
    }
    match store.forget(address) {
        Ok(_) => Ok(1),
        Err(ForgetFault::Spent) => Err(TidyFault::Spent),
        Err(ForgetFault::Cut) => Err(TidyFault::Cut),
        Err(ForgetFault::Off | ForgetFault::Absent) => {
            unreachable!("the device is on, and the address has a value")
        }
    }
}
