//! The changes of a trace: which address is written or forgotten, and no values.
ghost use Rattle.std.specs.Prelude.{◌≡◌, OnOk, OnErr};
ghost use Rattle.ee_check.specs.Live.{live_after_one, live_after};

use super::live_set::LiveSet;
use ee_codec::Address;
use std::alloc::{AllocError, Allocator};
use std::collections::BTreeSet;

/// What a trace says of one address: it is written, or it is forgotten.
#[derive(Clone, Copy, Debug, PartialEq, Eq)]
pub enum Change {
    /// The address has a value from here on.
    Write(Address),
    /// The address has no value from here on. One that had none is a change all the same.
    Forget(Address),
}

impl Change {
    /// Makes the change to the live addresses: one insertion or one removal. An `Err`
    /// leaves them as they were.
    pub fn make<A: Allocator + Copy>(
        self,
        live: &mut BTreeSet<Address, A>,
    ) -> Result<(), AllocError>
        ensures ok { OnOk result (live.new.keys ≡ live_after_one live.old.keys self) }
        ensures err { OnErr result (live.new.keys ≡ live.old.keys) }
    {
        match self {
            Change::Write(address) => {
                live.insert(address)?;
            }
            Change::Forget(address) => {
                live.remove(&address);
            }
        }
        Ok(())
    }
}

/// Makes the changes, one behind the other.
pub(crate) fn make_all<A: Allocator + Copy>(
    changes: &[Change],
    live: &mut LiveSet<A>,
) -> Result<(), AllocError>
    ensures { OnOk result (live.new ≡ live_after live.old changes.now) }
{
    for change in changes {
        live.make(*change)?;
    }
    Ok(())
}
