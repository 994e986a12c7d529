//! Lists of values that are put at once: which addresses they have, and whether one
//! has an address twice.
ghost use Rattle.std.specs.Prelude.{◌≡◌, ◌≤◌, [], IfNone, IfSome, if◌then◌else◌, length};
ghost use Rattle.std.specs.List.{All};
ghost use Rattle.ee_codec.specs.Words.{IsAddress};
ghost use Rattle.ee_flash.specs.Size.{slot_count};
ghost use Rattle.ee_pages.specs.Layout.{IsLayout};
ghost use Rattle.ee_pages.specs.Meaning.{changed_by, live_in};
ghost use Rattle.ee_core.specs.CallSteps.{map_in};
ghost use Rattle.ee_core.specs.Puts.{AreApart, IsEachOnce, IsFirstTwice, is_put, puts_of};

use crate::change::Put;
use ee_codec::Address;
use ee_flash::Flash;
use ee_pages::{Layout, latest, live_count};

/// Whether one of the values is put at the address.
pub(crate) fn has_put(puts: &[Put], address: Address) -> bool
    ensures found { result ≡ is_put puts.now address }
    ensures proper { IsAddress address }
{
    'entries: for put in puts {
        if put.address == address {
            return true;
        }
    }
    false
}

/// Of what a transfer carries the values that are put: none, where their addresses are forgotten.
pub fn values_put(puts: &[Put], forgets: bool) -> &[Put]
    ensures { result.now ≡ (if forgets then [] else puts.now) }
{
    if forgets { &[] } else { puts }
}

/// The first entry, counted from 0, whose address an earlier one has.
pub fn first_twice(puts: &[Put]) -> Option<usize>
    ensures twice { IfSome result (IsFirstTwice puts.now) }
    ensures once { IfNone result (IsEachOnce puts.now) }
    ensures proper { IfNone result (All (λ put. IsAddress put.address) puts.now) }
{
    'entries: for place in 0..puts.len() {
        if has_put(&puts[..place], puts[place].address) {
            return Some(place);
        }
    }
    None
}

/// How many addresses have a value with these values, each of which is of an address of its own.
pub(crate) fn live_with<F: Flash>(flash: &F, layout: &Layout, puts: &[Put]) -> usize
    requires layout { IsLayout (F.device flash.now) layout.now }
    requires few { length puts.now ≤ slot_count (F.device flash.now).size }
    requires apart { AreApart (puts_of puts.now) }
    ensures { result ≡ live_in
        (changed_by (puts_of puts.now) (map_in layout.now.side (F.device flash.now))) }
{
    let mut count = live_count(flash, layout);
    'entries: for put in puts {
        if latest(flash, layout, put.address).is_none() {
            count += 1;
        }
    }
    count
}
