//! The command that forgets all addresses of an image.
ghost use Rattle.std.specs.Prelude.{◌≡◌, ◌↔◌, ◌++◌, IsTrue, Ok, IfOk, IfErr, OnOk};
ghost use Rattle.ee_flash.specs.Device.{IsOn};
ghost use Rattle.ee_core.specs.Emptying.{Clears};
ghost use Rattle.ee_commands.specs.Forgetting.{IsForgottenImage, IsForgetAllFault, IsHeldBack, IsSpentStore, forgotten_text};
ghost use Rattle.ee_image_store.specs.Opening.{StaysOn};
ghost use Rattle.ee_interface.specs.Causes.{NamesEach};

use ee_core::{ClearFault, Variables};
use ee_image_store::{ImageAndText, open_image, text_left};
use ee_interface::Fault;
use ee_text::push_number_behind;
use std::alloc::{AllocError, Allocator};

/// Forgets all addresses of the image that a text spells, by force or only where none has a value,
/// and gives the text of the image that this leaves, and what there is to print: `forgotten N`, N
/// how many addresses had a value.
///
/// Source: ours.
///
/// # Errors
///
/// The image is no device's, or not legal; an address has a value, and there is no force; a slot is
/// used, and no generation is left. `Memory` can come in place of any answer.
pub fn forget_all<A: Allocator + Copy>(
    alloc: A,
    force: bool,
    image: &[u8],
) -> Result<ImageAndText<A>, Fault>
    ensures forgotten { IfOk result
        (λ given. IsForgottenImage image.now given.image.items given.text.items) }
    ensures fault { IfErr result (IsForgetAllFault force image.now) }
    // No cause is passed over.
    ensures names { NamesEach Fault.Memory (IsForgetAllFault force image.now) result }
{
    let mut store = open_image(alloc, image)?;
    if is_held_back(&store, force) {
        return Err(Fault::HoldsValues);
    }
    let live = store.live_count();
    clear_still(&mut store)?;
    let image = text_left(alloc, store)?;
    let mut text = Vec::new(alloc);
    push_forgotten(&mut text, live)?;
    Ok(ImageAndText { image, text })
}

/// Whether an address has a value, and there is no force to forget it.
fn is_held_back<V: Variables>(store: &V, force: bool) -> bool
    requires { IsOn (V.device store.now) }
    ensures { IsTrue result ↔ IsHeldBack force (V.device store.now) }
{
    !force && store.live_count() > 0
}

/// Clears a store whose power is never cut. `false` if no slot was used.
fn clear_still<V: Variables>(store: &mut V) -> Result<bool, Fault>
    requires { StaysOn (V.device store.old) }
    ensures stays_on { StaysOn (V.device store.new) }
    ensures same_size { (V.device store.new).size ≡ (V.device store.old).size }
    ensures cleared { IfOk result
        (λ moved. Clears (V.device store.old) (Ok moved) (V.device store.new)) }
    ensures spent { IfErr result
        (λ fault. (fault ≡ Fault.Spent) × IsSpentStore (V.device store.old)) }
{
    match store.clear() {
        Ok(moved) => Ok(moved),
        Err(ClearFault::Spent) => Err(Fault::Spent),
        Err(ClearFault::Off | ClearFault::Cut) => unreachable!("power stays on"),
    }
}

/// Writes how many addresses had a value. After an error there may be a part of the line.
fn push_forgotten<A: Allocator>(out: &mut Vec<u8, A>, addresses: usize) -> Result<(), AllocError>
    ensures { OnOk result (out.new.items ≡ out.old.items ++ forgotten_text addresses) }
{
    push_number_behind(out, b"forgotten ", addresses as u64)?;
    out.extend_from_slice(b"\n")
}
