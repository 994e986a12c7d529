//! A rescue: the map that a set says is moved to the other set, whatever stands in either.
ghost use Rattle.std.specs.Prelude.{ℕ, ◌+◌, [], IfErr, IfOk};
ghost use Rattle.ee_codec.specs.Words.{IsGeneration};
ghost use Rattle.ee_flash.specs.Device.{IsOn};
ghost use Rattle.ee_pages.specs.Rescue.{bad_words as bad_in};
ghost use Rattle.ee_core.specs.CallSteps.{IsOlder, map_in};
ghost use Rattle.ee_core.specs.Picture.{elements_of};
ghost use Rattle.ee_core.specs.Rescues.{IsRescued, RescueFails};
ghost use Rattle.ee_core.specs.StepLists.{steps_to_move};
ghost use Rattle.ee_flash.specs.Taking.{Takes};
ghost use Rattle.ee_core.specs.Transfers.{MovesSet};

use crate::moving::transfer_by_slots;
use crate::store::{GREATEST_GENERATION, Store};
use ee_flash::{Cut, Flash};
use ee_pages::{Layout, Side, bad_words, named_generation, rescued_side};

/// What a rescue found and made.
///
/// Source: ours.
#[derive(Clone, Copy, Debug, PartialEq, Eq)]
pub struct Rescued {
    /// How many words of the set that was rescued were bad: they can't be read, or may not stand
    /// where they stood. 0 to the words of a set.
    pub bad_words: usize,
    /// How many addresses have a value, 0 to the capacity.
    pub live: usize,
}

/// Why a device isn't rescued, the first cause that applies.
///
/// Source: ours.
#[derive(Clone, Copy, Debug, PartialEq, Eq)]
pub enum RescueFault {
    /// No set is begun: in each the mark that commits it is erased. Nothing changed.
    NothingBegun,
    /// The set that would be rescued names the greatest generation, 4294967294. Nothing changed.
    Spent,
    /// Power failed. The device is off.
    Cut,
}

/// Makes a store of a device that is on, whatever stands in it. The map of the set that is rescued
/// moves to the other set, in the generation above the one that it names. It takes no memory.
///
/// Source: ours.
///
/// # Errors
///
/// The device and the first `RescueFault` that applies.
pub fn rescue<F: Flash + Drop>(flash: F) -> Result<(Store<F>, Rescued), (F, RescueFault)>
    requires { IsOn (F.device flash) }
    ensures rescued { IfOk result (λ made. IsRescued (F.device flash) made.1 made.0) }
    ensures failed { IfErr result
        (λ failed. RescueFails (F.device flash) failed.1 (F.device failed.0)) }
{
    let bad_words = bad_words(&flash);
    match rescue_uncounted(flash) {
        Ok((store, live)) => Ok((store, Rescued { bad_words, live })),
        Err(failed) => Err(failed),
    }
}

/// Makes a store as `rescue` does, and counts no bad words, so that firmware that doesn't ask for
/// them carries no code for it. Gives how many addresses have a value, 0 to the capacity.
///
/// Source: ours.
///
/// # Errors
///
/// The device and the first `RescueFault` that applies.
pub fn rescue_uncounted<F: Flash + Drop>(flash: F) -> Result<(Store<F>, usize), (F, RescueFault)>
    requires { IsOn (F.device flash) }
    ensures rescued { IfOk result (λ made. IsRescued (F.device flash)
        (record { bad_words = bad_in (F.device flash); live = made.1 }) made.0) }
    ensures failed { IfErr result
        (λ failed. RescueFails (F.device flash) failed.1 (F.device failed.0)) }
{
    let mut flash = flash;
    let Some(side) = rescued_side(&flash) else {
        return Err((flash, RescueFault::NothingBegun));
    };
    let generation = named_generation(&flash, side);
    if generation == GREATEST_GENERATION {
        return Err((flash, RescueFault::Spent));
    }
    match rescue_set(&mut flash, side, generation) {
        Ok(layout) => {
            let live = layout.fill;
            Ok((Store::of(flash, layout), live))
        }
        Err(Cut) => Err((flash, RescueFault::Cut)),
    }
}

/// Moves the map that a set says to the other set, in the generation above this one, which is no
/// smaller than the one that the set is committed with. Gives the layout there.
fn rescue_set<F: Flash>(flash: &mut F, side: Side, generation: u32) -> Result<Layout, Cut>
    requires older { IsOlder (F.device flash.old) side (generation + 1) }
    requires generation { IsGeneration (generation + 1) }
    // At an error power was cut: the map has moved, or the set is as before.
    ensures moves { MovesSet result (λ layout. layout) (F.device flash.old) (F.device flash.new)
        (record { side = side; generation = generation; fill = 0; current = 0 }) []
        (elements_of (map_in side (F.device flash.old))) }
    ensures steps { Takes result
        (steps_to_move (F.device flash.old) side generation
        (elements_of (map_in side (F.device flash.old))))
        (F.device flash.old) (F.device flash.new) }
{
    let mut layout = Layout {
        side,
        generation,
        fill: 0,
        current: 0,
    };
    transfer_by_slots(flash, &mut layout, &[], false)?;
    Ok(layout)
}
