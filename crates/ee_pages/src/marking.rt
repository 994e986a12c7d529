//! A mark as a step: none where its word is written.
ghost use Rattle.std.specs.Prelude.{◌≡◌, ◌<◌, ◌⊎◌, ℕ, OnErr, OnOk, false, true};
ghost use Rattle.ee_codec.specs.Words.{IsGeneration};
ghost use Rattle.ee_flash.specs.Device.{IsOn};
ghost use Rattle.ee_flash.specs.Size.{page_count};
ghost use Rattle.ee_flash.specs.Step.{IsCutIn, IsUntouched, device_after};
ghost use Rattle.ee_pages.specs.Page.{is_marked, marking};

use crate::state::{Mark, is_written};
use ee_codec::{MARK, receive_word};
use ee_flash::{Cut, Flash};

/// Programs a mark, unless its word is written, torn or not: then it takes no step. Pages are
/// numbered from 0, those of the first set first.
///
/// Source: ours.
///
/// # Errors
///
/// `Cut`, only with the device off afterwards: power failed in this step, or was off before it and
/// nothing changed.
pub fn mark<F: Flash>(flash: &mut F, page: usize, mark: Mark) -> Result<(), Cut>
    requires page_in_range { page < page_count (F.device flash.old).size }
    requires generation { (generation : ℕ) → mark ≡ Mark.Receive generation
        → IsGeneration generation }
    ensures present { is_marked (F.device flash.old) page mark ≡ true
        → (result ≡ Ok tt) × (F.device flash.new ≡ F.device flash.old) }
    ensures on { is_marked (F.device flash.old) page mark ≡ false
        → OnOk result (IsOn (F.device flash.old)) }
    ensures done { is_marked (F.device flash.old) page mark ≡ false
        → OnOk result (F.device flash.new ≡ device_after (marking page mark) (F.device flash.old)) }
    ensures cut { OnErr result
        (IsCutIn (marking page mark) (F.device flash.old) (F.device flash.new)
        ⊎ IsUntouched (F.device flash.old) (F.device flash.new)) }
{
    let (at, number) = match mark {
        Mark::Receive(generation) => (0, receive_word(generation)),
        Mark::Active => (1, MARK),
        Mark::Valid => (2, MARK),
        Mark::Erasing => (3, MARK),
    };
    if is_written(flash.word(page, at)) {
        return Ok(());
    }
    flash.program(page, at, number)
}
