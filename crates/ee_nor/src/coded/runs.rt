//! Numbers of the flash one behind another, as they read.
ghost use Rattle.std.specs.Prelude.{◌≤◌, ◌<◌, ◌≡◌, ◌+◌, length};
ghost use Rattle.ee_flash.specs.Size.{page_count};
ghost use Rattle.ee_nor.specs.Coded.Coded.{readings_from};
ghost use Rattle.ee_nor.specs.Coded.EccNor.{ecc_page};

use crate::coded::ecc_nor::EccNor;

/// Puts as many numbers as there is room for into the room, from a place of a page on, with no look
/// at what they say. One that can't be read is 0 there, which is no coded word.
pub(crate) fn fill_run<N: EccNor>(nor: &N, page: usize, at: usize, room: &mut [u64])
    requires page_in_range { page < page_count (N.ecc nor.now).size }
    requires places_in_range { at + length room.old ≤ (N.ecc nor.now).size.words }
    ensures { room.new
        ≡ readings_from (ecc_page (N.ecc nor.now) page) at (length room.old) }
{
    for (behind, reading) in room.iter_mut().enumerate() {
        *reading = nor.read(page, at + behind).unwrap_or(0);
    }
}
