//! A flash of numbers made blank.
ghost use Rattle.std.specs.Prelude.{◌<◌, ◌≡◌, OnErr, OnOk, true};
ghost use Rattle.ee_flash.specs.Size.{page_count};
ghost use Rattle.ee_nor.specs.Nor.{numbers_at};
ghost use Rattle.ee_nor.specs.Wiping.{IsWipeCut, is_all_ones, with_all_wiped};

use crate::Nor;
use ee_flash::Cut;

/// Erases each page that holds something, by rising page.
pub(crate) fn wipe<N: Nor>(nor: &mut N) -> Result<(), Cut>
    requires { (N.nor nor.old).on ≡ true }
    ensures wiped { OnOk result (N.nor nor.new ≡ with_all_wiped (N.nor nor.old)) }
    ensures cut { OnErr result (IsWipeCut (N.nor nor.old) (N.nor nor.new)) }
{
    'pages: for page in 0..2 * nor.shape().pages() {
        if !is_blank(nor, page) {
            nor.erase(page)?;
        }
    }
    Ok(())
}

/// Whether each number of a page is all ones.
fn is_blank<N: Nor>(nor: &N, page: usize) -> bool
    requires { page < page_count (N.nor nor.now).size }
    ensures { result ≡ is_all_ones (numbers_at (N.nor nor.now) page) }
{
    'numbers: for at in 0..2 * nor.shape().words() {
        if nor.read(page, at) != u64::MAX {
            return false;
        }
    }
    true
}
