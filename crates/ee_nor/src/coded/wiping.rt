//! A flash of numbers that is blank, but for what a first start left, or is made so.
ghost use Rattle.std.specs.Bool.{MatchBool};
ghost use Rattle.std.specs.Prelude.{◌<◌, ◌≡◌, OnErr, OnOk, drop, true};
ghost use Rattle.ee_flash.specs.Size.{page_count};
ghost use Rattle.ee_nor.specs.Coded.EccNor.{ecc_at, ecc_page};
ghost use Rattle.ee_nor.specs.Coded.Wiping.{IsEccWipeCut, MayBeNew, is_ecc_blank, is_ecc_written, with_all_ecc_wiped};

use crate::coded::ecc_nor::EccNor;
use ee_flash::Cut;

/// How many words of page 0 a first start writes.
const FIRST_WORDS: usize = 2;

/// Whether each number reads as erased but the first two of page 0.
pub(crate) fn may_be_new<N: EccNor>(nor: &N) -> bool
    ensures { MatchBool result (MayBeNew (N.ecc nor.now)) (MayBeNew (N.ecc nor.now) → ⊥) }
{
    if !is_blank_from(nor, 0, FIRST_WORDS) {
        return false;
    }
    'pages: for page in 1..2 * nor.shape().pages() {
        if !is_blank_from(nor, page, 0) {
            return false;
        }
    }
    true
}

/// Erases each page that holds something, by rising page.
pub(crate) fn wipe<N: EccNor>(nor: &mut N) -> Result<(), Cut>
    requires { (N.ecc nor.old).on ≡ true }
    ensures wiped { OnOk result (N.ecc nor.new ≡ with_all_ecc_wiped (N.ecc nor.old)) }
    ensures cut { OnErr result (IsEccWipeCut (N.ecc nor.old) (N.ecc nor.new)) }
{
    'pages: for page in 0..2 * nor.shape().pages() {
        if !is_blank_from(nor, page, 0) {
            nor.erase(page)?;
        }
    }
    Ok(())
}

/// Whether each number of a page reads as erased, from a place on.
fn is_blank_from<N: EccNor>(nor: &N, page: usize, from: usize) -> bool
    requires { page < page_count (N.ecc nor.now).size }
    ensures { result ≡ is_ecc_blank (drop from (ecc_page (N.ecc nor.now) page)) }
{
    'numbers: for at in from..nor.shape().words() {
        if is_written(nor, page, at) {
            return false;
        }
    }
    true
}

/// Whether a number reads as something else than erased, or can't be read.
fn is_written<N: EccNor>(nor: &N, page: usize, at: usize) -> bool
    requires page_in_range { page < page_count (N.ecc nor.now).size }
    requires place_in_range { at < (N.ecc nor.now).size.words }
    ensures { result ≡ is_ecc_written (ecc_at (N.ecc nor.now) page at) }
{
    nor.read(page, at) != Some(u64::MAX)
}
