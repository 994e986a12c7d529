//! The set that isn't live: how many of its pages wait to be erased, and the erasing of one.
ghost use Rattle.std.specs.Prelude.{◌≡◌, ◌<◌, ◌≤◌, ◌⊎◌, ℕ, ◌+◌, [], ◌∷◌, IfNone, IfSome, OnErr, OnOk, false, true};
ghost use Rattle.ee_flash.specs.Device.{IsOn, page_at};
ghost use Rattle.ee_flash.specs.Power.{Ends};
ghost use Rattle.ee_pages.specs.Laws.{IsPageOf, KeepsLiveSet};
ghost use Rattle.ee_pages.specs.Layout.{IsLayout};
ghost use Rattle.ee_pages.specs.Page.{is_blank};
ghost use Rattle.ee_pages.specs.Sets.{first_page as first_of, other as other_of, pending_of, set_of};
ghost use Rattle.ee_core.specs.CallSteps.{ErasesPage};
ghost use Rattle.ee_core.specs.CleanedPage.{CleansPage};
ghost use Rattle.ee_core.specs.Finished.{IsMarked};
ghost use Rattle.ee_core.specs.StepLists.{steps_of_clean};
ghost use Rattle.ee_flash.specs.Taking.{Takes};
ghost use Rattle.ee_flash.specs.Step.{Erase};

use ee_flash::{Cut, Flash};
use ee_pages::{Layout, Side, first_page, is_blank as page_is_blank};

/// Erases the lowest page of the other set that is not blank. `false` if there is none.
pub fn clean<F: Flash>(flash: &mut F, layout: &Layout) -> Result<bool, Cut>
    requires layout { IsLayout (F.device flash.old) layout.now }
    ensures keeps { KeepsLiveSet (F.device flash.old) (F.device flash.new)
        layout.now.side layout.now.generation }
    ensures cleans { CleansPage result (F.device flash.old) (F.device flash.new)
        layout.now.side }
    ensures marked { IsMarked (F.device flash.old) layout.now.side
        → OnOk result (IsMarked (F.device flash.new) layout.now.side) }
    ensures steps { Takes result (steps_of_clean (F.device flash.old))
        (F.device flash.old) (F.device flash.new) }
    ensures power { Ends result (F.device flash.old) (F.device flash.new) }
{
    let Some(page) = first_pending(flash, layout.side.other()) else {
        return Ok(false);
    };
    erase_other(flash, layout.side, page)?;
    Ok(true)
}

/// Erases a page, which is not blank, of the other set, whatever stands in either.
pub(crate) fn erase_other<F: Flash>(flash: &mut F, side: Side, page: usize) -> Result<(), Cut>
    requires page { IsPageOf (F.device flash.old).size (other_of side) page }
    requires not_blank { is_blank (page_at (F.device flash.old) page) ≡ false }
    // At an error power was cut: each word of the page is as before, erased or torn.
    ensures erases { ErasesPage result (F.device flash.old) (F.device flash.new) side page }
    ensures steps { Takes result (Erase page ∷ []) (F.device flash.old) (F.device flash.new) }
{
    flash.erase(page)?;
    Ok(())
}

/// The lowest page of a set that is not blank, by its number in the device.
fn first_pending<F: Flash>(flash: &F, side: Side) -> Option<usize>
    ensures page { IfSome result (IsPageOf (F.device flash.now).size side) }
    ensures not_blank { IfSome result
        (λ page. is_blank (page_at (F.device flash.now) page) ≡ false) }
    ensures some { IfSome result (λ page. 0 < pending_of (set_of side (F.device flash.now))) }
    ensures lowest { let device = F.device flash.now in IfSome result
        (λ found. (page : ℕ) → first_of device.size side ≤ page → page < found
        → is_blank (page_at device page) ≡ true) }
    ensures none { IfNone result (pending_of (set_of side (F.device flash.now)) ≡ 0) }
{
    let first = first_page(flash, side);
    'lower: for page in first..first + flash.shape().pages() {
        if !page_is_blank(flash, page) {
            return Some(page);
        }
    }
    None
}

/// How many pages of a set are not blank, 0 to 64. Those of the set that is not live wait to be
/// erased.
///
/// Source: ours.
pub fn count_pending<F: Flash>(flash: &F, side: Side) -> usize
    ensures { result ≡ pending_of (set_of side (F.device flash.now)) }
{
    let first = first_page(flash, side);
    let mut count = 0;
    'pages: for page in first..first + flash.shape().pages() {
        if !page_is_blank(flash, page) {
            count += 1;
        }
    }
    count
}
