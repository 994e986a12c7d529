//! The marks that a transfer or a cut left to set: pages used up, the page in use,
//! pages to be erased.
ghost use Rattle.std.specs.Prelude.{◌≡◌, ◌<◌, ◌≤◌, ◌+◌, ◌-◌, OnErr, OnOk, false, not, true};
ghost use Rattle.ee_flash.specs.Power.{Ends};
ghost use Rattle.ee_flash.specs.Device.{page_at};
ghost use Rattle.ee_pages.specs.Layout.{IsLayout};
ghost use Rattle.ee_pages.specs.Page.{is_blank};
ghost use Rattle.ee_pages.specs.Pushing.{IsMarkBehind};
ghost use Rattle.ee_pages.specs.Laws.{IsPageOf};
ghost use Rattle.ee_pages.specs.Sets.{first_page as first, other as other_of};
ghost use Rattle.ee_core.specs.Finished.{IsLiveMarked, IsMarked, IsOldMarked, last_used};
ghost use Rattle.ee_core.specs.Cuts.{IsDrawnPartly, MarksOnePage};
ghost use Rattle.ee_core.specs.Openings.{ShowsCutMarks, ShowsMarks};
ghost use Rattle.ee_core.specs.CallSteps.{IsSameSet, KeepsMarks, Stays};
ghost use Rattle.ee_core.specs.Picture.{IsDrawn, marked_to, picture_of, retired_pages};
ghost use Rattle.ee_core.specs.StepLists.{steps_to_finish, steps_to_mark, steps_to_mark_live, steps_to_retire};
ghost use Rattle.ee_flash.specs.Taking.{Takes};

use ee_flash::{Cut, Flash};
use ee_pages::{Layout, Mark, first_page, is_blank as page_is_blank, mark};

/// Sets the marks that a transfer or a cut left to set: in the live set the pages before the last
/// used one become valid and that one active, in the other set each page that is not blank becomes
/// one that may be erased. A mark whose word is written already takes no step.
pub fn finish<F: Flash>(flash: &mut F, layout: &Layout) -> Result<(), Cut>
    requires { IsLayout (F.device flash.old) layout.now }
    ensures stays { Stays (F.device flash.old)
        (F.device flash.new) layout.now.side layout.now.generation }
    ensures finished { OnOk result (IsMarked (F.device flash.new) layout.now.side) }
    ensures shows { OnOk result
        (ShowsMarks (F.device flash.old) (F.device flash.new) layout.now.side) }
    ensures begun { OnErr result
        (ShowsCutMarks (F.device flash.old) (F.device flash.new) layout.now.side) }
    ensures steps { Takes result
        (steps_to_finish (F.device flash.old) layout.now.side
        (last_used (F.device flash.old) layout.now.side))
        (F.device flash.old) (F.device flash.new) }
    ensures no_step { IsMarked (F.device flash.old) layout.now.side
        → (result ≡ Ok tt) × (F.device flash.new ≡ F.device flash.old) }
    ensures power { Ends result (F.device flash.old) (F.device flash.new) }
{
    mark_live_set(flash, layout)?;
    mark_old_set(flash, layout)?;
    Ok(())
}

/// Marks the pages of the live set: those before the last used one, and that one.
fn mark_live_set<F: Flash>(flash: &mut F, layout: &Layout) -> Result<(), Cut>
    requires { IsLayout (F.device flash.old) layout.now }
    ensures stays { Stays (F.device flash.old)
        (F.device flash.new) layout.now.side layout.now.generation }
    ensures marked { OnOk result (IsLiveMarked (F.device flash.new) layout.now.side) }
    ensures live_pages { OnOk result
        (IsDrawn layout.now.side (F.device flash.new)
        (marked_to (last_used (F.device flash.old) layout.now.side)
        (picture_of layout.now.side (F.device flash.old)))) }
    ensures old_pages { OnOk result
        (IsSameSet (other_of layout.now.side) (F.device flash.old) (F.device flash.new)) }
    ensures begun { OnErr result
        (IsDrawnPartly layout.now.side (F.device flash.new)
        (picture_of layout.now.side (F.device flash.old))
        (marked_to (last_used (F.device flash.old) layout.now.side)
        (picture_of layout.now.side (F.device flash.old)))) }
    ensures old_pages_stay { OnErr result
        (IsSameSet (other_of layout.now.side) (F.device flash.old) (F.device flash.new)) }
    ensures steps { Takes result
        (steps_to_mark_live (F.device flash.old) layout.now.side
        (last_used (F.device flash.old) layout.now.side))
        (F.device flash.old) (F.device flash.new) }
    ensures fails { OnErr result (¬ IsLiveMarked (F.device flash.old) layout.now.side) }
{
    let first = first_page(flash, layout.side);
    'pages: for page in first..layout.current {
        mark_live(flash, layout, page, Mark::Valid)?;
    }
    mark_live(flash, layout, layout.current, Mark::Active)?;
    Ok(())
}

/// Marks the pages of the other set that are not blank.
fn mark_old_set<F: Flash>(flash: &mut F, layout: &Layout) -> Result<(), Cut>
    requires { IsLayout (F.device flash.old) layout.now }
    ensures stays { Stays (F.device flash.old)
        (F.device flash.new) layout.now.side layout.now.generation }
    ensures marks { KeepsMarks (F.device flash.old) (F.device flash.new) }
    ensures marked { OnOk result (IsOldMarked (F.device flash.new) (other_of layout.now.side)) }
    ensures live_pages { OnOk result
        (IsSameSet layout.now.side (F.device flash.old) (F.device flash.new)) }
    ensures old_pages { let old = F.device flash.old in OnOk result
        (IsDrawn (other_of layout.now.side) (F.device flash.new)
        (retired_pages
        (λ page. not (is_blank (page_at old (first old.size (other_of layout.now.side) + page))))
        (picture_of (other_of layout.now.side) old))) }
    ensures begun { let old = F.device flash.old in OnErr result
        (IsDrawnPartly (other_of layout.now.side) (F.device flash.new)
        (picture_of (other_of layout.now.side) old)
        (retired_pages
        (λ page. not (is_blank (page_at old (first old.size (other_of layout.now.side) + page))))
        (picture_of (other_of layout.now.side) old))) }
    ensures live_pages_stay { OnErr result
        (IsSameSet layout.now.side (F.device flash.old) (F.device flash.new)) }
    ensures steps { Takes result
        (steps_to_retire (F.device flash.old) (other_of layout.now.side))
        (F.device flash.old) (F.device flash.new) }
    ensures fails { OnErr result (¬ IsOldMarked (F.device flash.old) (other_of layout.now.side)) }
{
    let first = first_page(flash, layout.side.other());
    'pages: for page in first..first + flash.shape().pages() {
        if !page_is_blank(flash, page) {
            mark_old(flash, layout, page)?;
        }
    }
    Ok(())
}

/// Sets an active or valid mark of a page of the live set, behind written slots.
pub(crate) fn mark_live<F: Flash>(
    flash: &mut F,
    layout: &Layout,
    page: usize,
    kind: Mark,
) -> Result<(), Cut>
    requires layout { IsLayout (F.device flash.old) layout.now }
    requires from { first (F.device flash.old).size layout.now.side ≤ page }
    requires behind { IsMarkBehind (F.device flash.old) layout.now.side
        (page - first (F.device flash.old).size layout.now.side) kind }
    ensures marks { MarksOnePage result (F.device flash.old) (F.device flash.new)
        layout.now.side layout.now.generation page kind }
    ensures steps { Takes result (steps_to_mark (F.device flash.old) kind page)
        (F.device flash.old) (F.device flash.new) }
{
    mark(flash, page, kind)?;
    Ok(())
}

/// Marks a page of the other set, which is not blank, as one that may be erased.
fn mark_old<F: Flash>(flash: &mut F, layout: &Layout, page: usize) -> Result<(), Cut>
    requires layout { IsLayout (F.device flash.old) layout.now }
    requires page { IsPageOf (F.device flash.old).size (other_of layout.now.side) page }
    requires not_blank { is_blank (page_at (F.device flash.old) page) ≡ false }
    ensures marks { MarksOnePage result (F.device flash.old) (F.device flash.new)
        layout.now.side layout.now.generation page Mark.Erasing }
    ensures steps { Takes result (steps_to_mark (F.device flash.old) Mark.Erasing page)
        (F.device flash.old) (F.device flash.new) }
{
    mark(flash, page, Mark::Erasing)?;
    Ok(())
}
