//! Laws that hold of every device and every step, each the contract of a function that does
//! nothing.
ghost use Rattle.ee_flash.specs.Endurance.{ProgramsNeedErases, SomePageWears};
ghost use Rattle.ee_flash.specs.Taking.{FuseDecides};
ghost use Rattle.ee_flash.specs.Laws.{CallsCompose, FuseCuts, FuseWaits, JoinedPages, NoCutLeft, NoFuseNoCut, PagesJoin, StepChangesOnePage, StepEnds, StepKeepsFormed, StepLeavesPages};

/// Every outcome of a step changes the words and the wear of one page at most.
pub fn step_changes_one_page()
    ensures { StepChangesOnePage }
{}

/// Every outcome of a step, also of a whole one, leaves the pages as a cut in it may.
pub fn step_leaves_pages()
    ensures { StepLeavesPages }
{}

/// Every outcome of a step leaves the device formed.
pub fn step_keeps_formed()
    ensures { StepKeepsFormed }
{}

/// Every outcome of a step leaves power and cuts as they were, or is one cut.
pub fn step_ends()
    ensures { StepEnds }
{}

/// A call that goes on, and then a call, end as the second call ends.
pub fn calls_compose()
    ensures { CallsCompose }
{}

/// Where no cut is left, none comes.
pub fn no_cut_left()
    ensures { NoCutLeft }
{}

/// Without a fuse no step is cut.
pub fn no_fuse_no_cut()
    ensures { NoFuseNoCut }
{}

/// As many steps as a fuse says are whole, and each burns it down by one.
pub fn fuse_waits()
    ensures { FuseWaits }
{}

/// The step after those is cut as the fuse's tear says, and the fuse is gone.
pub fn fuse_cuts()
    ensures { FuseCuts }
{}

/// Where its fuse is known, the steps of a call decide what it leaves, and whether it is cut.
pub fn fuse_decides()
    ensures { FuseDecides }
{}

/// The pages of a list of words, joined, are the list.
pub fn pages_join()
    ensures { PagesJoin }
{}

/// Pages of one length, joined and cut again, are the pages.
pub fn joined_pages()
    ensures { JoinedPages }
{}

/// No more words are programmed than were erased at the start, and the words of a page for each
/// erase, whoever takes the steps.
pub fn programs_need_erases()
    ensures { ProgramsNeedErases }
{}

/// Where a word at the least is programmed for each of N changes, some page is erased as often as N
/// divided by the words of the device says, rounded up, less one; 0 times where N is 0.
pub fn some_page_wears()
    ensures { SomePageWears }
{}
