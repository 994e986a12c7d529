//! Laws that hold of every device and every step, each the contract of a function that does
//! nothing.
ghost use Rattle.ee_pages.specs.Elements.{LastElementCounts};
ghost use Rattle.ee_pages.specs.Filling.{CommitCommits, FirstCommitCommits, OpensPage, OpensSet, StagesChange, WholeCommitCommits};
ghost use Rattle.ee_pages.specs.Laws.{KeptSideIsLive, OtherSetKeepsLive, OtherSetKeepsSide, ProgramLeavesWritten, StepKeepsOtherPages};
ghost use Rattle.ee_pages.specs.Pending.{ChangeCounts, EraseLowersPending, FullSetHasNoBlankPage, LiveWithinFill, ProgramKeepsPending, WholeEraseLowersPending};
ghost use Rattle.ee_pages.specs.Pushing.{MarkKeepsLive, PushTakes, WholePushTakes};
ghost use Rattle.ee_pages.specs.RescueLaws.{HeldIsRescued, LegalIsBadWhereTorn, LiveIsHeld, LiveIsRescued, LosesASet, OneWordCostsItsValue, BadWordLeavesHeld, BadWaitingWordLeavesHeld, WaitingWordCostsNothing};

/// Every outcome of a step in the set that is not live keeps the live set, its slots, its fill and
/// its meaning, and the image legal, unless the step can commit that other set.
pub fn other_set_keeps_live()
    ensures { OtherSetKeepsLive }
{}

/// Every outcome of a step in one set keeps the other, whatever stands in either, unless the step
/// can commit the set that it is in.
pub fn other_set_keeps_side()
    ensures { OtherSetKeepsSide }
{}

/// A live set that is kept so is live still.
pub fn kept_side_is_live()
    ensures { KeptSideIsLive }
{}

/// Every outcome of a step leaves each page but its own as it was, so blank or not.
pub fn step_keeps_other_pages()
    ensures { StepKeepsOtherPages }
{}

/// Every outcome of a program leaves its page not blank, or all pages as they were.
pub fn program_leaves_written()
    ensures { ProgramLeavesWritten }
{}

/// Every outcome of an active or valid mark on a page of the live set, behind written slots, keeps
/// the live set, and the other set as it was.
pub fn mark_keeps_live()
    ensures { MarkKeepsLive }
{}

/// Every outcome of programming a change into the first free slot leaves the live set as it was, a
/// slot more spoiled, or the map changed; and the other set as it was.
pub fn push_takes()
    ensures { PushTakes }
{}

/// The whole step writes the slot, and the map is changed.
pub fn whole_push_takes()
    ensures { WholePushTakes }
{}

/// A receive word on the first of blank pages opens a set for a transfer.
pub fn opens_set()
    ensures { OpensSet }
{}

/// A receive word on a further page opens it, behind written slots.
pub fn opens_page()
    ensures { OpensPage }
{}

/// A change in the first free slot of the set being filled changes the map that it will have.
pub fn stages_change()
    ensures { StagesChange }
{}

/// Every outcome of the commit keeps the live set, or makes the filled one live; and the pages of
/// the set that was live are as they were.
pub fn commit_commits()
    ensures { CommitCommits }
{}

/// The whole commit makes the filled set live.
pub fn whole_commit_commits()
    ensures { WholeCommitCommits }
{}

/// Every outcome of erasing a page that is not blank leaves as many pages that are not, or one
/// less.
pub fn erase_lowers_pending()
    ensures { EraseLowersPending }
{}

/// The whole erase leaves one less, and its page blank.
pub fn whole_erase_lowers_pending()
    ensures { WholeEraseLowersPending }
{}

/// Every outcome of a program in a page that is not blank leaves as many pages that are not.
pub fn program_keeps_pending()
    ensures { ProgramKeepsPending }
{}

/// A live set of which every slot is written has no blank page.
pub fn full_set_has_no_blank_page()
    ensures { FullSetHasNoBlankPage }
{}

/// Each address that has a value takes a slot.
pub fn live_within_fill()
    ensures { LiveWithinFill }
{}

/// A change counts one address more or less, or as many as before.
pub fn change_counts()
    ensures { ChangeCounts }
{}

/// The commit of a filled set, done whole, makes it live also where the other set is not committed,
/// and leaves that other set as it was.
pub fn first_commit_commits()
    ensures { FirstCommitCommits }
{}

/// With no forgetting among the slots, the value of an address is that of its last element.
///
/// Source: AN4894.
pub fn last_element_counts()
    ensures { LastElementCounts }
{}

/// On a legal image the live set is rescued, with its map and its generation.
pub fn live_is_rescued()
    ensures { LiveIsRescued }
{}

/// On a legal image the bad words of the live set are its torn ones.
pub fn legal_is_bad_where_torn()
    ensures { LegalIsBadWhereTorn }
{}

/// One word of the live set that went bad costs its own value, and no more. Of the two words that
/// commit the set it takes that the other set isn't begun, or is marked whole.
pub fn one_word_costs_its_value()
    ensures { OneWordCostsItsValue }
{}

/// One word of the set that waits costs nothing, by the same premise on its commit words.
pub fn waiting_word_costs_nothing()
    ensures { WaitingWordCostsNothing }
{}

/// There are two sets for which that premise fails, and a bad commit word costs the live one.
pub fn one_word_can_cost_a_set()
    ensures { LosesASet }
{}

/// A set that is live but for what stands behind its first words is rescued, and stays so.
pub fn held_is_rescued()
    ensures { HeldIsRescued }
{}

/// The live set of a legal image is such a set.
pub fn live_is_held()
    ensures { LiveIsHeld }
{}

/// It stays one after one word of it went bad, but for the two that commit it.
pub fn bad_word_leaves_held()
    ensures { BadWordLeavesHeld }
{}

/// Or one of the set that waits, but for the two that commit that set.
pub fn bad_waiting_word_leaves_held()
    ensures { BadWaitingWordLeavesHeld }
{}
