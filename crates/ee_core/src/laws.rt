//! Laws of calls of any `Variables` in which power is not cut, over any run of them and of the
//! images that they leave, and of starts; each the contract of a function that does nothing.
ghost use Rattle.ee_core.specs.PageStates.{MovedWordsAreLive, PicturesTellImages, StatesAfterAppend, StatesAfterClean, StatesAfterFormat, StatesAfterOpening, StatesAfterTransfer};
ghost use Rattle.ee_core.specs.Puts.{ListsAreThere};
ghost use Rattle.ee_core.specs.Rescues.{HeldThroughCuts, OneWordCostsNoMore, WaitingWordCostsNoMore};
ghost use Rattle.ee_core.specs.Starts.{StartsEnd};
ghost use Rattle.ee_core.specs.StepLaws.{EachCallIsShort, FormatsAndRescuesAreShort};
ghost use Rattle.ee_core.specs.Runs.{CleanRunsEraseSets, EachPageWearsEverySecondTransfer, EachTransferErasesASet, NoPageWearsMore, NoTransferErasesMore, NoPageWearsMuchMore, RunsGoOn, TheStoreIsAMap};

/// Size, power and cuts are as before.
pub fn runs_go_on()
    ensures { RunsGoOn }
{}

/// In a run of single changes all wear and the pages that wait are together more by the pages of a
/// set for each transfer, and by none for any other call. Here and in the next two no page has the
/// greatest wear.
pub fn each_transfer_erases_a_set()
    ensures { EachTransferErasesASet }
{}

/// With lists of several values and clears too they are no more.
pub fn no_transfer_erases_more()
    ensures { NoTransferErasesMore }
{}

/// A run of single changes that begins and ends with no page that waits to be erased has erased one
/// set for every transfer.
pub fn clean_runs_erase_sets()
    ensures { CleanRunsEraseSets }
{}

/// With T transfers a page of the live set is erased (T + 1) / 2 times at the most, one of the
/// other set T / 2 times if it is blank at the start, and T / 2 + 1 times if it waits to be erased.
pub fn each_page_wears_every_second_transfer()
    ensures { EachPageWearsEverySecondTransfer }
{}

/// From a legal image in which no page waits to be erased, no page is erased more often than every
/// second transfer, rounded up.
pub fn no_page_wears_more()
    ensures { NoPageWearsMore }
{}

/// From any legal image, no page is erased more than once more often than every second transfer.
pub fn no_page_wears_much_more()
    ensures { NoPageWearsMuchMore }
{}

/// The map is the changes that were answered, in their order, and every read is answered by it.
pub fn the_store_is_a_map()
    ensures { TheStoreIsAMap }
{}

/// A list that has each address once is there, all of it, in the map that its puts make.
pub fn lists_are_there()
    ensures { ListsAreThere }
{}

/// After an append each page before that of its slot is valid, and that one is active, unless a
/// mark says that it is valid already.
pub fn states_after_append()
    ensures { StatesAfterAppend }
{}

/// After a transfer of changes with no address twice the used pages of the new set are valid, the
/// last of them is active and the others are erased; each page of the set that was left may be
/// erased, or is blank.
pub fn states_after_transfer()
    ensures { StatesAfterTransfer }
{}

/// After a clean step the lowest page that waited is erased, and each other one is as before.
pub fn states_after_clean()
    ensures { StatesAfterClean }
{}

/// After an opening the live set is marked as after an append, and each page of the other set is
/// erased as a whole or may be erased.
pub fn states_after_opening()
    ensures { StatesAfterOpening }
{}

/// After format the first page is active and each other one erased.
pub fn states_after_format()
    ensures { StatesAfterFormat }
{}

/// A transfer of changes with no address twice moves one word for each address that has a value
/// then.
pub fn moved_words_are_live()
    ensures { MovedWordsAreLive }
{}

/// The pictures of its two sets say all of a device's image.
pub fn pictures_tell_images()
    ensures { PicturesTellImages }
{}

/// A device with no word programmed gets an empty store by the first `start` that isn't cut; each
/// that is takes one of the cuts that are left.
pub fn starts_end()
    ensures { StartsEnd }
{}

/// Where a set is held, a rescue or an opening finds its map behind any cuts of such.
pub fn held_through_cuts()
    ensures { HeldThroughCuts }
{}

/// One word of a live set that went bad costs its own value, and no more, behind any cuts of
/// rescues and openings too. Of the two words that commit the set it takes that the bad one doesn't
/// read as erased, that the other set isn't begun, or is marked whole, and that no cut came.
pub fn one_word_costs_no_more()
    ensures { OneWordCostsNoMore }
{}

/// One word of the set that waits costs nothing; of its commit words this takes the same but that
/// the bad one may read as erased.
pub fn waiting_word_costs_no_more()
    ensures { WaitingWordCostsNoMore }
{}

/// On a legal image the steps of an opening program 2 * P words at the most, where P is the pages of
/// a set, those of an append 3, those of a clear P + 2, and those of a move one for each value that
/// lives then and 3 * P + 1: of changes with no address twice, behind which the values fit. A move
/// and a clear erase P pages at the most, a clean step one, the others none.
pub fn each_call_is_short()
    ensures { EachCallIsShort }
{}

/// On any device the steps of a format program 2 words at the most, and erase as many pages as there
/// are. Those of a move of any words that fit, as a rescue makes, program one for each and
/// 3 * P + 1, and erase P.
pub fn formats_and_rescues_are_short()
    ensures { FormatsAndRescuesAreShort }
{}
