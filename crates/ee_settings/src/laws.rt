//! What holds of every schema and every store. Each function does nothing: its contract is the law.
ghost use Rattle.ee_settings.specs.Laws.{CutKeepsOthers, EachTableIsJudged, ListedIsExact, NamesAreApart, RefusalsChangeNothing, SchemasAreAccepted, SetIsRead, StaleIsExact, TablesHaveOneFault, TablesSpellOnce, TidyIsARun, TidyIsSpent, TidyKeepsReadings, TidyLeavesTheNamed, TidyLeavesThisState, TidyTakesItsSteps, TidyTakesTheUnnamed};

/// A setting that was set reads as the value that was set, and each setting of another name reads
/// as before, also where the store moved its map to the other set.
pub fn set_is_read()
    ensures { SetIsRead }
{}

/// After a cut the setting reads as the new value or as before, and each other one as before.
pub fn cut_keeps_others()
    ensures { CutKeepsOthers }
{}

/// Every refusal but a cut leaves the device as it was.
pub fn refusals_change_nothing()
    ensures { RefusalsChangeNothing }
{}

/// A name has one setting at most.
pub fn names_are_apart()
    ensures { NamesAreApart }
{}

/// A table is one schema at most.
pub fn tables_spell_once()
    ensures { TablesSpellOnce }
{}

/// A table that is a schema has no first fault: only want of memory can refuse it.
pub fn schemas_are_accepted()
    ensures { SchemasAreAccepted }
{}

/// A table has one first fault at most.
pub fn tables_have_one_fault()
    ensures { TablesHaveOneFault }
{}

/// Every table is a schema or has a first fault.
#[tactic(auto, using(crate::proofs::Total::each_table_is_judged_lem))]
pub fn each_table_is_judged()
    ensures { EachTableIsJudged }
{}

/// The entries that are told as stale are rising, and are exactly those whose stored value
/// isn't in their range.
pub fn stale_is_exact()
    ensures { StaleIsExact }
{}

/// What is listed rises by address; what is said of each address is so, with its setting's entry,
/// if it has one; and each address that has a value or a setting is listed.
pub fn listed_is_exact()
    ensures { ListedIsExact }
{}

/// Each setting reads as before, whatever tidying a store answers.
pub fn tidy_keeps_readings()
    ensures { TidyKeepsReadings }
{}

/// Whatever it answers, each address has what it had, but for some that no setting has:
/// they have nothing now.
pub fn tidy_takes_the_unnamed()
    ensures { TidyTakesTheUnnamed }
{}

/// A store that was tidied to the end has the values of the settings' addresses, and no others.
pub fn tidy_leaves_the_named()
    ensures { TidyLeavesTheNamed }
{}

/// What is used of it, its generation and the pages that wait are what the forgettings make
/// of the state before.
pub fn tidy_leaves_this_state()
    ensures { TidyLeavesThisState }
{}

/// It came to that by a run of as many forgettings as the answer says, so what holds of every run
/// without cuts holds of tidying.
pub fn tidy_is_a_run()
    ensures { TidyIsARun }
{}

/// It takes the steps of these forgettings, one after another, up to a cut in one, or up to the
/// forgetting for which the store is spent.
pub fn tidy_takes_its_steps()
    ensures { TidyTakesItsSteps }
{}

/// Tidying is spent exactly where one of its forgettings is.
pub fn tidy_is_spent()
    ensures { TidyIsSpent }
{}
