//! Laws of the rule. Each is a function that does nothing.

ghost use Rattle.omi_rule_words.specs.Opens.{OpeningKeepsWords};
ghost use Rattle.omi_rule_words.specs.BarrierKinds.{ArrivesKeep, ReleasesKeep};
ghost use Rattle.omi_rule_words.specs.CountKinds.{ChildrenAddsKeep, ChildrenSubtractsKeep, CountAddsKeep, CountSubtractsKeep, NoCountKeeps, PendingAddsKeep, PendingSubtractsKeep, ReferencesAddKeep, UncountedKeeps};
ghost use Rattle.omi_rule_words.specs.ExplicitKinds.{AllChildrenFinished, AllMembersFinished, DefersKeep, FinishesKeep, GroupStoresKeep, PlaceStoresKeep, SlotTakesKeep, StartsAloneKeep, StartsKeep, StartsNowKeep};
ghost use Rattle.omi_rule_words.specs.FreeKinds.{AllTasksGone, GivenHaveNoChild, MemberFreesKeep, OwnSubtractsKeep, RegionFreesKeep, ReturnedSubtractsKeep, TaskFreesKeep};
ghost use Rattle.omi_rule_words.specs.Kinds.{AssignClearsKeep, AssignStoresKeep, ListMovesKeep, MovesKeep, RegionFillsKeep, RegionTakesKeep, TaskFillsKeep, TaskTakesKeep, ThreadChangesKeep, ThreadStoresKeep};
ghost use Rattle.omi_rule_words.specs.Shown.{KeptWordsShow};
ghost use Rattle.omi_rule_words.specs.TaskKinds.{RuntimeStoresKeep, TaskStoresKeep};
ghost use Rattle.omi_rule_words.specs.TeamKinds.{AllHaveLeft, BeginsKeep, EndsKeep, ForksKeep, JoinsKeep, LeavesKeep};

/// The opening words of a program keep the rule on words, with the opening state, and with the actors with which the program
/// starts: no thread owes anything.
pub fn opening_keeps_words()
    ensures { OpeningKeepsWords }
{}

/// Words that keep the rule show the state, whatever threads owe.
pub fn kept_words_show()
    ensures { KeptWordsShow }
{}

/// A store into a thread's record keeps the rule on words, where the thread of the state becomes the one whose codes the record
/// has then: `begin`, `offer`, a state, and the exchange on the claim word of a thread that is asked. So does a change of a
/// thread that has the same codes.
pub fn thread_stores_keep_words()
    ensures stored { ThreadStoresKeep }
    ensures changed { ThreadChangesKeep }
{}

/// A store into a live task's record, but for its life word, counts and slots, keeps the rule on words, where the task of the
/// state becomes the one whose codes the record has then: frames, the control variables of a data environment, the tool word.
pub fn task_stores_keep_words()
    ensures { TaskStoresKeep }
{}

/// The store of the number of a task's open groups keeps the rule on words, where the task of the state has this number; and where the count
/// of a group is 0, its tasks have finished.
pub fn groups_keep_words()
    ensures stored { GroupStoresKeep }
    ensures finished { AllMembersFinished }
{}

/// A store into the runtime record keeps the rule on words, where the state has then the values whose codes the record has:
/// max-active-levels-var, and the exchange on the word of a lock.
pub fn runtime_stores_keep_words()
    ensures { RuntimeStoresKeep }
{}

/// The addition of 1 to the word for a region's arrivals, as a member arrives, and the store of the number of released
/// barriers, as member 0 releases one, keep the rule on words.
pub fn barriers_keep_words()
    ensures arrived { ArrivesKeep }
    ensures released { ReleasesKeep }
{}

/// The additions of 1 for an explicit task in the making keep the rule on words: from then on the thread owes one more on the
/// region's word for unfinished tasks, on the current task's word for unfinished children, on its word for references, or on the count of
/// the new task's group, where it has one.
pub fn adds_keep_words()
    ensures pending { PendingAddsKeep }
    ensures children { ChildrenAddsKeep }
    ensures references { ReferencesAddKeep }
    ensures count { CountAddsKeep }
    ensures no_count { NoCountKeeps }
{}

/// The subtractions of 1 for an explicit task that has finished keep the rule on words: the thread owes one less on the word. Where
/// a task's last reference is lowered, the thread is to give it back.
pub fn subtracts_keep_words()
    ensures children { ChildrenSubtractsKeep }
    ensures count { CountSubtractsKeep }
    ensures uncounted { UncountedKeeps }
    ensures own { OwnSubtractsKeep }
    ensures returned { ReturnedSubtractsKeep }
    ensures pending { PendingSubtractsKeep }
{}

/// The stores that give records back keep the rule on words: of an explicit task without a reference, of the tasks of the members
/// of a joined region, and of the region.
pub fn frees_keep_words()
    ensures task { TaskFreesKeep }
    ensures member { MemberFreesKeep }
    ensures region { RegionFreesKeep }
{}

/// What is gone: the explicit tasks of a region whose word for them is 0, and the explicit children of a task that a thread is to
/// give back, whatever threads owe.
pub fn tasks_are_gone()
    ensures region { AllTasksGone }
    ensures children { GivenHaveNoChild }
{}

/// The store of a task into the assign word of the thread for which it waits, and the thread's store that clears this word, keep
/// the rule on words.
pub fn assigns_keep_words()
    ensures stored { AssignStoresKeep }
    ensures cleared { AssignClearsKeep }
{}

/// The store that takes a free record keeps the rule on words: from then on the thread owes what the record is made for.
pub fn takes_keep_words()
    ensures region { RegionTakesKeep }
    ensures task { TaskTakesKeep }
{}

/// A private store into a record in the making, but for its life word, keeps the rule on words.
pub fn private_stores_keep_words()
    ensures region { RegionFillsKeep }
    ensures task { TaskFillsKeep }
{}

/// A to-do list that moves on, as with every event, keeps the rule on words.
pub fn lists_keep_words()
    ensures { ListMovesKeep }
{}

/// A step that leaves words, state and what its thread owes keeps the rule on words: the private loads.
pub fn moves_keep_words()
    ensures { MovesKeep }
{}

/// A thread that begins the implicit task that waited for it, by the store of its record as the current one, keeps the rule on
/// words.
pub fn begins_keep_words()
    ensures { BeginsKeep }
{}

/// The store of member 0's record as the current one, by which a thread forks, keeps the rule on words: the region and the
/// members' tasks begin, whose records stand filled.
pub fn forks_keep_words()
    ensures { ForksKeep }
{}

/// The store by which a member's implicit task ends keeps the rule on words: from then on its thread owes the addition to the
/// region's word for the members that have left.
pub fn ends_keep_words()
    ensures { EndsKeep }
{}

/// That addition keeps the rule on words, and is owed no more.
pub fn leaves_keep_words()
    ensures { LeavesKeep }
{}

/// The store by which member 0 joins the others keeps the rule on words, where no thread owes a departure from the region; none
/// does where the region's word counts as many that have left as have ended.
pub fn joins_keep_words()
    ensures joined { JoinsKeep }
    ensures all_left { AllHaveLeft }
{}

/// The store of a new explicit task's code into an empty slot of the thread's row, by which the thread defers the task, and the
/// store of the task's record as the current one, by which it starts at once, keep the rule on words: the task begins, whose
/// record stands filled, and the raises in its region and in the task that makes it are settled.
pub fn defers_keep_words()
    ensures deferred { DefersKeep }
    ensures started_now { StartsNowKeep }
{}

/// The exchange by which a thread takes a deferred task from its slot, the stores of the task's place on the thread, and the store
/// of its record as the current one, by which it starts, in a wait or at `taskyield`, keep the rule on words: from the exchange to
/// the start the task is in the thread's hand.
pub fn starts_keep_words()
    ensures taken { SlotTakesKeep }
    ensures placed { PlaceStoresKeep }
    ensures started { StartsKeep }
    ensures started_alone { StartsAloneKeep }
{}

/// The store by which an explicit task finishes keeps the rule on words: from then on its thread owes the subtractions from the
/// words for unfinished children of the task that made it, for references of the task itself and for unfinished tasks of its
/// region.
pub fn finishes_keep_words()
    ensures { FinishesKeep }
{}

/// Where the word of a live task for its unfinished explicit children is 0, each of its children has finished, whatever threads
/// owe.
pub fn children_are_counted()
    ensures { AllChildrenFinished }
{}
