//! Laws of the machine: what every state has that events reach. Each is a function that does nothing, and says its law in
//! `specs/`.

ghost use Rattle.omi_model.specs.LawAsks.{TeamsAreAsked};
ghost use Rattle.omi_model.specs.LawBarriers.{ArrivalsAreNear, PassFollowsRelease};
ghost use Rattle.omi_model.specs.LawBarriersLeft.{BarriersAreLeft};
ghost use Rattle.omi_model.specs.LawChains.{BegunTasksAreOnChains, ThreadsHaveChains};
ghost use Rattle.omi_model.specs.LawClaims.{AsksAreInOrder, ClaimsAreKept};
ghost use Rattle.omi_model.specs.LawEncounters.{RegionsAreEncountered};
ghost use Rattle.omi_model.specs.LawEnds.{RegionsEndAlone};
ghost use Rattle.omi_model.specs.LawFreeing.{FinishedMayBeFreed, JoinedMayBeFreed, RegionsAreFreed};
ghost use Rattle.omi_model.specs.LawGroups.{FinishedGroupsStay, GroupsAreRight, GroupsMayBegin};
ghost use Rattle.omi_model.specs.LawJoins.{JoinsComeLast};
ghost use Rattle.omi_model.specs.LawLevels.{LevelsCountRegions};
ghost use Rattle.omi_model.specs.LawLineage.{TasksHaveLineage};
ghost use Rattle.omi_model.specs.LawLists.{ListsAreRight};
ghost use Rattle.omi_model.specs.LawLocks.{LocksAreHeld};
ghost use Rattle.omi_model.specs.LawMembers.{MembersAreKnown};
ghost use Rattle.omi_model.specs.LawNames.{NamesAreLive};
ghost use Rattle.omi_model.specs.LawNthreads.{NthreadsShorten};
ghost use Rattle.omi_model.specs.LawOrder.{BarriersAreInOrder};
ghost use Rattle.omi_model.specs.LawProgress.{MembersAreInStep};
ghost use Rattle.omi_model.specs.LawRun.{RunIsLegal};
ghost use Rattle.omi_model.specs.LawScheduling.{SchedulingIsRight, StartsAreConstrained};
ghost use Rattle.omi_model.specs.LawStays.{Stay, StayOverAnEvent};
ghost use Rattle.omi_model.specs.LawWellFormed.{ReachedIsWellFormed};

/// Tasks and regions stay what they are: whatever events follow, the parts that say what a task or a region is keep their
/// values while it lives, and no arrival, release, start or end is undone. No event takes away a task that isn't finished, the
/// generating task of a live task, a region that isn't joined, has a live task or encloses a live region, or an implicit task
/// whose region isn't joined, has a live explicit task or encloses a live region.
pub fn what_stays()
    ensures event { StayOverAnEvent }
    ensures later { Stay }
{}

/// Each task and each region that a thread, a task or a region names is live, and a member of a team is an implicit task of
/// its region with its number and thread. Of a region that is joined, its members' tasks need not live; where a member's name is
/// that of a live task, this is the member's.
pub fn names_are_live()
    ensures { NamesAreLive }
{}

/// A region's team, arrivals and ends have one element for each member, and each implicit task is the member of its region
/// that its number says.
pub fn members_are_known()
    ensures { MembersAreKnown }
{}

/// A region's levels and active levels are those of the chain of enclosing regions, which ends.
pub fn levels_count_regions()
    ensures { LevelsCountRegions }
{}

/// A task's nthreads-var is the environment's list without one element for each level of its region, but for the head, which
/// a task may set; one element stays.
pub fn nthreads_shorten()
    ensures { NthreadsShorten }
{}

/// A member has arrived at as many barriers as its region released, or at one more; and between an arrival and a pass the
/// barrier is released, when every member has arrived and no explicit task of the region lives.
pub fn barriers_hold()
    ensures near { ArrivalsAreNear }
    ensures released { PassFollowsRelease }
{}

/// The task scheduling constraint of tied tasks: a deferred task starts as a child of the task that its thread runs, as a member
/// of that task's innermost open group, or in a barrier of its region, by a member that has arrived and not passed. So an explicit
/// task's scheduling task is its generating task, the owner of its group or a member of its region, and the chain of scheduling
/// tasks ends.
pub fn starts_are_constrained()
    ensures starts { StartsAreConstrained }
    ensures scheduled { SchedulingIsRight }
{}

/// Each thread has a chain of tasks, from its current one down by scheduling tasks: each is in it once, runs on this thread
/// and has begun and not finished, and the chain ends.
pub fn threads_have_chains()
    ensures { ThreadsHaveChains }
{}

/// Where a member may end, member 0 may join the others or the program may be done, no explicit task of the region lives, and
/// none does in any later state.
pub fn regions_end_alone()
    ensures { RegionsEndAlone }
{}

/// A region that is joined is being given back: its encountering task is current on the thread that made it, and what stands in
/// front of its list says the next member whose task is to go; the tasks of those below are gone, and those of the others live. It
/// is lawful to give this task back, and the region behind the last one; and so it is with an explicit task that has finished,
/// once no explicit child of it lives.
pub fn regions_are_freed()
    ensures freed { RegionsAreFreed }
    ensures goes_on { JoinedMayBeFreed }
    ensures finished { FinishedMayBeFreed }
{}

/// In a region that was joined every member but member 0 has ended.
pub fn joins_come_last()
    ensures { JoinsComeLast }
{}

/// A run of two threads in which each event is legal: a fork, a deferred task that the other member starts at the barrier, the
/// ends of the members, the join and the end of the program. A rule that is too strict breaks no law above, but this one.
pub fn a_run_is_legal()
    ensures { RunIsLegal }
{}

/// A team has the asking thread and then those that joined, at most as many as are wanted and as there are; where it has fewer
/// than wanted, each other thread was asked, and is in the team or was found busy.
pub fn teams_are_asked()
    ensures { TeamsAreAsked }
{}

/// Every state that events reach is well formed: what is visible names only what is visible, chains end, and numbers are in
/// their ranges.
pub fn reached_is_well_formed()
    ensures { ReachedIsWellFormed }
{}

/// A member's arrivals and the barriers left in its to-do list are the barriers of its region's function and the one at the
/// end; an explicit task has no barrier ahead.
pub fn barriers_are_left()
    ensures { BarriersAreLeft }
{}

/// A lock is held exactly where one task has its giving back ahead, and then by that task's thread.
pub fn locks_are_held()
    ensures { LocksAreHeld }
{}

/// A thread whose claim is free waits for a team, one with a task was claimed by another, and one for which a task waits, or
/// that a fork in the making got, waits for a team and was claimed by the thread that forks; thread 0 is its own and has a
/// task.
pub fn claims_are_kept()
    ensures { ClaimsAreKept }
{}

/// Those that a thread asked are the first threads in rising order, without itself, and it asks only where its fork is in the
/// making, and does nothing else there until it forks.
pub fn asks_are_in_order()
    ensures { AsksAreInOrder }
{}

/// A deferred task has the body of its function and its finish ahead, a member that has not begun all of a member's list, and
/// a task that is finished nothing.
pub fn lists_are_right()
    ensures { ListsAreRight }
{}

/// A member that has not begun has arrived nowhere and no barrier of its region is released, one that is not finished has not
/// ended and its region is not joined, and one that is finished has ended, or joined as member 0, with all its arrivals
/// released; where a region was joined, every barrier of it is released.
pub fn members_are_in_step()
    ensures { MembersAreInStep }
{}

/// The chain of generating tasks of a task runs through tasks of its region that have begun to an implicit one, the owner of its
/// group is on it, and an explicit task that has started is scheduled from one of them, or from the member of its region that runs on its thread.
pub fn tasks_have_lineage()
    ensures { TasksHaveLineage }
{}

/// A region and its tasks were made by the thread of member 0, and all but the initial region in a task of the enclosing region
/// that, where it lives, runs on this thread; while the region is not joined that task lives, has begun and not finished, and
/// the enclosing region is visible and not joined; only the initial region has no enclosing one; an explicit task was made on a
/// member's thread, runs on that of the member with its number, and its region is not joined while the task lives.
pub fn regions_are_encountered()
    ensures { RegionsAreEncountered }
{}

/// A task has at most four groups open, as many as its list has to end, and none unless it has begun and not finished; the owner
/// of a task's group is a live task of its region that has begun, and while the task isn't finished its group is open. A group
/// whose members have all finished gets no other one but by its owner. Where a list allows a group to begin, there is room for it.
pub fn groups_are_right()
    ensures right { GroupsAreRight }
    ensures begin { GroupsMayBegin }
    ensures finished { FinishedGroupsStay }
{}

/// Each task that has begun and not finished is in the chain of the thread that it runs on.
pub fn begun_tasks_are_on_chains()
    ensures { BegunTasksAreOnChains }
{}

/// In a member's list each arrival is followed at once by the tasks that may start there, by the release for member 0 exactly,
/// and by the pass; what is left of one barrier may stand at the front, and the list of an explicit task has nothing of one.
pub fn barriers_are_in_order()
    ensures { BarriersAreInOrder }
{}
