//! Laws of the rule. Each is a function that does nothing.

ghost use Rattle.omi_rule.specs.Descends.{TasksDescend};
ghost use Rattle.omi_rule.specs.LeavesOthers.{EventsLeaveOthers};
ghost use Rattle.omi_rule.specs.Opens.{OpeningKeepsRule};
ghost use Rattle.omi_rule.specs.StepsKeep.{StepsKeepRule};

/// A program starts under the rule, in each layout that suits it.
pub fn opening_keeps()
    ensures { OpeningKeepsRule }
{}

/// An event of a thread leaves the other threads' parts of the state as they are, but that it may claim a thread: what a thread
/// wants, has asked and has ahead, the tasks that run on it and are not finished, its members' arrivals, the releases of its
/// regions, the regions that it made, and what is fresh for it.
pub fn events_leave_others()
    ensures { EventsLeaveOthers }
{}

/// In every reached state each explicit task runs a smaller function than the task that made it.
pub fn tasks_descend()
    ensures { TasksDescend }
{}

/// A step of any thread keeps the rule, at each counter, in every valid layout that suits the program: its operation is on one word of a record, it commits no event or one that is legal, at the word that is the event's, and a thread that is not ready
/// waits on the word that it names.
pub fn steps_keep_rule()
    ensures { StepsKeepRule }
{}
