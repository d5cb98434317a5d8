//! Laws of stacks and actors. Each is a function that does nothing, and says its law in `specs/`.

ghost use Rattle.omi_pc.specs.FitLaws.{ArrivingKeepsBodies, ClosingKeepsBodies, GoingOnFits, GroupingKeepsBodies, MovesChangeBodies, OpeningFits, OpenedBodyStands, ReturningFits, SettlingFits, WorkingFits};
ghost use Rattle.omi_pc.specs.Room.{BodiesGoDown, DepthsCountTasks, FewGoDown, NamedAreSmaller, StacksHaveRoom};

/// The bodies that a thread of a program has open never lack room: there are at most `MOST_BODIES`, and a stack has room
/// for `STACK_ROOM`. For the function of a body is smaller than that of the body outside it or of the task below, and there
/// are 64 functions.
pub fn stacks_have_room()
    ensures named { NamedAreSmaller }
    ensures down { BodiesGoDown }
    ensures few { FewGoDown }
    ensures room { StacksHaveRoom }
    ensures depth { DepthsCountTasks }
{}

/// The actors with which a program starts fit it.
pub fn opening_fits()
    ensures { OpeningFits }
{}

/// A move between statements changes the counter and the bodies, and nothing else of an actor.
pub fn moves_change_bodies()
    ensures { MovesChangeBodies }
{}

/// An actor with a task fits its program once it has settled, once a function has returned, and once it works again.
pub fn moves_fit()
    ensures settling { SettlingFits }
    ensures returning { ReturningFits }
    ensures working { WorkingFits }
    ensures going_on { GoingOnFits }
{}

/// Bodies stand on one another when one more is opened, when the innermost one is closed, when a member arrives at a
/// barrier, and when a task begins or ends a group.
pub fn bodies_stand()
    ensures opened { OpenedBodyStands }
    ensures closed { ClosingKeepsBodies }
    ensures arrived { ArrivingKeepsBodies }
    ensures grouped { GroupingKeepsBodies }
{}
