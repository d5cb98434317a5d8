//! Laws of the definitions. Each is a function that does nothing.

ghost use Rattle.omi_audit.specs.Promise.{SearchIsWhole, SearchIsBreadthFirst, VerdictsGiveStates, VerdictsRefuseNoReached};

/// The records that a search meets are the least set that has the current task of each thread that has begun and, with a record, those that it
/// names. They are met breadth-first.
pub fn search_reaches()
    ensures whole { SearchIsWhole }
    ensures breadth_first { SearchIsBreadthFirst }
{}

/// Where the verdict on any words is Yes, and they give the layout, they show a well-formed state. Where they show a state that events of a
/// program reach, it is Yes.
pub fn verdicts_give()
    ensures states { VerdictsGiveStates }
    ensures reached { VerdictsRefuseNoReached }
{}
