//! Laws of the watch. Each is a function that does nothing.

ghost use Rattle.omi_rule_watch.specs.WatchLaws.{OpeningsGiveWatch, QuietStepsAreFew, StepsKeepWatch, WordsAreOne};

/// No thread makes more than 200 + 100 T quiet steps in a row, where T is the number of threads: at each counter at most so many lie
/// behind it as `most_quiet` says, and a step keeps this.
pub fn quiet_steps_are_few()
    ensures { QuietStepsAreFew }
{}

/// Before its first step each thread's actor gives the watch that has seen nothing.
pub fn openings_give_watch()
    ensures { OpeningsGiveWatch }
{}

/// Where the rule holds, a step of a thread whose actor gives its watch meets what is demanded, and the actor behind it gives the
/// watch behind it: the bound of quiet steps, the order of a search and what it takes, and the look at all slots before a wait.
pub fn steps_keep_watch()
    ensures { StepsKeepWatch }
{}

/// An operation is on one word of a record.
pub fn words_are_one()
    ensures { WordsAreOne }
{}
