//! Laws of runs. Each is a function that does nothing.

ghost use Rattle.omi_core.specs.DeferLaws.{NoRunDefersBehindSlots};

/// No list of steps in which a `defer` is committed at the word behind the slots of a record is a run: a task is deferred in a slot of
/// its thread's row.
pub fn no_run_defers_behind_slots()
    ensures { NoRunDefersBehindSlots }
{}
