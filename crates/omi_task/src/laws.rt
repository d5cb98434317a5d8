//! The law of codes. It is a function that does nothing, and says its law in `specs/`.

ghost use Rattle.omi_task.specs.SlotLaws.{CodesAreNotZero, CodesAreReadBack};

/// The code of a deferred task tells the task, and is not 0, which stands in an empty slot.
pub fn codes_are_read_back()
    ensures back { CodesAreReadBack }
    ensures some { CodesAreNotZero }
{}
