//! Laws of the definitions. Each is a function that does nothing.

ghost use Rattle.omi_c.specs.AskedAgain.{HoldsOnEach, ComesToAnswer};

/// What an inquiry answers without a word that is needed is its answer on each memory that has the known words. Asked again with each
/// word that it needs, it comes to its answer on a memory with as many words at most as it reads there.
pub fn inquiries_come_to_answers<A>()
    ensures holds { HoldsOnEach A }
    ensures comes { ComesToAnswer A }
{}
