//! Laws of the definitions. Each is a function that does nothing.

ghost use Rattle.omi_session.specs.Looked.{WordIsLooked, LeadIsLooked, ObjectIsLooked, OptionalIsLooked};
ghost use Rattle.omi_session.specs.NamesReached.{ReachedAreNames};

/// The parts of inquiries are plain looks at the words, in every layout: they give the word, or the object, that the look gives, and are
/// refused where it is, with the address and the field of its fault.
pub fn inquiries_look()
    ensures word { WordIsLooked }
    ensures lead { LeadIsLooked }
    ensures object { ObjectIsLooked }
    ensures optional { OptionalIsLooked }
{}

/// In every state that events reach, the generations of what is visible have 32 bits, as those of names do.
pub fn reached_names_fit()
    ensures { ReachedAreNames }
{}
