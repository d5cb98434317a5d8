//! The law on looks at words that show a state, as a function that does nothing. Its clause holds of all memories.

ghost use Rattle.omi_rep.specs.ShownLooks.{ShownIsLooked};

/// A look at words that show a state is never refused, and gives the view of this state. The layout is a valid one, and the
/// generations of what is visible have 32 bits, as those of all names do.
pub fn shown_words_looked()
    ensures { ShownIsLooked }
{}
