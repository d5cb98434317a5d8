//! Laws of the definitions. Each is a function that does nothing, whose clauses hold of all memories.

ghost use Rattle.omi_rep.specs.Opened.{OpeningIsShown};
ghost use Rattle.omi_rep.specs.Suits.{FamiliesSuit};
ghost use Rattle.omi_rep.specs.Unique.{FixTheReport};

/// Two states that the same words of one layout show have the same report, for the same contexts.
pub fn words_fix_the_report()
    ensures { FixTheReport }
{}

/// The opening words of a program show its opening state, in each layout that has as many threads as the program.
pub fn opening_words_shown()
    ensures { OpeningIsShown }
{}

/// A program runs in an image of each of the sixteen families of layouts with as many threads.
pub fn families_suit()
    ensures { FamiliesSuit }
{}
