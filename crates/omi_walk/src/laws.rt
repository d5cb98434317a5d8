//! The law on what a walk reads, as a function that does nothing. Its clause holds of all memories.

ghost use Rattle.omi_walk.specs.AskLooked.{WalkIsLooked};

/// What the reads of a walk answer over any words is what a plain look at them gives.
pub fn walk_looks()
    ensures { WalkIsLooked }
{}
