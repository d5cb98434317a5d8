//! The law of the table of handles: a function that does nothing, whose clauses hold of every
//! history.

ghost use Rattle.std.specs.Prelude.{◌≡◌, ◌≢◌, ℕ, List, Some, AllPairs};
ghost use Rattle.std.specs.FinMap.{get};
ghost use Rattle.omi_handle.specs.declared.handle.Held.{Held};
ghost use Rattle.omi_handle.specs.Ledger.{Ledger};
ghost use Rattle.omi_handle.specs.History.{Deed, StandsAt, IsUnreleased, given};

/// However often `make` and `release` are called on a table that began empty: no pair was given
/// twice, and what is held under a pair is what it was given for, until its release.
pub fn given_once()
    ensures once { (deeds : List Deed) (ledger : Ledger) → StandsAt deeds ledger
        → AllPairs (λ later earlier. later ≢ earlier) (given deeds) }
    ensures kept { (deeds : List Deed) (ledger : Ledger) (pair : ℕ × ℕ) (h : Held)
        → StandsAt deeds ledger → IsUnreleased deeds pair h → get ledger.held pair ≡ Some h }
    ensures released { (deeds : List Deed) (ledger : Ledger) (pair : ℕ × ℕ) (h : Held)
        → StandsAt deeds ledger → get ledger.held pair ≡ Some h → IsUnreleased deeds pair h }
{}
