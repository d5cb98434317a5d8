//! The laws of the language: each text has one verdict.
ghost use Rattle.std.specs.Prelude.{◌≡◌, ◌⊎◌, ℕ, List};
ghost use Rattle.omi_script.specs.declared.fault.ScriptFault.{ScriptFault};
ghost use Rattle.omi_script.specs.declared.program.Program.{Program};
ghost use Rattle.omi_script.specs.Grammar.{AreEqual, Grammar, Refused};

/// Each text is one program or has one fault, and not both.
pub fn one_verdict()
    // each text is a program or has a fault
    ensures some { (bytes : List ℕ)
        → ((p : Program) × Grammar bytes p) ⊎ ((fault : ScriptFault) × Refused bytes fault) }
    // and at most one of either
    ensures one { (bytes : List ℕ) (p q : Program)
        → Grammar bytes p → Grammar bytes q → AreEqual p q }
    ensures one_fault { (bytes : List ℕ) (a b : ScriptFault)
        → Refused bytes a → Refused bytes b → a ≡ b }
    // and not both
    ensures apart { (bytes : List ℕ) (p : Program) (fault : ScriptFault)
        → Grammar bytes p → Refused bytes fault → ⊥ }
{}
