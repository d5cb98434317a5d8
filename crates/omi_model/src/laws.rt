//! Laws of the definitions. Each is a function that does nothing, whose clauses hold of all states.

ghost use Rattle.std.specs.Prelude.{◌≡◌, ℕ, List, [], ◌∷◌};
ghost use Rattle.omi_numbers.specs.Words.{native_id};
ghost use Rattle.omi_script.specs.declared.program.Program.{Program};
ghost use Rattle.omi_model.specs.declared.view.View.{View};
ghost use Rattle.omi_model.specs.State.{State};
ghost use Rattle.omi_model.specs.Opening.{opening};
ghost use Rattle.omi_model.specs.OpeningView.{opening_view};
ghost use Rattle.omi_model.specs.Views.{IsViewOf};

/// A state has at most one view for contexts in their order: what a report of it says is determined. The opening state has
/// this one.
pub fn one_view()
    ensures one { (s : State) (contexts : List ℕ) (v w : View) → IsViewOf s contexts v
        → IsViewOf s contexts w → v ≡ w }
    ensures opening { (p : Program) → IsViewOf (opening p) (native_id 0 ∷ []) (opening_view p) }
{}
