//! The law of room for steps: a function that does nothing, whose clauses hold of all lists.

ghost use Rattle.std.specs.Prelude.{◌+◌, ◌≤◌, ℕ, length};
ghost use Rattle.omi_model.specs.declared.event.Event.{Event};
ghost use Rattle.omi_run_lists.specs.Events.{Events, team_in};
ghost use Rattle.omi_run_lists.specs.StepRoom.{IsAdded, claims_after, room_for_steps};

/// Room for `n` steps is room for `n` events and seats for `n` members beyond those of the claims. Each step then finds
/// room for its event, as long as a team has at most one member more than there are claims.
pub fn steps_have_room()
    ensures reserved { (events : Events) (claims n : ℕ) → n ≤ events.spare
        → n + claims ≤ events.seats → n ≤ room_for_steps events claims }
    ensures spare { (events : Events) (claims : ℕ) → 1 ≤ room_for_steps events claims
        → 1 ≤ events.spare }
    ensures seats { (events : Events) (claims : ℕ) (e : Event) → 1 ≤ room_for_steps events claims
        → length (team_in e) ≤ claims + 1 → length (team_in e) ≤ events.seats }
    ensures one_less { (old new : Events) (claims : ℕ) (e : Event)
        → length (team_in e) ≤ claims + 1 → IsAdded old e new
        → room_for_steps old claims ≤ room_for_steps new (claims_after claims e) + 1 }
{}
