// What holds of media, as clauses.
ghost use Rattle.std.specs.Prelude.{◌≡◌, ◌≤◌, ◌++◌, List, ℕ, length, reverse, take};
ghost use Rattle.ct_pm.specs.Images.{IsAllowed, WasAllowed};
ghost use Rattle.ct_pm.specs.declared.step.Step.{Step};
ghost use Rattle.pm_outbox.specs.Asked.{asked};
ghost use Rattle.pm_outbox.specs.Medium.{AllowsFronts, MayHold};

/// A medium that held the start words holds what the line model allows: after all that the steps asked an image that a crash may
/// leave after them, and after a front of it one that a crash may have left at some moment. Where the front has all that was
/// asked up to a step, that moment is not before it.
pub fn a_medium_holds_what_is_allowed()
    ensures all { (start : List ℕ) (steps : List Step) (image : List ℕ) → MayHold start (reverse (asked start steps)) image → IsAllowed (record { start = start; steps = steps }) image }
    ensures front { (start : List ℕ) (steps : List Step) → AllowsFronts (record { start = start; steps = steps }) }
    ensures since { (start : List ℕ) (past added : List Step) (count : ℕ) (image : List ℕ) → length (asked start past) ≤ count
        → MayHold start (reverse (take count (asked start (added ++ past)))) image → WasAllowed (length past) (record { start = start; steps = added ++ past }) image }
{}

/// What was asked stays asked, in its place, as steps are made.
pub fn what_was_asked_stays()
    ensures stays { (start : List ℕ) (past added : List Step) → take (length (asked start past)) (asked start (added ++ past)) ≡ asked start past }
    ensures more { (start : List ℕ) (past added : List Step) → length (asked start past) ≤ length (asked start (added ++ past)) }
{}
