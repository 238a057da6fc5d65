// What C may promise of its medium, as clauses.
ghost use Rattle.std.specs.Prelude.{◌≡◌, ◌⊎◌, ◌≤◌, ℕ, List, Some, length, reverse, take};
ghost use Rattle.ct_call.specs.Calls.{StandsFor, after};
ghost use Rattle.ct_call.specs.Mounted.{Volume};
ghost use Rattle.ct_pm.specs.Device.{NothingPending};
ghost use Rattle.ct_tree.specs.Lands.{Lands};
ghost use Rattle.ct_tree.specs.Step.{Op};
ghost use Rattle.ct_tree.specs.Tree.{Tree};
ghost use Rattle.pm_outbox.specs.Medium.{MayHold};
ghost use Rattle.pm_outbox.specs.Outbox.{history, words_of};
ghost use Rattle.pm_outbox.specs.declared.outbox.OutboxPm.{OutboxPm};
ghost use Rattle.msa.specs.Calls.{Calls};
ghost use Rattle.msa.specs.Mounts.{asks_of, HoldsWords};
ghost use Rattle.msa.specs.Seats.{mount_in};
ghost use Rattle.msa.specs.declared.seat.Seat.{Seat};

/// A medium that has seen all that was asked before a call, and however much of what the call asks, holds what lands on the tree
/// before the call or after it.
pub fn a_medium_lands_before_a_call_or_after_it()
    ensures { (op : Op) (was now : Seat) (code : ℕ) → Calls op (Some was) (Some now) code → (before later : Volume OutboxPm) → mount_in was ≡ Some before → mount_in now ≡ Some later
        → (t : Tree) → StandsFor (words_of before.dev) t → (count : ℕ) → length (asks_of before.dev) ≤ count → (image : List ℕ)
        → MayHold (history before.dev).start (reverse (take count (asks_of later.dev))) image → Lands image t ⊎ Lands image (after t op) }
{}

/// A medium that has seen all that was asked holds the words as they read, where nothing is pending: what a call that is done
/// has made is there.
pub fn a_medium_that_saw_all_holds_the_words()
    ensures { (dev : OutboxPm) → NothingPending (Some (history dev)) → HoldsWords dev }
{}
