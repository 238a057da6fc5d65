//! From a draft to words at rest: what a crash leaves while a record is made, and while a staging slot is emptied behind it.
//!
//! The one model is the state to which an image settles. A record owes two things, that it spares the pages of live files and
//! what its words settle to, and from these follow the phase that it makes and that of the slot behind it. There is no code
//! here but laws.
#![tactic(auto)]

ghost use Rattle.std.specs.Prelude.{◌≡◌, ◌+◌, ◌<◌, ◌≤◌, ℕ, List, slice_set};
ghost use Rattle.ct_base.specs.State.{SameState};
ghost use Rattle.ct_commit.specs.Landing.{LandsAs};
ghost use Rattle.ct_commit.specs.Rest.{IsAtRest, IsUnstaged, IsUnstagedBut};
ghost use Rattle.ct_tree.specs.Lands.{files};

use ct_base::{PARTITION_SLOT, ROOT_WORD, STAGING_SLOT};

/// Words at rest land on their own objects, whatever is staged.
pub fn words_at_rest_land_on_their_objects()
    ensures { (words : List ℕ) → IsAtRest words → LandsAs (files words) words }
{}

/// What is staged is no part of the state: where a slot for staging is emptied, words at rest stay at rest and settle to the
/// same state.
pub fn staging_is_no_part_of_the_state()
    ensures rest { (old new : List ℕ) → (slot : ℕ) → IsAtRest old → STAGING_SLOT ≤ slot → slot < PARTITION_SLOT → new ≡ slice_set old (ROOT_WORD + slot) 0 → IsAtRest new }
    ensures state { (old new : List ℕ) → (slot : ℕ) → IsAtRest old → STAGING_SLOT ≤ slot → slot < PARTITION_SLOT → new ≡ slice_set old (ROOT_WORD + slot) 0 → SameState old new }
    ensures empty { (old new : List ℕ) → (slot : ℕ) → IsAtRest old → STAGING_SLOT ≤ slot → slot < PARTITION_SLOT → new ≡ slice_set old (ROOT_WORD + slot) 0 → IsUnstagedBut slot old → IsUnstaged new }
{}
