//! Growth: an object moves to a larger partition, and no byte is copied.
//!
//! The one model is an image by its addresses: the walk of each offset of the old partition is afterwards that of the same
//! offset of the new one, and of the bytes only the object's inode and the headers change.
#![tactic(auto)]

ghost use Rattle.std.specs.Prelude.{◌≡◌, ◌≢◌, ◌+◌, ◌++◌, ℕ, List, All, map};
ghost use Rattle.ct_base.specs.declared.inode.Inode.{Inode};
ghost use Rattle.ct_base.specs.Inode.{Partition};
ghost use Rattle.ct_base.specs.Plan.{counted, growth_wants};
ghost use Rattle.ct_base.specs.Wants.{Want, missing};
ghost use Rattle.ct_grow.specs.Follows.{Enlarges, Follows};
ghost use Rattle.ct_grow.specs.Grown.{CellsMoved};

use ct_base::NO_PARTITION;

mod draft;
mod grow;
mod parts;
mod wants;

pub use grow::promote;
pub use wants::{Wants, growth_wants};

/// What is missing after growth and what growth took are together what was counted on the image before it.
pub fn growth_is_counted()
    ensures { (old new : List ℕ) → (f : Inode) → (p : Partition) → (ws : List Want) → CellsMoved old new f p → (f.level ≢ NO_PARTITION → Enlarges f p) → All (Follows f p) ws → missing new ws + missing old (growth_wants f p) ≡ missing old (growth_wants f p ++ map (counted f p) ws) }
{}
