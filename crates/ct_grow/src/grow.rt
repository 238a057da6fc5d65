// Growth as a whole: the pages that it asks for, and one record.
ghost use Rattle.std.specs.Prelude.{◌≡◌, ◌⊎◌, ℕ, ◌+◌, ◌≤◌, length, OnOk};
ghost use Rattle.ct_base.specs.Causes.{HasCause};
ghost use Rattle.ct_base.specs.Inode.{inode as inode_at};
ghost use Rattle.ct_base.specs.Plan.{growth_need, next_part};
ghost use Rattle.ct_base.specs.Settled.{IsShut};
ghost use Rattle.ct_base.specs.View.{view, inode_count};
ghost use Rattle.ct_base.specs.Walk.{AreTables};
ghost use Rattle.ct_frames.specs.Agrees.{Agrees};
ghost use Rattle.ct_pm.specs.Device.{LeavesOnly, NothingPending};
ghost use Rattle.ct_pm.specs.Phase.{Phase};
ghost use Rattle.ct_grow.specs.Drafted.{CanMove, Moves};
ghost use Rattle.ct_base.specs.State.{SameState};
ghost use Rattle.ct_commit.specs.Closed.{IsStateOr};
ghost use Rattle.ct_commit.specs.Made.{Spares};
ghost use Rattle.ct_record.specs.Seen.{device_behind};
ghost use Rattle.ct_grow.specs.Moments.{IsBeforeOrAfter, IsSpare};
ghost use Rattle.ct_grow.specs.Grown.{CanGrow, CellsMoved, IsReady, Promoted};

use crate::draft::move_object;
use crate::parts::first_base;
use crate::wants::growth_wants;
use ct_base::{Inode, MOST_GROWTH_PAIRS, Vaddr};
use ct_frames::Frames;
use ct_inode::get;
use ct_pm::Pm;
use ct_record::{Broken, Draft, Idle, conclude};
use ct_walk::ensure_all;

// Moves an object to the partition of a level at an address, by one record.
fn move_now<D: Pm>(dev: D, number: u64, old: Inode, level: u32, base: Vaddr) -> Result<D, Broken<D>>
    requires tables { AreTables (D.words dev) }
    requires shut { IsShut (D.words dev) }
    requires settled { NothingPending (D.told dev) }
    requires can { CanMove (D.words dev) number old (record { base = base; level = level }) }
    requires spares { Spares (D.words dev) (λ new. Moves (D.words dev) new number old (record { base = base; level = level })) (IsSpare (D.words dev)) }
    ensures moves { OnOk result (Moves (D.words dev) (D.words (device_behind result)) number old (record { base = base; level = level })) }
    ensures shut { OnOk result (IsShut (D.words (device_behind result))) }
    ensures settled { OnOk result (NothingPending (D.told (device_behind result))) }

    // A crash at any moment settles to the state before the move or after it; and once it is done, to that of the words as they read.
    ensures phase { Phase (IsStateOr (D.words dev) (λ new. Moves (D.words dev) new number old (record { base = base; level = level }))) MOST_GROWTH_PAIRS (D.told dev) (D.told (device_behind result)) (D.words (device_behind result)) }
    ensures reads_after { OnOk result (LeavesOnly (D.told dev) (D.told (device_behind result))
        (λ image. SameState (D.words dev) image ⊎ SameState (D.words (device_behind result)) image)) }
    ensures cause { HasCause (D.faults dev) (D.faults (device_behind result)) result }
{
    let mut draft = Draft::begin(Idle::of(dev));
    let drafted = move_object(&mut draft, number, old, level, base);
    conclude(draft, drafted)
}

/// Moves object `inode` to the lowest free partition of a level: no byte is copied, and at most 150 words are exchanged or
/// set, in one record.
///
/// # Errors
///
/// `Broken` where the device failed. The object has then moved whole or not at all, once the device settles.
pub fn promote<D: Pm>(dev: D, frames: &mut Frames, inode: u64, level: u32) -> Result<D, Broken<D>>
    requires can { CanGrow (D.words dev) inode level }
    requires agrees { Agrees (D.words dev) frames.old }
    requires settled { NothingPending (D.told dev) }
    requires room { growth_need (D.words dev) (inode_at (view (D.words dev)) inode) level ≤ length frames.old.free }

    ensures promoted { OnOk result (Promoted (D.words dev) (D.words (device_behind result)) inode (next_part (view (D.words dev)) (inode_count (D.words dev)) level)) }
    ensures cells { OnOk result (CellsMoved (D.words dev) (D.words (device_behind result)) (inode_at (view (D.words dev)) inode) (next_part (view (D.words dev)) (inode_count (D.words dev)) level)) }
    ensures ready { OnOk result (IsReady (D.words (device_behind result))) }
    ensures agrees { OnOk result (Agrees (D.words (device_behind result)) frames.new) }
    ensures settled { OnOk result (NothingPending (D.told (device_behind result))) }

    // A crash at any moment settles to the state before the growth or after it, leaves a lawful record of at most 150 pairs, none
    // of which names a word of a live file's page, and no step stores on such a page; and once the growth is done, the state after
    // it is that of the words as they read.
    ensures phase { Phase (IsBeforeOrAfter (D.words dev) inode (next_part (view (D.words dev)) (inode_count (D.words dev)) level)) MOST_GROWTH_PAIRS (D.told dev) (D.told (device_behind result)) (D.words (device_behind result)) }
    ensures reads_after { OnOk result (LeavesOnly (D.told dev) (D.told (device_behind result))
        (λ image. SameState (D.words dev) image ⊎ SameState (D.words (device_behind result)) image)) }

    ensures taken { OnOk result (length frames.new.free + growth_need (D.words dev) (inode_at (view (D.words dev)) inode) level ≡ length frames.old.free) }
    ensures cause { HasCause (D.faults dev) (D.faults (device_behind result)) result }
{
    let old = get(&dev, inode);
    let base = first_base(&dev, level);
    let mut dev = dev;
    let wants = growth_wants(old, level, base);
    match ensure_all(&mut dev, frames, wants.as_slice()) {
        Ok(()) => {}
        Err(_) => return Err(Broken { dev }),
    }
    move_now(dev, inode, old, level, base)
}
