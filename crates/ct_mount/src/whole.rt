// The mount rules in their order, with recovery between rule 7 and rule 8.
ghost use Rattle.std.specs.Prelude.{◌≡◌, ◌≢◌, ◌<◌, ◌≤◌, ℕ, Some, IfErr, IfOk, slice_index};
ghost use Rattle.ct_base.specs.Causes.{Rose};
ghost use Rattle.ct_base.specs.Head.{HasHead};
ghost use Rattle.ct_base.specs.Settled.{IsShut};
ghost use Rattle.ct_base.specs.State.{SameState};
ghost use Rattle.ct_base.specs.View.{inode_count};
ghost use Rattle.ct_check.specs.Rules.{HasNoStaging};
ghost use Rattle.ct_pm.specs.Device.{LeavesOnly, MakesOnly, NothingPending};
ghost use Rattle.ct_recover.specs.Settling.{Settling};
ghost use Rattle.ct_tree.specs.Lands.{Lands};
ghost use Rattle.ct_tree.specs.Ordered.{IsTree};
ghost use Rattle.ct_tree.specs.Tree.{Tree};
ghost use Rattle.ct_call.specs.Calls.{Holds};
ghost use Rattle.ct_call.specs.NotMounted.{image_dev, why_not};
ghost use Rattle.ct_commit.specs.Rest.{IsAtRest};
ghost use Rattle.ct_mount.specs.Mounting.{Finds, IsSettledFrom, Judges, Recovers};

use ct_call::{Mounted, NoMount, Why};
use ct_check::{CheckFault, check, check_head};
use ct_pm::Pm;
use ct_record::Broken;
use ct_recover::settle;
use std::alloc::Global;

// Mounts a device that was settled, where none of rules 8 to 20 fails. Nothing is stored.
fn mount_settled<D: Pm>(alloc: Global, dev: D) -> Result<Mounted<D>, NoMount<D>>
    requires head { HasHead (D.words dev) }
    requires shut { IsShut (D.words dev) }
    requires staging { HasNoStaging (D.words dev) }
    requires settled { NothingPending (D.told dev) }
    ensures finds { Finds (D.words dev) (why_not result) }
    ensures rest { IfOk result (λ made. IsAtRest (D.words dev)) }
    ensures dev { image_dev result ≡ dev }
{
    match check(alloc, &dev) {
        Ok(frames) => Ok(Mounted { dev, frames }),
        Err(CheckFault::Damage(rule)) => Err(NoMount {
            dev,
            why: Why::Damage(rule),
        }),
        Err(CheckFault::Memory) => Err(NoMount {
            dev,
            why: Why::Memory,
        }),
    }
}

/// Mounts a device: rules 0 to 7 on the image as it is, then recovery, and rules 8 to 20 on what it has settled to.
///
/// # Errors
///
/// `Damage` with the first mount rule that fails; `Fault` where the device failed, or `Memory` where memory ran out.
pub fn recover<D: Pm>(alloc: Global, dev: D) -> Result<Mounted<D>, NoMount<D>>
    requires settled { NothingPending (D.told dev) }

    // Ok where no mount rule fails on the words at entry, and else the first that does.
    ensures judged { Judges (D.words dev) (why_not result) }

    // What is mounted holds the tree on which the words at entry land.
    ensures holds { IfOk result (λ made. (t : Tree) → IsTree t → Lands (D.words dev) t
        → Holds (inode_count (D.words dev)) t (D.words made.dev) (D.told made.dev)) }

    // Where a rule of the head fails nothing was done. Without a fault the device was settled otherwise, and no more.
    ensures untouched { IfErr result (λ no_mount. (rule : ℕ) → no_mount.why ≡ Why.Damage rule → rule < 8 → no_mount.dev ≡ dev) }
    ensures settled { HasHead (D.words dev) → why_not result ≢ Some Why.Fault
        → IsSettledFrom (D.words dev) (D.words (image_dev result)) (D.told (image_dev result)) }
    ensures made { MakesOnly (Settling (D.words dev)) (D.told dev) (D.told (image_dev result)) }

    // A crash at any moment leaves what settles to the state of the words at entry, in which the same rules fail, and so do the
    // words as they read.
    ensures moments { LeavesOnly (D.told dev) (D.told (image_dev result)) (SameState (D.words dev)) }
    ensures reads { SameState (D.words dev) (D.words (image_dev result)) }

    // So all that a crash leaves lands on the tree on which the words at entry land.
    ensures recovers { (t : Tree) → Lands (D.words dev) t
        → Recovers t (D.words dev) (D.told dev) (D.told (image_dev result)) (D.words (image_dev result)) }

    ensures cause { IfErr result (λ no_mount. no_mount.why ≡ Why.Fault → Rose (D.faults dev) (D.faults no_mount.dev)) }
    ensures later { D.faults dev ≤ D.faults (image_dev result) }
{
    if let Err(rule) = check_head(&dev) {
        return Err(NoMount {
            dev,
            why: Why::Damage(rule),
        });
    }
    match settle(dev) {
        Ok(dev) => mount_settled(alloc, dev),
        Err(broken) => {
            let Broken { dev } = broken;
            Err(NoMount {
                dev,
                why: Why::Fault,
            })
        }
    }
}
