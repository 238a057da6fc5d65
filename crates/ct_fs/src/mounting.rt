// Mounting a device, with recovery.
ghost use Rattle.std.specs.Prelude.{◌≡◌, ◌≢◌, ◌<◌, ◌≤◌, ℕ, List, Some, IfErr, IfOk};
ghost use Rattle.ct_base.specs.Causes.{Rose};
ghost use Rattle.ct_base.specs.Head.{HasHead};
ghost use Rattle.ct_base.specs.State.{SameState};
ghost use Rattle.ct_base.specs.View.{inode_count};
ghost use Rattle.ct_call.specs.Calls.{Keeps};
ghost use Rattle.ct_call.specs.NotMounted.{why_not};
ghost use Rattle.ct_call.specs.declared.mount.Why.{Why};
ghost use Rattle.ct_fs.specs.Mounts.{dev_after, fs_dev, mounts};
ghost use Rattle.ct_mount.specs.Mounting.{IsSettledFrom, Judges, Recovers};
ghost use Rattle.ct_pm.specs.Device.{LeavesOnly, MakesOnly, NothingPending};
ghost use Rattle.ct_pm.specs.Images.{IsAllowed, IsSettled};
ghost use Rattle.mount_stops.specs.Stops.{Through, faults_before};
ghost use Rattle.pm_trace.specs.Meaning.{faults_of, history, words_of};
ghost use Rattle.ct_recover.specs.Settling.{Settling};
ghost use Rattle.ct_tree.specs.Lands.{Lands};
ghost use Rattle.ct_tree.specs.Ordered.{IsTree};
ghost use Rattle.ct_tree.specs.Tree.{Tree};

use crate::system::Fs;
use ct_base::NoMemory;
use ct_cache::Caches;
use ct_call::{Mounted, NoMount, Why};
use ct_learn::Learnt;
use ct_mount::recover;
use ct_pm::Pm;
use mount_stops::{Stop, mount_through as recover_through};
use pm_trace::TracePm;
use std::alloc::Global;

// The file system of a mount, with memory for what is learnt.
fn with_memory<D: Pm>(alloc: Global, mounted: Mounted<D>) -> Result<Fs<D>, NoMount<D>>
    ensures ready { IfOk result (λ fs. mounts fs ≡ Some mounted) }
    ensures dev { dev_after result ≡ mounted.dev }
    ensures why { IfErr result (λ no_mount. no_mount.why ≡ Why.Memory) }
{
    match Caches::new(alloc) {
        Ok(caches) => Ok(Fs::of(mounted, Learnt::within(caches))),
        Err(NoMemory) => {
            let Mounted { dev, frames: _ } = mounted;
            Err(NoMount {
                dev,
                why: Why::Memory,
            })
        }
    }
}

/// Mounts the file system of a device: a call that a crash cut off is done whole or not at all.
///
/// # Errors
///
/// `Damage` with the number of the first mount rule that fails: below 8 the device is as it was, from 8 on it has at most been
/// settled. `Fault` where the device failed, and `Memory` where memory ran out.
pub fn mount<D: Pm>(alloc: Global, dev: D) -> Result<Fs<D>, NoMount<D>>
    requires settled { NothingPending (D.told dev) }

    // Ok where no mount rule fails on the words at entry, and else the first that does.
    ensures judged { Judges (D.words dev) (why_not result) }

    // The file system has the tree on which the words at entry land.
    ensures keeps { IfOk result (λ fs. (t : Tree) → IsTree t → Lands (D.words dev) t → Keeps (inode_count (D.words dev)) fs.state t) }

    // Where a rule of the head fails nothing was done. Without a fault the device was settled otherwise, and no more.
    ensures untouched { IfErr result (λ no_mount. (rule : ℕ) → no_mount.why ≡ Why.Damage rule → rule < 8 → no_mount.dev ≡ dev) }
    ensures settled { HasHead (D.words dev) → why_not result ≢ Some Why.Fault
        → IsSettledFrom (D.words dev) (D.words (dev_after result)) (D.told (dev_after result)) }
    ensures made { MakesOnly (Settling (D.words dev)) (D.told dev) (D.told (dev_after result)) }

    // A crash at any moment leaves what settles to the state of the words at entry, in which the same rules fail, and so do the
    // words as they read.
    ensures moments { LeavesOnly (D.told dev) (D.told (dev_after result)) (SameState (D.words dev)) }
    ensures reads { SameState (D.words dev) (D.words (dev_after result)) }

    // So all that a crash leaves lands on the tree on which the words at entry land.
    ensures recovers { (t : Tree) → Lands (D.words dev) t
        → Recovers t (D.words dev) (D.told dev) (D.told (dev_after result)) (D.words (dev_after result)) }

    ensures cause { IfErr result (λ no_mount. no_mount.why ≡ Why.Fault → Rose (D.faults dev) (D.faults no_mount.dev)) }
    ensures later { D.faults dev ≤ D.faults (dev_after result) }
{
    match recover(alloc, dev) {
        Ok(mounted) => with_memory(alloc, mounted),
        Err(no_mount) => Err(no_mount),
    }
}

/// Mounts a device through stops: at each a mount fails in its midst, or is done, and then a crash leaves its image, which is
/// mounted next. After the last stop it is mounted without one.
///
/// # Errors
///
/// `Damage` with the first mount rule that fails, `Memory` where memory ran out, and `Fault` where the device failed in the
/// last mount.
pub fn mount_through(
    alloc: Global,
    dev: TracePm,
    stops: &[Stop],
) -> Result<Fs<TracePm>, NoMount<TracePm>>
    requires { IsSettled (history dev) }

    // Ok where no mount rule fails on the words at entry, and else the first that does: whatever the stops are.
    ensures judged { Judges (words_of dev) (why_not result) }

    // The file system has the tree on which the words at entry land.
    ensures keeps { IfOk result (λ fs. (t : Tree) → IsTree t → Lands (words_of dev) t → Keeps (inode_count (words_of dev)) fs.state t) }

    // Each stop is made: the mount there goes on, and what its crash leaves is what the stop has chosen.
    ensures through { IfOk result (λ fs. Through stops.now (history dev) (history (fs_dev fs))) }

    // Whatever a crash may leave now is of the state of the words at entry, and lands where they land.
    ensures images { (image : List ℕ) → IsAllowed (history (dev_after result)) image → SameState (words_of dev) image }
    ensures lands { (t : Tree) → Lands (words_of dev) t → (image : List ℕ) → IsAllowed (history (dev_after result)) image → Lands image t }

    ensures cause { IfErr result (λ no_mount. no_mount.why ≡ Why.Fault → Rose (faults_before stops.now dev) (faults_of no_mount.dev)) }
{
    match recover_through(alloc, dev, stops) {
        Ok(mounted) => with_memory(alloc, mounted),
        Err(no_mount) => Err(no_mount),
    }
}
