// One mount after another, each on what a crash in the last one left.
ghost use Rattle.std.specs.Prelude.{◌≡◌, ◌≢◌, ℕ, List, Some, IfErr, IfOk};
ghost use Rattle.ct_base.specs.Causes.{Rose};
ghost use Rattle.ct_base.specs.Head.{HasHead};
ghost use Rattle.ct_base.specs.State.{SameState};
ghost use Rattle.ct_base.specs.View.{inode_count};
ghost use Rattle.ct_call.specs.Calls.{Holds};
ghost use Rattle.ct_call.specs.NotMounted.{image_dev, why_not};
ghost use Rattle.ct_mount.specs.Mounting.{Judges};
ghost use Rattle.ct_pm.specs.Images.{IsAllowed, IsSettled};
ghost use Rattle.ct_tree.specs.Lands.{Lands};
ghost use Rattle.ct_tree.specs.Ordered.{IsTree};
ghost use Rattle.ct_tree.specs.Tree.{Tree};
ghost use Rattle.pm_trace.specs.Meaning.{faults_of, history, words_of};
ghost use Rattle.mount_stops.specs.Stops.{GoesOn, IsStopped, Through, faults_before, trace_after};

use ct_call::{Mounted, NoMount, Why};
use ct_mount::recover;
use pm_fuse::FusePm;
use pm_trace::TracePm;
use std::alloc::Global;

/// A stop in a mount: how many calls of the device pass before it fails, and for each line the step after which the crash
/// shows it.
#[derive(Drop)]
pub struct Stop {
    pub passes: u64,
    pub choice: Vec<u64>,
}

// Mounts over a fuse, and hands the device back, whether it was mounted or failed. Damage and want of memory are errors.
fn mount_once(alloc: Global, dev: TracePm, passes: u64) -> Result<TracePm, NoMount<TracePm>>
    requires { IsSettled (history dev) }
    ensures head { IfOk result (λ left. HasHead (words_of dev)) }
    ensures judged { IfErr result (λ no_mount. Judges (words_of dev) (Some no_mount.why)) }
    ensures alive { IfErr result (λ no_mount. no_mount.why ≢ Why.Fault) }
    ensures goes_on { GoesOn (history dev) (history (trace_after result)) }
    ensures images { (image : List ℕ) → IsAllowed (history (trace_after result)) image → SameState (words_of dev) image }
{
    match recover(alloc, FusePm::new(dev, passes)) {
        Ok(mounted) => {
            let Mounted { dev, frames: _ } = mounted;
            Ok(dev.into_inner())
        }
        Err(no_mount) => {
            let NoMount { dev, why } = no_mount;
            let dev = dev.into_inner();
            match why {
                Why::Fault => Ok(dev),
                _ => Err(NoMount { dev, why }),
            }
        }
    }
}

// Mounts over a fuse, and gives what a crash leaves then.
fn stop_at(alloc: Global, dev: TracePm, stop: &Stop) -> Result<TracePm, NoMount<TracePm>>
    requires { IsSettled (history dev) }
    ensures state { IfOk result (λ left. SameState (words_of dev) (words_of left)) }
    ensures settled { IfOk result (λ left. IsSettled (history left)) }
    ensures faults { IfOk result (λ left. faults_of left ≡ 0) }
    ensures stopped { IfOk result (λ left. IsStopped stop.now (history dev) (history left)) }
    ensures judged { IfErr result (λ no_mount. Judges (words_of dev) (Some no_mount.why)) }
    ensures alive { IfErr result (λ no_mount. no_mount.why ≢ Why.Fault) }
    ensures images { IfErr result (λ no_mount. (image : List ℕ) → IsAllowed (history no_mount.dev) image → SameState (words_of dev) image) }
{
    let dev = mount_once(alloc, dev, stop.passes)?;
    match dev.crash(alloc, &stop.choice, Vec::new(alloc)) {
        Ok(left) => Ok(left),
        Err(_) => Err(NoMount {
            dev,
            why: Why::Memory,
        }),
    }
}

/// Mounts a device through stops: at each a mount fails in its midst, or is done, and then a crash leaves its image, which is
/// mounted next. After the last stop it is mounted without one.
///
/// # Errors
///
/// `Damage` with the first mount rule that fails, `Memory` where memory ran out, and `Fault` where the device failed in the
/// last mount.
pub fn mount_through(
    alloc: Global,
    dev: TracePm,
    stops: &[Stop],
) -> Result<Mounted<TracePm>, NoMount<TracePm>>
    requires { IsSettled (history dev) }

    // Ok where no mount rule fails on the words at entry, and else the first that does: whatever the stops are.
    ensures judged { Judges (words_of dev) (why_not result) }

    // What is mounted holds the tree on which the words at entry land.
    ensures holds { IfOk result (λ made. (t : Tree) → IsTree t → Lands (words_of dev) t
        → Holds (inode_count (words_of dev)) t (words_of made.dev) (Some (history made.dev))) }

    // Each stop is made: the mount there goes on, and what its crash leaves is what the stop has chosen.
    ensures through { IfOk result (λ made. Through stops.now (history dev) (history made.dev)) }

    // Whatever a crash may leave now is of the state of the words at entry, and lands where they land.
    ensures images { (image : List ℕ) → IsAllowed (history (image_dev result)) image → SameState (words_of dev) image }
    ensures lands { (t : Tree) → Lands (words_of dev) t → (image : List ℕ) → IsAllowed (history (image_dev result)) image → Lands image t }

    ensures cause { IfErr result (λ no_mount. no_mount.why ≡ Why.Fault → Rose (faults_before stops.now dev) (faults_of no_mount.dev)) }
{
    let mut dev = dev;
    for stop in stops {
        match stop_at(alloc, dev, stop) {
            Ok(left) => dev = left,
            Err(no_mount) => return Err(no_mount),
        }
    }
    recover(alloc, dev)
}
