// The file system of an empty tree.
ghost use Rattle.std.specs.Prelude.{◌≡◌, ◌≢◌, ◌⊎◌, ◌↔◌, ℕ, List, [], ◌∷◌, ◌-◌, ◌*◌, ◌<◌, ◌≤◌, IfNone, IfOk, IfErr, IfSome, IsSomeAnd, OnOk, OnErr, Some, length, slice_set};
ghost use Rattle.ct_base.specs.Causes.{HasCause, Rose};
ghost use Rattle.ct_base.specs.Format.{IsFormatted};
ghost use Rattle.ct_pm.specs.Device.{LeavesOnly, MakesOnly, NothingPending, SameOff, with_steps};
ghost use Rattle.ct_frames.specs.Free.{rising};
ghost use Rattle.ct_tree.specs.Tree.{Dir, none};
ghost use Rattle.ct_call.specs.Calls.{Keeps};
ghost use Rattle.ct_call.specs.declared.mount.Why.{Why};
ghost use Rattle.ct_format.specs.Made.{IsMissized, IsNew, image_dev, why_not};
ghost use Rattle.ct_learn.specs.Learning.{IsSo};
ghost use Rattle.ct_fs.specs.Mounts.{dev_after};
ghost use Rattle.ct_fs.specs.Mounts.{fs_dev, mounts};
ghost use Rattle.ct_pm.specs.declared.step.Step.TheVariants.{Store, Flush};
ghost use Rattle.ct_format.specs.Formatting.{Formats, HasWords, IsFormatImage, IsFormatWord, IsGate, IsHeadWord, IsLaidOut, IsTableWord, Laid, Lays, Makes, format_word, magic_steps};

use crate::system::Fs;
use ct_base::{LEAST_INODES, LEAST_PAGES, MOST_INODES, MOST_PAGES};
use ct_cache::Caches;
use ct_call::{NoMount, Why};
use ct_format::make_image;
use ct_learn::Learnt;
use ct_pm::Pm;
use std::alloc::Global;

// Memory for what is learnt of a device of a lawful size; `None` where it ran out.
fn learnt_for(alloc: Global, pages: u64) -> Option<Learnt>
    ensures so { IfSome result (λ learnt. (words : List ℕ) → IsSo learnt words) }
    ensures sized { IfNone result (IsMissized pages → ⊥) }
{
    if pages < LEAST_PAGES || pages > MOST_PAGES {
        return Some(Learnt::nothing());
    }
    match Caches::new(alloc) {
        Ok(caches) => Some(Learnt::within(caches)),
        Err(_) => None,
    }
}

/// Makes a file system with an empty root directory of all pages of a device, with so many inodes.
///
/// # Errors
///
/// `Damage(0)` exactly where the device has fewer than `LEAST_PAGES` or more than `MOST_PAGES` pages, `Memory` where memory ran out: then
/// the device is as it was. `Fault` where the device failed.
pub fn format<D: Pm>(alloc: Global, dev: D, inodes: u64) -> Result<Fs<D>, NoMount<D>>
    requires two { LEAST_INODES ≤ inodes }
    requires few { inodes ≤ MOST_INODES }
    requires settled { NothingPending (D.told dev) }

    ensures made { IfOk result (λ fs. IsSomeAnd (mounts fs) (λ now. IsNew (D.words now.dev) now.frames (D.page_count dev) inodes)) }
    ensures settled { IfOk result (λ fs. NothingPending (D.told (fs_dev fs))) }
    ensures keeps { IfOk result (λ fs. Keeps inodes fs.state (Dir none)) }

    ensures size { (rule : ℕ) → (why_not result ≡ Some (Why.Damage rule)) ↔ ((rule ≡ 0) × IsMissized (D.page_count dev)) }
    ensures untouched { IfErr result (λ no_mount. no_mount.why ≢ Why.Fault → no_mount.dev ≡ dev) }
    ensures cause { IfErr result (λ no_mount. no_mount.why ≡ Why.Fault → Rose (D.faults dev) (D.faults no_mount.dev)) }
    ensures later { D.faults dev ≤ D.faults (dev_after result) }

    // No word but those of the image is stored to: from page 42 on all stays, and so does the record behind its gates.
    ensures others { SameOff IsFormatWord (D.words (dev_after result)) (D.words dev) }
    ensures stores { MakesOnly (λ at put. IsFormatWord at) (D.told dev) (D.told (dev_after result)) }

    // A crash at any moment leaves what the device held, what mount rule 1 refuses, or what lands on the empty tree.
    ensures any_moment { LeavesOnly (D.told dev) (D.told (dev_after result)) (IsFormatImage (D.words dev)) }

    // Until the first fence a crash leaves what the device held, or what mount rule 1 refuses; then what it refuses; and from
    // the store of the magic on also what lands on the empty tree.
    ensures moments { Formats (D.words dev) (D.told dev) (D.told (dev_after result)) }

    // So do the words as they read, at Ok and at a fault.
    ensures reads { IsFormatImage (D.words dev) (D.words (dev_after result)) }
{
    let Some(learnt) = learnt_for(alloc, dev.pages()) else {
        return Err(NoMount {
            dev,
            why: Why::Memory,
        });
    };
    match make_image(alloc, dev, inodes) {
        Ok(made) => Ok(Fs::of(made, learnt)),
        Err(no_mount) => Err(no_mount),
    }
}
