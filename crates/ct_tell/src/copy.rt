// An image is copied, and the copy is mounted.
ghost use Rattle.std.specs.Prelude.{◌≡◌, ◌≢◌, IfErr, IfOk, None};
ghost use Rattle.ct_base.specs.Head.{HasHead};
ghost use Rattle.ct_check.specs.First.{MountHolds, MountRule};
ghost use Rattle.ct_commit.specs.Rest.{StandsFor};
ghost use Rattle.ct_mount.specs.Mounting.{IsSettledFrom};
ghost use Rattle.ct_pm.specs.Ram.{words_of};
ghost use Rattle.ct_tree.specs.Lands.{Lands};
ghost use Rattle.ct_tree.specs.Ordered.{IsTree};
ghost use Rattle.ct_tree.specs.Tree.{Tree};
ghost use Rattle.ct_tell.specs.Told.{IsWhy, WasWhy};

use ct_base::{NoMemory, PAGE_WORDS};
use ct_call::{Mounted, NoMount, Why};
use ct_check::{CheckFault, check_head};
use ct_mount::recover;
use ct_pm::{Pm, RamPm};
use std::alloc::Global;

/// Copies the words of an image into plain memory.
fn copy_of<D: Pm>(alloc: Global, image: &D) -> Result<RamPm, NoMemory>
    requires { HasHead (D.words image.now) }
    ensures { IfOk result (λ copy. words_of copy ≡ D.words image.now) }
{
    let pages = image.pages();
    let mut copy = RamPm::new(alloc, pages)?;
    for word in 0..PAGE_WORDS * pages {
        match copy.store(word, image.load(word)) {
            Ok(()) => {}
            Err(_) => unreachable!(),
        }
    }
    Ok(copy)
}

/// Mounts a copy of an image: an open record is applied to the copy, and the image is as it was.
///
/// # Errors
///
/// `Damage` with the first mount rule that fails, and `Memory` where memory ran out.
pub fn mounted_copy<D: Pm>(alloc: Global, image: &D) -> Result<Mounted<RamPm>, CheckFault>
    ensures why { IfErr result (IsWhy (D.words image.now)) }
    ensures holds { IfOk result (λ made. (r : MountRule) → MountHolds (D.words image.now) r) }
    ensures settled { IfOk result (λ made. IsSettledFrom (D.words image.now) (words_of made.dev) None) }
    ensures stands { IfOk result (λ made. (t : Tree) → IsTree t → Lands (D.words image.now) t → StandsFor (words_of made.dev) t) }
{
    if let Err(rule) = check_head(image) {
        return Err(CheckFault::Damage(rule));
    }
    let Ok(copy) = copy_of(alloc, image) else {
        return Err(CheckFault::Memory);
    };
    match recover(alloc, copy) {
        Ok(mounted) => Ok(mounted),
        Err(no_mount) => Err(fault_of(no_mount.why)),
    }
}

// Why plain memory was not mounted: it never fails.
fn fault_of(why: Why) -> CheckFault
    requires { why ≢ Why.Fault }
    ensures { WasWhy why result }
{
    match why {
        Why::Damage(rule) => CheckFault::Damage(rule),
        Why::Memory => CheckFault::Memory,
        Why::Fault => unreachable!(),
    }
}
