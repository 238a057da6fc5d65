// A file system that comes to stand: made, or mounted.
ghost use Rattle.std.specs.Prelude.{◌≡◌, ◌≤◌, MatchResult};
ghost use Rattle.ct_pm.specs.Device.{NothingPending};
ghost use Rattle.ct_run.specs.Opened.{Opened, Unopened, devices};
ghost use Rattle.ct_run.specs.Ways.{IsWithinWay};
ghost use Rattle.ct_shell.specs.Moments.{moment};

use ct_base::{LEAST_INODES, MOST_INODES};
use ct_fs::{Fs, NoMount, format, mount};
use ct_pm::Pm;
use std::alloc::Global;

/// How a file system comes to stand.
#[derive(Clone, Copy)]
pub enum Way {
    /// It is made of all pages of the device, with so many inodes.
    Making { inodes: u64 },

    /// It is the one that the device holds.
    Mounting,
}

/// Opens the file system of a device.
pub fn open<D: Pm>(alloc: Global, dev: D, way: Way) -> Result<Fs<D>, NoMount<D>>
    requires settled { NothingPending (D.told dev) }
    requires fits { IsWithinWay way }
    ensures { MatchResult result
        (λ fs. Opened way (D.page_count dev) (D.faults dev) (moment (D.told dev) (D.words dev)) fs.state)
        (λ no. Unopened way no.why (devices dev no.dev (moment (D.told dev) (D.words dev)) (moment (D.told no.dev) (D.words no.dev))
        (D.page_count dev) (D.faults dev) (D.faults no.dev))) }
{
    match way {
        Way::Making { inodes } => open_new(alloc, dev, inodes),
        Way::Mounting => open_held(alloc, dev),
    }
}

// Makes one.
fn open_new<D: Pm>(alloc: Global, dev: D, inodes: u64) -> Result<Fs<D>, NoMount<D>>
    requires two { LEAST_INODES ≤ inodes }
    requires few { inodes ≤ MOST_INODES }
    requires settled { NothingPending (D.told dev) }
    ensures { MatchResult result
        (λ fs. Opened (Way.Making inodes) (D.page_count dev) (D.faults dev) (moment (D.told dev) (D.words dev)) fs.state)
        (λ no. Unopened (Way.Making inodes) no.why (devices dev no.dev (moment (D.told dev) (D.words dev))
        (moment (D.told no.dev) (D.words no.dev)) (D.page_count dev) (D.faults dev) (D.faults no.dev))) }
{
    match format(alloc, dev, inodes) {
        Ok(fs) => Ok(fs),
        Err(no_mount) => Err(no_mount),
    }
}

// Mounts the one that is there.
fn open_held<D: Pm>(alloc: Global, dev: D) -> Result<Fs<D>, NoMount<D>>
    requires { NothingPending (D.told dev) }
    ensures { MatchResult result
        (λ fs. Opened Way.Mounting (D.page_count dev) (D.faults dev) (moment (D.told dev) (D.words dev)) fs.state)
        (λ no. Unopened Way.Mounting no.why (devices dev no.dev (moment (D.told dev) (D.words dev))
        (moment (D.told no.dev) (D.words no.dev)) (D.page_count dev) (D.faults dev) (D.faults no.dev))) }
{
    match mount(alloc, dev) {
        Ok(fs) => Ok(fs),
        Err(no_mount) => Err(no_mount),
    }
}
