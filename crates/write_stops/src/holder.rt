// A device whose first file is written.
ghost use Rattle.std.specs.Prelude.{◌≡◌, ◌≤◌, IsTrue, length};
ghost use Rattle.ct_base.specs.Inode.{inode as inode_at, part};
ghost use Rattle.ct_base.specs.Plan.{write_wants as plan_wants};
ghost use Rattle.ct_base.specs.View.{view};
ghost use Rattle.ct_base.specs.Wants.{missing as missing_of};
ghost use Rattle.ct_call.specs.Mounted.{Volume};
ghost use Rattle.ct_grow.specs.Grown.{IsReady};
ghost use Rattle.ct_write.specs.Written.{CanWrite};
ghost use Rattle.write_stops.specs.Held.{IsHeld};

use ct_base::{FILE_KIND, TOP_LEVEL};
use ct_frames::Frames;
use ct_inode::get;
use ct_level::length_of;
use ct_plan::write_wants;
use ct_pm::Pm;
use ct_record::Broken;
use ct_walk::missing;
use ct_write::{Data, commit_write, len_of};
use growth_stops::Resting;
use std::marker::Model;

/// The inode of the file.
pub const FILE: u64 = 2;

/// A device whose first file may be written, and the pages that are free on it.
#[derive(Drop)]
pub struct Holder<D: Pm> {
    dev: D,
    frames: Frames,
}

impl<D: Pm> Model for Holder<D> {
    ghost Value = { Volume D };

    ghost view = { λ h. record { dev = h.dev; frames = h.frames } };

    ghost invariant = { λ h. IsHeld (D.words h.dev) (D.told h.dev) h.frames };
}

/// How a write ended.
#[derive(Drop)]
pub enum Wrote<D: Pm> {
    /// The bytes are written.
    Done(Holder<D>),

    /// The device failed on the way.
    Stopped(D),

    /// The file has no room for them, or the device: no step was made.
    Refused,
}

// Whether the file has room for bytes at an offset, and the pages for them are free.
fn can_write<D: Pm>(dev: &D, frames: &Frames, off: u64, len: u64) -> bool
    requires { IsReady (D.words dev.now) }
    ensures can { IsTrue result → CanWrite (D.words dev.now) FILE off len }
    ensures room { IsTrue result → missing_of (D.words dev.now) (plan_wants (inode_at (view (D.words dev.now)) FILE) off len (part (inode_at (view (D.words dev.now)) FILE))) ≤ length frames.now.free }
{
    let inode = get(dev, FILE);
    if inode.kind != FILE_KIND || inode.level > TOP_LEVEL || len == 0 {
        return false;
    }
    let most = length_of(inode.level as u32);
    if off > most || len > most - off {
        return false;
    }
    let wants = write_wants(inode, off, len, inode.base);
    missing(dev, &wants) <= frames.free()
}

impl<D: Pm + Drop> Holder<D> {
    /// A device at rest.
    pub fn of(resting: Resting<D>) -> Holder<D> {
        let (dev, frames) = resting.into_parts();
        Holder { dev, frames }
    }

    /// Writes the bytes at an offset of the file.
    pub fn write(self, off: u64, what: Data<'_>) -> Wrote<D> {
        let Holder { dev, mut frames } = self;
        if !can_write(&dev, &frames, off, len_of(what)) {
            return Wrote::Refused;
        }
        match commit_write(dev, &mut frames, FILE, off, what) {
            Ok(dev) => Wrote::Done(Holder { dev, frames }),
            Err(Broken { dev }) => Wrote::Stopped(dev),
        }
    }

    /// The device.
    pub fn dev(&self) -> &D {
        &self.dev
    }

    /// How many pages are free.
    pub fn free(&self) -> u64 {
        self.frames.free()
    }

    /// The device by itself.
    pub fn into_dev(self) -> D {
        let Holder { dev, frames: _ } = self;
        dev
    }
}
