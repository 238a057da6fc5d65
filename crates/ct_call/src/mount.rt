// A device that is mounted, and what calls answer.
ghost use Rattle.std.specs.Prelude.{length};
ghost use Rattle.ct_base.specs.Settled.{HasPages};
ghost use Rattle.ct_call.specs.Mounted.{Volume};
ghost use Rattle.ct_commit.specs.Rest.{IsMounted};

use ct_frames::Frames;
use ct_pm::Pm;
use ct_tree::Refusal;
use std::marker::Model;
use thiserror::Error;

/// A device whose words stand for a tree, and its free pages.
pub struct Mounted<D: Pm> {
    pub dev: D,
    pub frames: Frames,
}

impl<D: Pm> Model for Mounted<D> {
    ghost Value = { Volume D };

    ghost view = { λ m. record { dev = m.dev; frames = m.frames } };

    ghost invariant = { λ m. IsMounted (D.words m.dev) (D.told m.dev) m.frames };
}

/// A mount, until a call meets a fault of the device.
pub enum State<D: Pm> {
    Ready(Mounted<D>),
    Dead(Failed<D>),
}

/// A device that failed.
pub struct Failed<D: Pm> {
    pub dev: D,
    ghost pages: { HasPages (D.words dev) },
}

/// Why a call did not do what it is for.
#[derive(Clone, Copy, Debug, PartialEq, Eq, Error)]
pub enum FsError {
    #[error("the device failed in an earlier call")]
    Dead,
    #[error("refused")]
    Refused(Refusal),
    #[error("the device failed")]
    Fault,
}

/// Why a device was not mounted.
#[derive(Clone, Copy, Debug, PartialEq, Eq, Error)]
pub enum Why {
    /// The number of the first mount rule that fails.
    #[error("not an image (rule {0})")]
    Damage(u32),
    #[error("the device failed")]
    Fault,
    #[error("no memory")]
    Memory,
}

/// A device that was not mounted.
#[derive(Drop)]
pub struct NoMount<D> {
    pub dev: D,
    pub why: Why,
}
