// A mounted file system.
ghost use Rattle.std.specs.Prelude.{◌≡◌, Some, None, IfErr, IfOk, IfSome, IsSome};
ghost use Rattle.ct_call.specs.Seen.{ready_in};
ghost use Rattle.ct_commit.specs.Rest.{IsMounted};
ghost use Rattle.ct_fs.specs.Remembering.{IsRemembered};
ghost use Rattle.ct_learn.specs.Learning.{IsSo};
ghost use Rattle.std.proofs.Props.{props};

use crate::remembered::Remembered;
use ct_call::{Failed, Mounted, State};
use ct_frames::Frames;
use ct_learn::Learnt;
use ct_pm::Pm;

/// A mounted file system.
///
/// Once a call has answered [`FsError::Fault`], all later calls but `peek` and `unmount` answer [`FsError::Dead`].
pub struct Fs<D: Pm> {
    // `None` only while a call has the device.
    pub(crate) state: Option<State<D>>,
    pub(crate) remembered: Remembered,
    ghost here: { IsSome state },
    // What is remembered is so: each name and page that was learnt is what the search and the walk answer on the device.
    ghost so: { IfSome (ready_in state) (λ now. IsRemembered (D.words now.dev) remembered) } by { Prim.hlevel props },
}

impl<D: Pm> Fs<D> {
    ghost use Rattle.ct_fs.specs.Mounts.{mounts, device_of};

    // A mount that is ready, and has learnt something of its device or nothing.
    pub(crate) fn of(mounted: Mounted<D>, learnt: Learnt) -> Fs<D>
        requires { IsSo learnt (D.words mounted.dev) }
        ensures { mounts result ≡ Some mounted }
    {
        Fs {
            state: Some(State::Ready(mounted)),
            remembered: Remembered {
                learnt,
                free_from: 1,
            },
        }
    }

    /// The device, as the calls left it.
    pub fn unmount(self) -> D
        ensures { Some result ≡ device_of self }
    {
        let Fs {
            state,
            remembered: _,
        } = self;
        match state {
            Some(State::Ready(mounted)) => {
                let Mounted { dev, frames: _ } = mounted;
                dev
            }
            Some(State::Dead(failed)) => {
                let Failed { dev } = failed;
                dev
            }
            None => unreachable!(),
        }
    }
}

impl<D: Pm> Fs<D> {
    ghost use Rattle.ct_fs.specs.Mounts.{mounts, device_of};

    /// The mount of a device that is at rest, with its free pages, as [`Fs::into_parts`] answers them. It takes no memory, and so
    /// learns no names and no pages.
    pub fn from_parts(dev: D, frames: Frames) -> Fs<D>
        requires rest { IsMounted (D.words dev) (D.told dev) frames }
        ensures ready { mounts result ≡ Some (record { dev = dev; frames = frames }) }
    {
        Fs::of(Mounted { dev, frames }, Learnt::nothing())
    }

    /// The device of the mount, at rest, and its free pages, or the device alone where a call met a fault of it.
    pub fn into_parts(self) -> Result<(D, Frames), D>
        ensures rest { IfOk result (λ parts. IsMounted (D.words parts.0) (D.told parts.0) parts.1) }
        ensures ready { IfOk result (λ parts. mounts self ≡ Some (record { dev = parts.0; frames = parts.1 })) }
        ensures dead { IfErr result (λ dev. (mounts self ≡ None) × (device_of self ≡ Some dev)) }
    {
        let Fs {
            state,
            remembered: _,
        } = self;
        match state {
            Some(State::Ready(mounted)) => {
                let Mounted { dev, frames } = mounted;
                Ok((dev, frames))
            }
            Some(State::Dead(failed)) => {
                let Failed { dev } = failed;
                Err(dev)
            }
            None => unreachable!(),
        }
    }
}

/// Puts a value where there is none.
pub(crate) fn put_back<T>(place: &mut Option<T>, value: T)
    requires { place.old ≡ None }
    ensures { place.new ≡ Some value }
{
    match place.replace(value) {
        None => {}
        Some(_) => unreachable!(),
    }
}
