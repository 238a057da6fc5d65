// How a call ends: it is refused and nothing was stored, or what was carried out is told and the mount is put back.
ghost use Rattle.std.specs.Prelude.{◌≡◌, ◌≢◌, ◌⊎◌, ℕ, Some, Err, length, IsOk, OnOk};
ghost use Rattle.ct_base.specs.Causes.{HasCause};
ghost use Rattle.ct_base.specs.Free.{HasFreePages};
ghost use Rattle.ct_base.specs.Settled.{HasPages};
ghost use Rattle.ct_commit.specs.Rest.{IsMounted};
ghost use Rattle.ct_pm.specs.Phase.{Phase};
ghost use Rattle.ct_record.specs.Seen.{device_behind};
ghost use Rattle.ct_tree.specs.Lands.{Lands};
ghost use Rattle.ct_tree.specs.Step.{Op};
ghost use Rattle.ct_tree.specs.Tree.{Tree};
ghost use Rattle.ct_call.specs.Answers.{IsRefused};
ghost use Rattle.ct_call.specs.Calls.{Does, IsChange, StandsFor, after, most_pairs};
ghost use Rattle.ct_call.specs.Carried.{Reaches, Starts};
ghost use Rattle.ct_call.specs.Mounted.{Volume};
ghost use Rattle.ct_call.specs.Seen.{ready_in};

use crate::mount::{Failed, FsError, Mounted, State};
use ct_frames::Frames;
use ct_pm::Pm;
use ct_record::Broken;
use ct_tree::Refusal;

/// Ends a call that is refused. The mount is as it was.
pub fn refused<D: Pm>(dev: D, frames: Frames, refusal: Refusal) -> (State<D>, Result<(), FsError>)
    requires mounted { IsMounted (D.words dev) (D.told dev) frames }

    // Where the call is refused so by its tree or for space, this is all that it does.
    ensures does { (t : Tree) (op : Op) → IsChange op → StandsFor (D.words dev) t → IsRefused (D.words dev) t op refusal
        → Does (record { dev = dev; frames = frames }) t op (Some result.0) result.1 }
    ensures answer { result.1 ≡ Err (FsError.Refused refusal) }
{
    (
        State::Ready(Mounted { dev, frames }),
        Err(FsError::Refused(refusal)),
    )
}

/// Ends a call that was carried out: the mount is put back, or it is dead where the device failed.
pub fn ended<D: Pm>(
    carried: Result<D, Broken<D>>,
    frames: Frames,
) -> (State<D>, Result<(), FsError>)
    requires mounted { OnOk carried (IsMounted (D.words (device_behind carried)) (D.told (device_behind carried)) frames) }
    requires pages { HasPages (D.words (device_behind carried)) }

    // Where it reached the tree of the call, or failed on the way, this is all that the call does.
    ensures does { (was : Volume D) (t : Tree) (op : Op) → Starts (D.words was.dev) t op
        → OnOk carried (Reaches (D.words was.dev) (D.words (device_behind carried)) t op)
        → Phase (λ image. Lands image t ⊎ Lands image (after t op)) (most_pairs op) (D.told was.dev) (D.told (device_behind carried)) (D.words (device_behind carried))
        → HasCause (D.faults was.dev) (D.faults (device_behind carried)) carried
        → Does was t op (Some result.0) result.1 }

    // After Ok nothing failed, and the mount has the device that was handed back, with as many free pages as its words say.
    ensures done { OnOk result.1 (IsOk carried) }
    ensures left { OnOk result.1 (ready_in (Some result.0) ≡ Some (record { dev = device_behind carried; frames = frames })) }
    ensures free { OnOk carried ((count : ℕ) → HasFreePages (D.words (device_behind carried)) count → count ≡ length frames.free) }
    ensures alive { result.1 ≢ Err FsError.Dead }
{
    match carried {
        Ok(dev) => {
            // Not the count is wanted, but what its contract says: the free pages are a list that can be counted.
            let _ = frames.free();
            (State::Ready(Mounted { dev, frames }), Ok(()))
        }
        Err(broken) => {
            let Broken { dev } = broken;
            (State::Dead(Failed { dev }), Err(FsError::Fault))
        }
    }
}
