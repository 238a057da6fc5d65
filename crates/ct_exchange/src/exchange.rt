// Two ranges of files change places.
ghost use Rattle.std.specs.Prelude.{◌≡◌, ◌≢◌, ℕ, ◌+◌, ◌≤◌, length, Some, Err, IsSomeAnd, IfOk, OnOk};
ghost use Rattle.ct_base.specs.Causes.{HasCause};
ghost use Rattle.ct_base.specs.Free.{HasFreePages};
ghost use Rattle.ct_base.specs.Inode.{inode};
ghost use Rattle.ct_base.specs.View.{inode_count, view};
ghost use Rattle.ct_base.specs.Wants.{missing};
ghost use Rattle.ct_pm.specs.Phase.{Phase};
ghost use Rattle.ct_record.specs.Seen.{device_behind};
ghost use Rattle.ct_tree.specs.Lands.{files};
ghost use Rattle.ct_tree.specs.Need.{HasNeed};
ghost use Rattle.ct_tree.specs.Step.{exchange};
ghost use Rattle.ct_tree.specs.Tree.{Tree};
ghost use Rattle.ct_call.specs.Answers.{IsPrepared};
ghost use Rattle.ct_call.specs.Calls.{Does, StandsFor};
ghost use Rattle.ct_commit.specs.Rest.{IsMounted};
ghost use Rattle.ct_find.specs.Directories.{KeepsDirectories};
ghost use Rattle.ct_find.specs.Files.{IsFileAt};
ghost use Rattle.ct_inode.specs.Live.{KeepsLive};
ghost use Rattle.ct_call.specs.Placed.{Places};
ghost use Rattle.ct_call.specs.Seen.{ready_in};
ghost use Rattle.ct_exchange.specs.Ranges.{AreApart, wants_of};
ghost use Rattle.ct_exchange.specs.Swapped.{HasSwapped, SwapsOrNot, SwapsWalks, files_after};

use crate::check::check_numbers;
use crate::plan::Ranges;
use ct_base::MOST_EXCHANGE_PAIRS;
use ct_call::{CallPlan, FsError, Mounted, State, check_space, ended, make_pages, refused};
use ct_dir::Finder;
use ct_find::find_files;
use ct_frames::Frames;
use ct_inode::get;
use ct_pm::Pm;
use ct_record::Broken;
use ct_swap::pswap_now;
use ct_tree::Refusal;

// What is exchanged and what it takes, or why it may not be. Nothing is stored.
fn prepare<D: Pm, F: Finder>(
    dev: &D,
    finder: &F,
    frames: &Frames,
    path: &[u8],
    off: u64,
    other: &[u8],
    other_off: u64,
    len: u64,
) -> Result<(Ranges, CallPlan), Refusal>
    requires known { F.agrees finder.now (D.words dev.now) }
    requires mounted { IsMounted (D.words dev.now) (D.told dev.now) frames.now }
    ensures answer { (t : Tree) → StandsFor (D.words dev.now) t → IsPrepared (D.words dev.now) t (exchange path.now off other.now other_off len) result }
    ensures first { IfOk result (λ found. IsFileAt (D.words dev.now) path.now found.0.first (inode (view (D.words dev.now)) found.0.first)) }
    ensures second { IfOk result (λ found. IsFileAt (D.words dev.now) other.now found.0.second (inode (view (D.words dev.now)) found.0.second)) }
    ensures numbers { IfOk result (λ found. found.0 ≡ record { first = found.0.first; off = off; second = found.0.second; other_off = other_off; len = len }) }
    ensures can { IfOk result (λ found. 1 ≤ found.0.len → AreApart (D.words dev.now) found.0) }
    ensures wants { IfOk result (λ found. found.1.wants ≡ wants_of (D.words dev.now) found.0) }
    ensures pages { IfOk result (λ found. missing (D.words dev.now) found.1.wants ≤ length frames.now.free) }
    ensures need { IfOk result (λ found. (need : ℕ) → HasNeed (D.words dev.now) (exchange path.now off other.now other_off len) need → need ≡ missing (D.words dev.now) found.1.wants) }
    ensures counted { OnOk result ((count : ℕ) → HasFreePages (D.words dev.now) count → count ≡ length frames.now.free) }
{
    let (first, second) = find_files(dev, finder, path, other)?;
    let size = get(dev, first).size;
    let other_size = get(dev, second).size;
    check_numbers(path, size, off, other, other_size, other_off, len)?;
    let ranges = Ranges {
        first,
        off,
        second,
        other_off,
        len,
    };
    let plan = ranges.plan(dev);
    match check_space(dev, frames, &plan) {
        Ok(()) => Ok((ranges, plan)),
        Err(refusal) => Err(refusal),
    }
}

// Makes the tables on both sides, and exchanges the ranges by one record. Without bytes there is nothing to exchange.
fn carry_out<D: Pm>(
    dev: D,
    frames: &mut Frames,
    ranges: &Ranges,
    plan: &CallPlan,
) -> Result<D, Broken<D>>
    requires mounted { IsMounted (D.words dev) (D.told dev) frames.old }
    requires can { 1 ≤ ranges.now.len → AreApart (D.words dev) ranges.now }
    requires wants { plan.now.wants ≡ wants_of (D.words dev) ranges.now }
    requires pages { missing (D.words dev) plan.now.wants ≤ length frames.old.free }

    ensures swapped { OnOk result (HasSwapped (D.words dev) (D.words (device_behind result)) ranges.now) }
    ensures files { OnOk result (files (D.words (device_behind result)) ≡ files_after (D.words dev) ranges.now) }
    ensures taken { OnOk result (length frames.new.free + missing (D.words dev) plan.now.wants ≡ length frames.old.free) }
    ensures counted { OnOk result (inode_count (D.words (device_behind result)) ≡ inode_count (D.words dev)) }
    ensures mounted { OnOk result (IsMounted (D.words (device_behind result)) (D.told (device_behind result)) frames.new) }

    // A crash at any moment lands on the objects before the exchange, or on those after it.
    ensures phase { Phase (SwapsOrNot (D.words dev) ranges.now) MOST_EXCHANGE_PAIRS (D.told dev) (D.told (device_behind result)) (D.words (device_behind result)) }
    ensures cause { HasCause (D.faults dev) (D.faults (device_behind result)) result }
{
    if ranges.len == 0 {
        return Ok(dev);
    }
    let (a, b, n) = ranges.pages(&dev);
    let mut dev = dev;
    match make_pages(&mut dev, frames, plan.wants.as_slice()) {
        Ok(()) => {}
        Err(_) => return Err(Broken { dev }),
    }
    pswap_now(dev, a, b, n)
}

/// Exchanges `len` bytes of two files, from an offset of each on.
pub fn exchange_in<D: Pm, F: Finder>(
    mounted: Mounted<D>,
    finder: &F,
    path: &[u8],
    off: u64,
    other: &[u8],
    other_off: u64,
    len: u64,
) -> (State<D>, Result<(), FsError>)
    requires { F.agrees finder.now (D.words mounted.dev) }
    ensures does { (t : Tree) → StandsFor (D.words mounted.dev) t → Does mounted t (exchange path.now off other.now other_off len) (Some result.0) result.1 }
    ensures places { OnOk result.1 (IsSomeAnd (ready_in (Some result.0)) (λ now. Places (D.words mounted.dev) (D.words now.dev) (exchange path.now off other.now other_off len))) }
    // After Ok the walks of the two ranges have changed places, and all others stay.
    ensures walks { OnOk result.1 (IsSomeAnd (ready_in (Some result.0)) (λ now. SwapsWalks (D.words mounted.dev) (D.words now.dev) path.now off other.now other_off len)) }
    ensures alive { result.1 ≢ Err FsError.Dead }
    // After Ok each inode that was live is live.
    ensures live { OnOk result.1 (IsSomeAnd (ready_in (Some result.0)) (λ now. KeepsLive (D.words mounted.dev) (D.words now.dev))) }
    // After Ok each directory is as it was.
    ensures directories { OnOk result.1 (IsSomeAnd (ready_in (Some result.0)) (λ now. KeepsDirectories (D.words mounted.dev) (D.words now.dev))) }
{
    let Mounted { dev, mut frames } = mounted;
    let (ranges, plan) = match prepare(&dev, finder, &frames, path, off, other, other_off, len) {
        Ok(found) => found,
        Err(refusal) => return refused(dev, frames, refusal),
    };
    let carried = carry_out(dev, &mut frames, &ranges, &plan);
    ended(carried, frames)
}
