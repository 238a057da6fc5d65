// Calls that change bytes over a device that stops, and what a mount finds, beside a plain tree.
ghost use Rattle.std.specs.Prelude.{◌≡◌, IfOk};
ghost use Rattle.ct_pm.specs.Images.{IsSettled};
ghost use Rattle.pm_trace.specs.Meaning.{history};

use crate::script::{ENDLESS, LINES, blank, is_near_fence, scattered};
use ct_base::NoMemory;
use ct_fs::{Fs, format, mount};
use ct_plain::PlainTree;
use ct_pm::Pm;
use ct_tree::Call;
use pm_fuse::FusePm;
use pm_trace::TracePm;
use record_stops::{IMAGES, choices};
use script_runs::{change, is_alike};
use std::alloc::Global;
use std::process::Abort;
use std::test::Fail;

// A file of a page and some bytes, one of two pages, an exchange between them, cuts, a rename that replaces, one that does not,
// and a removal.
const CALLS: [Call<'static>; 13] = [
    Call::Create { path: b"/a" },
    Call::Write {
        path: b"/a",
        off: 0,
        bytes: b"A",
    },
    Call::Write {
        path: b"/a",
        off: 4095,
        bytes: b"BB",
    },
    Call::Create { path: b"/b" },
    Call::Fill {
        path: b"/b",
        off: 0,
        len: 8192,
        byte: 67,
    },
    Call::Exchange {
        path: b"/a",
        off: 0,
        other: b"/b",
        other_off: 4096,
        len: 4096,
    },
    Call::Append {
        path: b"/a",
        bytes: b"D",
    },
    Call::Truncate {
        path: b"/a",
        len: 5,
    },
    Call::Truncate {
        path: b"/b",
        len: 0,
    },
    Call::Rename {
        path: b"/a",
        to: b"/b",
    },
    Call::Append {
        path: b"/b",
        bytes: b"E",
    },
    Call::Rename {
        path: b"/b",
        to: b"/a",
    },
    Call::Unlink { path: b"/a" },
];

// How many there are, and how many of them come before the first stop.
const ALL: u64 = 13;

const BEFORE: u64 = 1;

// A device after a format and so many of the calls, as far as so many of its own calls go, and how many were done.
fn ran(alloc: Global, calls: u64, passes: u64) -> Result<(TracePm, u64), Fail> {
    let mut fs = match format(alloc, FusePm::new(blank(alloc)?, passes), 16) {
        Ok(fs) => fs,
        Err(no_mount) => return Ok((no_mount.dev.into_inner(), 0)),
    };
    let mut done: u64 = 0;
    for call in CALLS.iter().take(calls as usize) {
        if change(&mut fs, call) == Some(Ok(())) {
            done = done.saturating_add(1);
        }
    }
    Ok((fs.unmount().into_inner(), done))
}

// The plain tree after so many of these calls.
fn tree_after(alloc: Global, calls: &[Call<'_>], count: u64) -> Result<PlainTree, Fail> {
    let mut tree = PlainTree::new(alloc)?;
    for call in calls.iter().take(count as usize) {
        let _reply = tree.call(call)?;
    }
    Ok(tree)
}

// What is asked of a path: its size, and its first three pages.
const OFFSETS: [u64; 3] = [0, 4096, 8192];

// Whether both tell the same of a path: that nothing is there, or the same bytes.
fn are_alike<D: Pm>(fs: &mut Fs<D>, tree: &mut PlainTree, path: &[u8]) -> Result<bool, NoMemory> {
    for off in OFFSETS {
        let read = Call::Read {
            path,
            off,
            len: 4096,
        };
        if !is_alike(fs, tree, &read)? {
            return Ok(false);
        }
    }
    is_alike(fs, tree, &Call::Stat { path })
}

// Whether a file system holds the tree after so many of these calls.
fn is_after<D: Pm>(
    alloc: Global,
    fs: &mut Fs<D>,
    calls: &[Call<'_>],
    count: u64,
) -> Result<bool, Fail> {
    let mut tree = tree_after(alloc, calls, count)?;
    Ok(are_alike(fs, &mut tree, b"/a")? && are_alike(fs, &mut tree, b"/b")?)
}

// Whether what is left mounts, and holds the tree after so many of these calls.
fn holds_after(alloc: Global, left: TracePm, calls: &[Call<'_>], count: u64) -> Result<bool, Fail>
    requires { IsSettled (history left) }
{
    match mount(alloc, left) {
        Ok(mut fs) => {
            let after = is_after(alloc, &mut fs, calls, count);
            let _dev = fs.unmount();
            after
        }
        Err(_) => Ok(false),
    }
}

/// Whether an image of what is left holds the tree after so many of these calls, or after one more.
pub fn is_before_or_after(
    alloc: Global,
    dev: &TracePm,
    choice: &[u64],
    calls: &[Call<'_>],
    done: u64,
) -> Result<bool, Fail> {
    let left = dev.crash(alloc, choice, Vec::new(alloc))?;
    if holds_after(alloc, left, calls, done)? {
        return Ok(true);
    }
    let left = dev.crash(alloc, choice, Vec::new(alloc))?;
    holds_after(alloc, left, calls, done.saturating_add(1))
}

// Stops the calls after so many calls of the device, and mounts three images of what is left, and one in which each line
// stands at some step.
fn stop_after(rt: &impl Abort, alloc: Global, passes: u64) -> Result<(), Fail> {
    let (dev, done) = ran(alloc, ALL, passes)?;
    for image in IMAGES {
        let choice = choices(alloc, image, LINES)?;
        assert!(rt;
            is_before_or_after(alloc, &dev, &choice, &CALLS, done)?,
            "{image:?} after {passes} steps"
        );
    }
    let choice = scattered(alloc, dev.clock(), passes)?;
    assert!(rt;
        is_before_or_after(alloc, &dev, &choice, &CALLS, done)?,
        "scattered after {passes} steps"
    );
    Ok(())
}

#[test]
fn each_stop_of_a_change_mounts_to_the_tree_before_or_after(rt: HostRuntime) -> Result<(), Fail> {
    let alloc = rt.alloc();
    let (begin, _) = ran(alloc, BEFORE, ENDLESS)?;
    let (end, done) = ran(alloc, ALL, ENDLESS)?;
    assert_eq!(rt; done, ALL);
    for passes in begin.clock()..end.clock().saturating_add(1) {
        if passes % 97 == 0 || is_near_fence(&end, passes) {
            stop_after(&rt, alloc, passes)?;
        }
    }
    Ok(())
}
