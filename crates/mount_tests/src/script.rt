// A script over a device that stops, and the tree that a mount finds.
ghost use Rattle.std.specs.Prelude.{◌≡◌, ◌<◌, ◌≤◌, IfOk, length};
ghost use Rattle.ct_pm.specs.Images.{IsSettled};
ghost use Rattle.pm_trace.specs.Meaning.{history};

use create_stops::reader::{Entry, holds};
use ct_base::DIRECTORY_KIND;
use ct_fs::{Fs, FsError, Why, format, mount};
use ct_pm::{Pm, Step};
use pm_fuse::FusePm;
use pm_trace::TracePm;
use record_stops::{IMAGES, choices};
use std::alloc::{AllocError, Global};
use std::process::Abort;
use std::test::Fail;

// The pages of the device, and the room for its steps.
const PAGES: u64 = 256;

const ROOM: u64 = 100_000;

/// More calls than the script makes.
pub const ENDLESS: u64 = 1_000_000;

/// The lines of the device.
pub const LINES: u64 = 64 * 256;

// A device of words 0, which starts with nothing pending.
pub fn blank(alloc: Global) -> Result<TracePm, Fail>
    ensures { IfOk result (λ device. IsSettled (history device)) }
{
    let words = vec![in alloc; 0; 512 * PAGES as usize]?;
    Ok(TracePm::new(alloc, words, ROOM, Vec::new(alloc))?)
}

// A call of the script.
fn play<D: Pm>(fs: &mut Fs<D>, call: u64) -> Result<(), FsError> {
    match call {
        0 => fs.create(b"/a"),
        1 => fs.mkdir(b"/d"),
        _ => fs.create(b"/d/b"),
    }
}

/// A device after a format and the first few calls of the script, as far as so many of its own calls go.
#[derive(Drop)]
pub struct Ran {
    pub dev: TracePm,
    /// How many calls were done.
    pub done: u64,
}

pub fn run(alloc: Global, calls: u64, passes: u64) -> Result<Ran, Fail> {
    let fuse = FusePm::new(blank(alloc)?, passes);
    let mut fs = match format(alloc, fuse, 16) {
        Ok(fs) => fs,
        Err(no_mount) => {
            return Ok(Ran {
                dev: no_mount.dev.into_inner(),
                done: 0,
            });
        }
    };
    let mut done: u64 = 0;
    for call in 0..calls {
        if play(&mut fs, call).is_ok() {
            done = done.saturating_add(1);
        }
    }
    Ok(Ran {
        dev: fs.unmount().into_inner(),
        done,
    })
}

// An empty file.
fn file(name: u8, inode: u64) -> Entry {
    Entry {
        name,
        inode,
        kind: 1,
        size: 0,
    }
}

// A directory with so many slots.
fn directory(name: u8, inode: u64, slots: u8) -> Entry {
    Entry {
        name,
        inode,
        kind: DIRECTORY_KIND,
        size: 256 * slots as u64,
    }
}

/// After how many calls of the script the device holds its tree, as a reader of the image finds it.
pub fn found<D: Pm>(dev: &D) -> Option<u64> {
    let a = file(b'a', 2);
    if holds(dev, 1, &[]) {
        return Some(0);
    }
    if holds(dev, 1, &[a]) {
        return Some(1);
    }
    if holds(dev, 1, &[a, directory(b'd', 3, 0)]) {
        return Some(2);
    }
    if holds(dev, 1, &[a, directory(b'd', 3, 1)]) && holds(dev, 3, &[file(b'b', 4)]) {
        return Some(3);
    }
    None
}

// What is found where a device is mounted.
fn mounts(alloc: Global, left: TracePm) -> Result<Option<u64>, Why>
    requires { IsSettled (history left) }
{
    match mount(alloc, left) {
        Ok(fs) => Ok(found(&fs.unmount())),
        Err(no_mount) => Err(no_mount.why),
    }
}

// For each line some step of so many, by a number.
pub fn scattered(alloc: Global, steps: u64, number: u64) -> Result<Vec<u64>, AllocError> {
    let mut choices = Vec::new(alloc);
    let mut state = number;
    for _ in 0..LINES {
        state = state
            .wrapping_mul(6_364_136_223_846_793_005)
            .wrapping_add(1_442_695_040_888_963_407);
        choices.push((state >> 33) % steps.max(1))?;
    }
    Ok(choices)
}

// Whether an image of what is left is mounted, and holds the tree before the next call or after it.
fn is_before_or_after(alloc: Global, ran: &Ran, choice: &[u64]) -> Result<bool, Fail> {
    let left = ran.dev.crash(alloc, choice, Vec::new(alloc))?;
    let there = mounts(alloc, left);
    Ok(there == Ok(Some(ran.done)) || there == Ok(Some(ran.done.saturating_add(1))))
}

// Stops the script after so many calls of the device, and mounts three images of what is left, and one more in which each
// line stands at some step.
fn stop_after(rt: &impl Abort, alloc: Global, passes: u64) -> Result<(), Fail> {
    let ran = run(alloc, 3, passes)?;
    for image in IMAGES {
        let choice = choices(alloc, image, LINES)?;
        assert!(rt;
            is_before_or_after(alloc, &ran, &choice)?,
            "{image:?} after {passes} steps"
        );
    }
    let choice = scattered(alloc, ran.dev.clock(), passes)?;
    assert!(rt;
        is_before_or_after(alloc, &ran, &choice)?,
        "scattered after {passes} steps"
    );
    Ok(())
}

// Whether step i is a fence, or the one before or after it.
pub fn is_near_fence(dev: &TracePm, i: u64) -> bool {
    for at in i.saturating_sub(1)..i.saturating_add(2) {
        if at < dev.clock() && dev.step_at(at) == Step::Fence {
            return true;
        }
    }
    false
}

#[test]
fn each_stop_mounts_to_the_tree_before_or_after(rt: HostRuntime) -> Result<(), Fail> {
    let alloc = rt.alloc();
    let formatted = run(alloc, 0, ENDLESS)?.dev.clock();
    let whole = run(alloc, 3, ENDLESS)?;
    assert_eq!(rt; whole.done, 3);
    let end = whole.dev.clock();
    for passes in formatted..end.saturating_add(1) {
        if passes % 97 == 0 || passes == end || is_near_fence(&whole.dev, passes) {
            stop_after(&rt, alloc, passes)?;
        }
    }
    Ok(())
}
