// Calls over a device that remembers its steps, behind a fuse: how many they make, and what is left after each.
ghost use Rattle.std.specs.Prelude.{◌≡◌, IfOk, length};
ghost use Rattle.ct_pm.specs.Images.{IsSettled};
ghost use Rattle.pm_trace.specs.Meaning.{history};

use crate::images::{Gate, Look, Outcome, check_images};
use create_stops::reader::{Entry, holds, is_free};
use create_stops::rest::PAGES;
use ct_base::{DIRECTORY_KIND, ENTRY_BYTES};
use ct_fs::{Fs, FsError, format};
use ct_pm::{Pm, Step};
use pm_fuse::FusePm;
use pm_trace::TracePm;
use record_stops::{Steps, steps_since};
use std::alloc::{AllocError, Global};
use std::process::Abort;
use std::test::Fail;

// A call, after those that lead up to it.
#[derive(Clone, Copy, Debug, PartialEq, Eq)]
enum Scene {
    // The first entry of the root.
    FirstOfRoot,
    // A third entry of the root.
    WithRoom,
    // The first entry of another directory.
    FirstOfDirectory,
    // A name that is there.
    Refused,
}

impl Scene {
    // The calls that lead up to it.
    fn prepare<D: Pm>(self, fs: &mut Fs<D>) -> Result<(), FsError> {
        match self {
            Scene::FirstOfRoot => Ok(()),
            Scene::WithRoom => {
                fs.create(b"/a")?;
                fs.create(b"/b")
            }
            Scene::FirstOfDirectory => fs.mkdir(b"/d"),
            Scene::Refused => fs.create(b"/a"),
        }
    }

    // The call.
    fn play<D: Pm>(self, fs: &mut Fs<D>) -> Result<(), FsError> {
        match self {
            Scene::FirstOfRoot | Scene::Refused => fs.create(b"/a"),
            Scene::WithRoom => fs.create(b"/c"),
            Scene::FirstOfDirectory => fs.create(b"/d/a"),
        }
    }
}

// So many words 0.
fn zeros(alloc: Global, count: usize) -> Result<Vec<u64>, AllocError>
    ensures { IfOk result (λ words. length words.items ≡ count) }
{
    vec![in alloc; 0; count]
}

// A device of words 0, which starts with nothing pending.
fn device(alloc: Global) -> Result<TracePm, Fail>
    ensures { IfOk result (λ device. IsSettled (history device)) }
{
    let words = zeros(alloc, 512 * PAGES as usize)?;
    Ok(TracePm::new(alloc, words, 40_000, Vec::new(alloc))?)
}

// More calls than any scene has.
const ENDLESS: u64 = 1_000_000;

// The device after a format and a scene, with its last call or without, as far as so many device calls go.
fn run(alloc: Global, scene: Scene, plays: bool, passes: u64) -> Result<TracePm, Fail> {
    let fuse = FusePm::new(device(alloc)?, passes);
    let mut fs = match format(alloc, fuse, 16) {
        Ok(fs) => fs,
        Err(no_mount) => return Ok(no_mount.dev.into_inner()),
    };
    let _ = scene.prepare(&mut fs);
    if plays {
        let _ = scene.play(&mut fs);
    }
    Ok(fs.unmount().into_inner())
}

// The steps of a scene's last call.
fn steps_of(alloc: Global, scene: Scene) -> Result<Steps, Fail> {
    let before = run(alloc, scene, false, ENDLESS)?.clock();
    Ok(steps_since(&run(alloc, scene, true, ENDLESS)?, before))
}

// A record of n pairs, more than three, stores two words for each pair and for the first three once more, its gate, each word
// that a pair names, and the gate again: 3 n + 8 stores. It flushes the line of the first three, the lines of the long pairs,
// then the gate, the lines of the words that the pairs name, and the gate again. Four fences are between and after.
//
// An entry is 41 pairs: 32 of its slot, one of the directory's size and eight of its inode. They lie in 11 lines and name words
// of six, so it takes 131 stores and 20 flushes.
//
// A page that is made takes 512 stores of 0, 64 flushes and a fence, and a store, a flush and a fence to link it. The first
// entry of a directory makes one. Before it the directory gets a partition, by a record of the header words that change, and
// the base and the level of its inode. For the first partition of all these are 12 pairs: they lie in three lines, and the
// last two name words of one, so it takes 44 stores and 17 flushes. For one beside it they are three: one line, 11 stores, four
// flushes and three fences.
//
// The first entry of the root makes 31 pages, as the tables and headers are made too. What is missing at one depth is made
// under two fences: the headers and their tables lie at three depths, the root's page and its tables at four.
#[test]
fn calls_make_so_many_steps(rt: HostRuntime) -> Result<(), Fail> {
    let alloc = rt.alloc();
    for (scene, stores, flushes, fences) in [
        (Scene::WithRoom, 131, 20, 4),
        (
            Scene::FirstOfDirectory,
            513 + 11 + 131,
            65 + 4 + 20,
            2 + 3 + 4,
        ),
        (
            Scene::FirstOfRoot,
            31 * 513 + 44 + 131,
            31 * 65 + 17 + 20,
            14 + 4 + 4,
        ),
        (Scene::Refused, 0, 0, 0),
    ] {
        let wanted = Steps {
            stores,
            flushes,
            fences,
        };
        assert_eq!(rt; steps_of(alloc, scene)?, wanted, "{scene:?}");
    }
    Ok(())
}

// An empty file.
fn file(name: u8, inode: u64) -> Entry {
    Entry {
        name,
        inode,
        kind: 1,
        size: 0,
    }
}

// A directory with so many slots.
fn directory(name: u8, inode: u64, slots: u8) -> Entry {
    Entry {
        name,
        inode,
        kind: DIRECTORY_KIND,
        size: ENTRY_BYTES * slots as u64,
    }
}

impl Look for Scene {
    fn look(&self, _alloc: Global, rested: TracePm) -> Result<Outcome, Fail> {
        Ok(outcome_of(&rested, *self))
    }
}

// Which tree a reader of the image finds.
fn outcome_of<D: Pm>(dev: &D, scene: Scene) -> Outcome {
    let (before, after) = match scene {
        Scene::FirstOfDirectory => (
            holds(dev, 1, &[directory(b'd', 2, 0)]) && is_free(dev, 3),
            holds(dev, 1, &[directory(b'd', 2, 1)]) && holds(dev, 2, &[file(b'a', 3)]),
        ),
        Scene::FirstOfRoot => (
            holds(dev, 1, &[]) && is_free(dev, 2),
            holds(dev, 1, &[file(b'a', 2)]),
        ),
        _ => (
            holds(dev, 1, &[file(b'a', 2), file(b'b', 3)]) && is_free(dev, 4),
            holds(dev, 1, &[file(b'a', 2), file(b'b', 3), file(b'c', 4)]),
        ),
    };
    match (before, after) {
        (true, false) => Outcome::Before,
        (false, true) => Outcome::After,
        _ => Outcome::Neither,
    }
}

// The device calls of an entry's record, and those before its gate is stored: 88 stores of its pairs, 12 flushes and a fence.
const RECORD_CALLS: u64 = 155;

const GATE: u64 = 101;

// Stops the last call of a scene after so many of its device calls, where all are `calls`. The gate is stored, flushed and
// fenced.
fn stop_after(
    rt: &impl Abort,
    alloc: Global,
    scene: Scene,
    calls: u64,
    before: u64,
    passed: u64,
) -> Result<(), Fail> {
    let stored = calls
        .saturating_sub(RECORD_CALLS)
        .saturating_add(GATE)
        .saturating_add(1);
    let gate = Gate {
        stored,
        fenced: stored.saturating_add(2),
    };
    let dev = run(alloc, scene, true, before.saturating_add(passed))?;
    check_images(rt, alloc, &scene, gate, &dev, passed)
}

// Stops the last call of a scene after each of its device calls.
fn stop_after_each(rt: &impl Abort, alloc: Global, scene: Scene, calls: u64) -> Result<(), Fail> {
    let before = run(alloc, scene, false, ENDLESS)?.clock();
    for passed in 0..calls.saturating_add(1) {
        stop_after(rt, alloc, scene, calls, before, passed)?;
    }
    Ok(())
}

#[test]
fn an_entry_with_room_stops_after_each_call(rt: HostRuntime) -> Result<(), Fail> {
    stop_after_each(&rt, rt.alloc(), Scene::WithRoom, 155)
}

#[test]
fn a_first_entry_stops_after_each_call(rt: HostRuntime) -> Result<(), Fail> {
    stop_after_each(&rt, rt.alloc(), Scene::FirstOfDirectory, 753)
}

// The device calls of the first entry of the root.
const FIRST_CALLS: u64 = 18_152;

// Whether a step of the device is a fence.
fn is_fence(dev: &TracePm, i: u64) -> bool {
    i < dev.clock() && dev.step_at(i) == Step::Fence
}

#[test]
fn the_first_entry_of_the_root_stops_by_each_fence(rt: HostRuntime) -> Result<(), Fail> {
    let alloc = rt.alloc();
    let scene = Scene::FirstOfRoot;
    let before = run(alloc, scene, false, ENDLESS)?.clock();
    let all = run(alloc, scene, true, ENDLESS)?;
    assert_eq!(rt; all.clock(), before.saturating_add(FIRST_CALLS));
    for passed in 1..FIRST_CALLS {
        let here = before.saturating_add(passed);
        if is_fence(&all, here) || is_fence(&all, here.saturating_sub(1)) {
            stop_after(&rt, alloc, scene, FIRST_CALLS, before, passed)?;
        }
    }
    Ok(())
}

#[test]
fn the_first_entry_of_the_root_stops_after_each_97th_call(rt: HostRuntime) -> Result<(), Fail> {
    let alloc = rt.alloc();
    let scene = Scene::FirstOfRoot;
    let before = run(alloc, scene, false, ENDLESS)?.clock();
    for stop in 0..FIRST_CALLS / 97 + 1 {
        let passed = stop.saturating_mul(97);
        stop_after(&rt, alloc, scene, FIRST_CALLS, before, passed)?;
    }
    Ok(())
}
