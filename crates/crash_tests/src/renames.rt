// Names that change in their slots, over a device that stops after each of its calls: what a mount finds, beside a plain tree.
ghost use Rattle.std.specs.Prelude.{◌≡◌, IfOk};
ghost use Rattle.ct_pm.specs.Images.{IsSettled};
ghost use Rattle.pm_trace.specs.Meaning.{history};

use ct_fs::{format, mount};
use ct_plain::PlainTree;
use ct_pm::Pm;
use ct_tree::Call;
use pm_fuse::FusePm;
use pm_trace::TracePm;
use record_stops::{IMAGES, choices};
use script_runs::{change, is_same_tree};
use std::alloc::{AllocError, Global};
use std::process::Abort;
use std::test::Fail;

// A device of words 0, which starts with nothing pending.
fn blank(alloc: Global) -> Result<TracePm, Fail>
    ensures { IfOk result (λ device. IsSettled (history device)) }
{
    let words = vec![in alloc; 0; 512 * 256]?;
    Ok(TracePm::new(alloc, words, 60_000, Vec::new(alloc))?)
}

// The path of a name of so many equal bytes.
fn path_of(alloc: Global, byte: u8, length: u64) -> Result<Vec<u8>, AllocError> {
    let mut path = Vec::new(alloc);
    path.push(b'/')?;
    for _ in 0..length {
        path.push(byte)?;
    }
    Ok(path)
}

// Three files, of which the second has a length and gets another name.
fn calls_of<'p>(path: &'p [u8], to: &'p [u8]) -> [Call<'p>; 5] {
    [
        Call::Create { path: b"/k" },
        Call::Create { path },
        Call::Truncate { path, len: 3 },
        Call::Create { path: b"/z" },
        Call::Rename { path, to },
    ]
}

// How many of the calls come before the first stop.
const BEFORE: usize = 4;

// More device calls than there are.
const ENDLESS: u64 = 1_000_000;

// A device after a format and the calls, as far as so many of its own calls go.
fn ran(alloc: Global, calls: &[Call<'_>], passes: u64) -> Result<TracePm, Fail> {
    let mut fs = match format(alloc, FusePm::new(blank(alloc)?, passes), 16) {
        Ok(fs) => fs,
        Err(no_mount) => return Ok(no_mount.dev.into_inner()),
    };
    for call in calls {
        let _done = change(&mut fs, call);
    }
    Ok(fs.unmount().into_inner())
}

// Whether an image of what is left mounts, and holds the tree of the calls.
fn holds(alloc: Global, dev: &TracePm, choice: &[u64], calls: &[Call<'_>]) -> Result<bool, Fail> {
    let mut tree = PlainTree::new(alloc)?;
    for call in calls {
        let _reply = tree.call(call)?;
    }
    match mount(alloc, dev.crash(alloc, choice, Vec::new(alloc))?) {
        Ok(mut fs) => {
            let same = is_same_tree(alloc, &mut fs, &mut tree);
            let _dev = fs.unmount();
            Ok(same?)
        }
        Err(_) => Ok(false),
    }
}

// For each line of a device some step, by a number.
fn scattered(alloc: Global, dev: &TracePm, number: u64) -> Result<Vec<u64>, AllocError> {
    let mut choices = Vec::new(alloc);
    let mut state = number;
    for _ in 0..dev.pages().saturating_mul(64) {
        state = state
            .wrapping_mul(6_364_136_223_846_793_005)
            .wrapping_add(1_442_695_040_888_963_407);
        choices.push((state >> 33) % dev.clock().max(1))?;
    }
    Ok(choices)
}

// Stops the rename after each of its device calls, and mounts three images of what is left, and one in which each line stands
// at some step. Each holds the tree before or after, and once it is done the tree after.
fn stop_after_each(rt: &impl Abort, alloc: Global, path: &[u8], to: &[u8]) -> Result<(), Fail> {
    let calls = calls_of(path, to);
    let before = &calls[..BEFORE];
    let first = ran(alloc, before, ENDLESS)?.clock();
    let last = ran(alloc, &calls, ENDLESS)?.clock();
    for passes in first..last.saturating_add(1) {
        let dev = ran(alloc, &calls, passes)?;
        let mut images = Vec::new(alloc);
        for image in IMAGES {
            images.push(choices(alloc, image, dev.pages().saturating_mul(64))?)?;
        }
        images.push(scattered(alloc, &dev, passes)?)?;
        for choice in &images {
            let is_after = holds(alloc, &dev, choice, &calls)?;
            let is_before = passes < last && holds(alloc, &dev, choice, before)?;
            assert!(rt;
                is_after || is_before,
                "{path:?} to {to:?} after {passes} calls"
            );
        }
    }
    Ok(())
}

// Names of one word and of two, one that is the front of the other, and names whose record is a long one.
#[test]
fn a_new_name_stops_after_each_call(rt: HostRuntime) -> Result<(), Fail> {
    let alloc = rt.alloc();
    for (length, byte, new_length) in [
        (1, b'b', 16),
        (16, b'a', 9),
        (8, b'b', 17),
        (17, b'a', 248),
        (248, b'b', 1),
    ] {
        let path = path_of(alloc, b'a', length)?;
        let to = path_of(alloc, byte, new_length)?;
        stop_after_each(&rt, alloc, &path, &to)?;
    }
    Ok(())
}
