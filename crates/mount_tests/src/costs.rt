// What each kind of call costs on its device.
use crate::script::{ENDLESS, blank};
use ct_fs::format;
use ct_pm::Pm;
use ct_tree::Call;
use pm_fuse::FusePm;
use pm_trace::TracePm;
use record_stops::{Steps, steps_since};
use script_runs::change;
use std::alloc::Global;
use std::test::Fail;

// A call, and the steps that it makes after those before it.
#[derive(Drop)]
struct Cost {
    call: Call<'static>,
    steps: Steps,
}

fn row(call: Call<'static>, stores: u64, flushes: u64, fences: u64) -> Cost {
    Cost {
        call,
        steps: Steps {
            stores,
            flushes,
            fences,
        },
    }
}

fn fill(path: &'static [u8], off: u64, len: u64) -> Call<'static> {
    Call::Fill {
        path,
        off,
        len,
        byte: 65,
    }
}

fn rename(path: &'static [u8], to: &'static [u8]) -> Call<'static> {
    Call::Rename { path, to }
}

const FILE: &[u8] = b"/a";

const OTHER: &[u8] = b"/b";

const SHORT: &[u8] = b"/sixteen.letters_";

const LONG: &[u8] = b"/seventeen.letters";

const DIRECTORY: &[u8] = b"/d";

const BELOW: &[u8] = b"/d/x";

const BESIDE: &[u8] = b"/d/y";

// On a file system of 256 pages and 16 inodes.
fn costs() -> [Cost; 20] {
    [
        // The first of an image makes the tables of its inodes and of the root directory.
        row(Call::Create { path: FILE }, 16078, 2052, 22),
        row(Call::Create { path: OTHER }, 131, 20, 4),
        // The first bytes of a file.
        row(fill(FILE, 0, 12_000), 3119, 404, 9),
        // A page in place.
        row(fill(FILE, 4096, 4096), 2061, 266, 5),
        // Within a page.
        row(
            Call::Append {
                path: FILE,
                bytes: b"twenty bytes to add.",
            },
            2064,
            267,
            5,
        ),
        // A cut within a page, and one to nothing.
        row(
            Call::Truncate {
                path: FILE,
                len: 5000,
            },
            2106,
            272,
            6,
        ),
        row(Call::Truncate { path: FILE, len: 0 }, 1608, 209, 6),
        // Longer, in the partition that it has.
        row(
            Call::Truncate {
                path: FILE,
                len: 20_000,
            },
            16,
            7,
            6,
        ),
        // In a larger partition, after growth.
        row(fill(FILE, 40_000, 1), 2132, 280, 9),
        row(Call::Mkdir { path: DIRECTORY }, 131, 20, 4),
        // The first entry of a directory.
        row(Call::Create { path: BELOW }, 655, 89, 9),
        // In its own slot, by a short record and by a long one.
        row(rename(FILE, SHORT), 11, 3, 3),
        row(rename(SHORT, LONG), 20, 5, 4),
        // To another directory, and in the place of another file.
        row(rename(LONG, BESIDE), 203, 29, 4),
        row(rename(OTHER, BELOW), 320, 42, 4),
        row(fill(BELOW, 0, 4096), 2075, 271, 8),
        row(
            Call::Exchange {
                path: BELOW,
                off: 0,
                other: BESIDE,
                other_off: 0,
                len: 4096,
            },
            8,
            4,
            3,
        ),
        row(Call::Unlink { path: BELOW }, 1677, 219, 6),
        row(Call::Unlink { path: BESIDE }, 2055, 265, 6),
        row(Call::Rmdir { path: DIRECTORY }, 1677, 219, 6),
    ]
}

// The device after so many of the calls, none of which is refused.
fn after(alloc: Global, calls: usize) -> Result<TracePm, Fail> {
    let mut fs = match format(alloc, FusePm::new(blank(alloc)?, ENDLESS), 16) {
        Ok(fs) => fs,
        Err(_) => return Err(Fail::from("format")),
    };
    let mut done: usize = 0;
    for cost in costs().iter().take(calls) {
        if change(&mut fs, &cost.call) == Some(Ok(())) {
            done = done.saturating_add(1);
        }
    }
    let dev = fs.unmount().into_inner();
    if done == calls {
        Ok(dev)
    } else {
        Err(Fail::from("a call"))
    }
}

// The steps that a device made from a moment on after so many of the calls, and the moment that it is then.
fn steps_from(alloc: Global, calls: usize, from: u64) -> Result<(Steps, u64), Fail> {
    let dev = after(alloc, calls)?;
    Ok((steps_since(&dev, from), dev.clock()))
}

#[test]
fn calls_make_so_many_steps(rt: HostRuntime) -> Result<(), Fail> {
    let alloc = rt.alloc();
    let (_format, mut from) = steps_from(alloc, 0, 0)?;
    let mut calls: usize = 0;
    for cost in costs().iter() {
        calls = calls.saturating_add(1);
        let (steps, now) = steps_from(alloc, calls, from)?;
        assert_eq!(rt; steps, cost.steps);
        from = now;
    }
    Ok(())
}
