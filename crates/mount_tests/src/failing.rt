// Runs over an image of which a fence, a read of the input or a write of the output fails.
ghost use Rattle.std.specs.Prelude.{◌≡◌, IfOk};
ghost use Rattle.ct_pm.specs.Images.{IsSettled};
ghost use Rattle.pm_trace.specs.Meaning.{history};

use crate::script::{LINES, blank};
use crate::writes::is_before_or_after;
use ct_base::{MemSink, MemSource};
use ct_fs::format;
use ct_pm::{Pm, Step};
use ct_run::Status;
use ct_tree::Call;
use pm_trace::TracePm;
use record_stops::{IMAGES, Image, choices};
use script_runs::{Left, ran, ran_between};
use std::alloc::Global;
use std::process::Abort;
use std::test::Fail;

// The calls of the script, of which the last is a rename.
const CALLS: [Call<'static>; 4] = [
    Call::Create { path: b"/a" },
    Call::Write {
        path: b"/a",
        off: 0,
        bytes: b"A",
    },
    Call::Write {
        path: b"/a",
        off: 4095,
        bytes: b"BB",
    },
    Call::Rename {
        path: b"/a",
        to: b"/b",
    },
];

// Their lines, and those before the rename.
const SCRIPT: &str = "create /a\nwrite /a 0 41\nwrite /a 4095 4242\nrename /a /b\n";

const WRITES: &str = "create /a\nwrite /a 0 41\nwrite /a 4095 4242\n";

// The length of the line that says ok.
const OK: u64 = 3;

// An empty file system as it reads, on a device of which these calls fail.
fn formatted(alloc: Global, fail_at: Vec<u64>) -> Result<TracePm, Fail>
    ensures { IfOk result (λ device. IsSettled (history device)) }
{
    let dev = match format(alloc, blank(alloc)?, 16) {
        Ok(fs) => fs.unmount(),
        Err(no_mount) => no_mount.dev,
    };
    let choice = choices(alloc, Image::Reads, LINES)?;
    Ok(dev.crash(alloc, &choice, fail_at)?)
}

// Runs a script over an image, with ends of which these calls fail.
fn served(
    alloc: Global,
    script: &str,
    dev: TracePm,
    reads: Vec<u64>,
    writes: Vec<u64>,
) -> Result<Left<TracePm>, Fail>
    requires { IsSettled (history dev) }
{
    let script = script.as_bytes().to_vec(alloc)?;
    let input = MemSource::new(script, 8, reads);
    let out = MemSink::new(alloc, 1 << 16, writes)?;
    Ok(ran_between(alloc, "run x", dev, input, out)?)
}

// Whether each image of what a run left holds the tree after the calls that were answered, or after one more.
fn check_left(rt: &impl Abort, alloc: Global, left: &Left<TracePm>) -> Result<(), Fail> {
    let written = left.out.bytes().len() as u64;
    for image in IMAGES {
        let choice = choices(alloc, image, LINES)?;
        assert!(rt;
            is_before_or_after(alloc, &left.dev, &choice, &CALLS, written / OK)?,
            "{image:?} after {written} bytes"
        );
    }
    Ok(())
}

// The calls of a device that were its first few fences.
fn fences(alloc: Global, dev: &TracePm, most: usize) -> Result<Vec<u64>, Fail> {
    let mut found = Vec::new(alloc);
    for at in 0..dev.clock() {
        if dev.step_at(at) == Step::Fence && found.len() < most {
            found.push(at)?;
        }
    }
    Ok(found)
}

// Checks a run whose device fails at a call.
fn check_call(rt: &impl Abort, alloc: Global, call: u64) -> Result<(), Fail> {
    let dev = formatted(alloc, vec![in alloc; call; 1]?)?;
    let left = ran(alloc, "run x", dev, SCRIPT.as_bytes())?;
    assert_eq!(rt; left.status, Status::DeviceFault, "call {call}");
    check_left(rt, alloc, &left)
}

// The first eight fences of a run of which no call fails.
fn first_fences(rt: &impl Abort, alloc: Global) -> Result<Vec<u64>, Fail> {
    let dev = formatted(alloc, Vec::new(alloc))?;
    let left = ran(alloc, "run x", dev, SCRIPT.as_bytes())?;
    let found = (left.status, left.out.bytes());
    assert_eq!(rt; found, (Status::Done, b"ok\nok\nok\nok\n".as_slice()));
    fences(alloc, &left.dev, 8)
}

#[test]
fn each_fence_of_a_run_may_fail(rt: HostRuntime) -> Result<(), Fail> {
    let alloc = rt.alloc();
    for call in first_fences(&rt, alloc)? {
        check_call(&rt, alloc, call)?;
    }
    Ok(())
}

// Checks a run of which so many reads and writes, each with this number, fail.
fn check_ends(
    rt: &impl Abort,
    alloc: Global,
    call: u64,
    (reads, writes): (usize, usize),
    status: Status,
) -> Result<(), Fail> {
    let dev = formatted(alloc, Vec::new(alloc))?;
    let reads = vec![in alloc; call; reads]?;
    let left = served(alloc, WRITES, dev, reads, vec![in alloc; call; writes]?)?;
    assert_eq!(rt; left.status, status, "call {call}");
    check_left(rt, alloc, &left)
}

#[test]
fn each_read_and_each_write_of_a_run_may_fail(rt: HostRuntime) -> Result<(), Fail> {
    let alloc = rt.alloc();
    for call in 0..3u64 {
        check_ends(&rt, alloc, call, (1, 0), Status::ReadFault)?;
        check_ends(&rt, alloc, call, (0, 1), Status::WriteFault)?;
    }
    Ok(())
}
