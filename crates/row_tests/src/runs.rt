// Runs of the shell over plain memory: what they write, and how they end.
ghost use Rattle.std.specs.Prelude.{◌≤◌};

use crate::scripts::{AGAIN, BYTES, ENTRIES, NAMES, PLACES};
use ct_base::{MOST_PAGES, MemSink, MemSource, NoMemory};
use ct_fs::{Why, format};
use ct_pm::RamPm;
use ct_run::Status;
use pm_fuse::FusePm;
use script_runs::{Left, ran, ran_between};
use std::alloc::Global;
use std::process::Abort;
use std::test::Fail;

// So many times the byte.
pub fn bytes_of(alloc: Global, byte: u8, count: usize) -> Result<Vec<u8>, NoMemory> {
    match vec![in alloc; byte; count] {
        Ok(bytes) => Ok(bytes),
        Err(_) => Err(NoMemory),
    }
}

// A run over plain memory, of a script whose reads and writes fail at these calls.
fn served(
    alloc: Global,
    script: Vec<u8>,
    reads: Vec<u64>,
    writes: Vec<u64>,
) -> Result<Left<RamPm>, NoMemory> {
    let dev = RamPm::new(alloc, 4096)?;
    let input = MemSource::new(script, 1000, reads);
    let out = MemSink::new(alloc, 1 << 20, writes)?;
    ran_between(alloc, "mem", dev, input, out)
}

// Checks how a run ended: its status, and what it wrote.
pub fn check<D>(rt: &impl Abort, left: &Left<D>, status: Status, replies: &str) {
    assert_eq!(rt;
        (left.status, left.out.bytes()),
        (status, replies.as_bytes())
    );
}

fn check_rows(rt: &impl Abort, alloc: Global, rows: &[(&str, &str)]) -> Result<(), Fail> {
    for (script, replies) in rows {
        let left = ran(alloc, "mem", RamPm::new(alloc, 4096)?, script.as_bytes())?;
        check(rt, &left, Status::Done, replies);
    }
    Ok(())
}

#[test]
fn scripts_are_answered(rt: HostRuntime) -> Result<(), Fail> {
    check_rows(&rt, rt.alloc(), &ENTRIES)?;
    check_rows(&rt, rt.alloc(), &BYTES)?;
    check_rows(&rt, rt.alloc(), &AGAIN)?;
    check_rows(&rt, rt.alloc(), &NAMES)?;
    check_rows(&rt, rt.alloc(), &PLACES)
}

// A file of 400 pages. The bound is 256 pages, 128 for each of the two calls, and two for each page that is written.
#[test]
fn a_device_of_the_bound_has_pages_enough(rt: HostRuntime) -> Result<(), Fail> {
    let alloc = rt.alloc();
    let script = b"create /a\nfill /a 0 1638400 65\n";
    for (pages, replies) in [
        (256 + 2 * 128 + 2 * 400, "ok\nok\n"),
        (450, "ok\nerror no pages\n"),
    ] {
        let left = ran(alloc, "mem", RamPm::new(alloc, pages)?, script)?;
        check(&rt, &left, Status::Done, replies);
    }
    Ok(())
}

// Why a device of so many pages is not formatted, where it is not.
fn no_format(alloc: Global, pages: u64) -> Result<Option<Why>, NoMemory>
    requires { pages ≤ MOST_PAGES }
{
    match format(alloc, RamPm::new(alloc, pages)?, 16) {
        Ok(fs) => {
            let _dev = fs.unmount();
            Ok(None)
        }
        Err(no_mount) => Ok(Some(no_mount.why)),
    }
}

#[test]
fn a_device_has_256_pages_at_least(rt: HostRuntime) -> Result<(), Fail> {
    let alloc = rt.alloc();
    for (pages, why, status) in [
        (255, Some(Why::Damage(0)), Status::NotImage(0)),
        (256, None, Status::Done),
    ] {
        let left = ran(alloc, "mem", RamPm::new(alloc, pages)?, b"")?;
        check(&rt, &left, status, "");
        assert_eq!(rt; no_format(alloc, pages)?, why);
    }
    Ok(())
}

// The codes of the statuses that these runs have.
#[test]
fn statuses_have_codes(rt: HostRuntime) {
    let statuses = [
        Status::Done,
        Status::NotImage(0),
        Status::DeviceFault,
        Status::ReadFault,
        Status::WriteFault,
        Status::TooLong,
    ];
    assert_eq!(rt; statuses.map(|status| status.code()), [0, 3, 4, 5, 6, 8]);
}

// The first call of the source or of the sink fails.
#[test]
fn a_fault_of_an_end_ends_a_run(rt: HostRuntime) -> Result<(), Fail> {
    let alloc = rt.alloc();
    for (reads, writes, status) in [(1, 0, Status::ReadFault), (0, 1, Status::WriteFault)] {
        let script = b"create /a\n".to_vec(alloc)?;
        let reads = vec![in alloc; 0; reads]?;
        let left = served(alloc, script, reads, vec![in alloc; 0; writes]?)?;
        check(&rt, &left, status, "");
    }
    Ok(())
}

// A format makes 5,770 calls of its device.
#[test]
fn a_device_that_fails_ends_a_run(rt: HostRuntime) -> Result<(), Fail> {
    let alloc = rt.alloc();
    for passes in [10, 5_780] {
        let dev = FusePm::new(RamPm::new(alloc, 256)?, passes);
        let left = ran(alloc, "mem", dev, b"create /a\n")?;
        check(&rt, &left, Status::DeviceFault, "");
    }
    Ok(())
}
