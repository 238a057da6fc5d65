// Runs over an image: what a run leaves for the next, and why a device is none.
use check_tests::{ROWS, image};
use ct_base::NoMemory;
use ct_pm::RamPm;
use ct_run::Status;
use pm_fuse::FusePm;
use script_runs::{Left, formatted, ran};
use std::alloc::Global;
use std::process::Abort;
use std::test::Fail;

/// Checks how a run ended: its status, and what it wrote.
pub fn check<D>(rt: &impl Abort, left: &Left<D>, status: Status, text: &[u8]) {
    assert_eq!(rt; (left.status, left.out.bytes()), (status, text));
}

// Runs scripts one after another over an image of 256 pages, and looks at the replies to each.
fn check_runs(rt: &impl Abort, alloc: Global, rows: &[(&str, &str)]) -> Result<(), Fail> {
    let mut dev = formatted(alloc, 256)?;
    for (script, replies) in rows {
        let left = ran(alloc, "run x", dev, script.as_bytes())?;
        check(rt, &left, Status::Done, replies.as_bytes());
        dev = left.dev;
    }
    Ok(())
}

#[test]
fn a_run_goes_on_where_the_last_one_ended(rt: HostRuntime) -> Result<(), Fail> {
    let rows = [
        ("create /a\nmkdir /d\n", "ok\nok\n"),
        ("create /a\nlist /\n", "error exists\nnames a d\n"),
        ("write /a 4095 4142\nrename /a /d/b\n", "ok\nok\n"),
        (
            "list /\nread /d/b 4094 9\nunlink /d/b\nrmdir /d\n",
            "names d\ndata 004142\nok\nok\n",
        ),
        ("stat /\n", "dir 0\n"),
    ];
    check_runs(&rt, rt.alloc(), &rows)
}

// The root is one of 16 inodes.
#[test]
fn an_image_has_so_many_inodes(rt: HostRuntime) -> Result<(), Fail> {
    let rows = [(
        "create /f1\ncreate /f2\ncreate /f3\ncreate /f4\ncreate /f5\ncreate /f6\ncreate /f7\ncreate /f8\ncreate /f9\ncreate /f10\ncreate /f11\ncreate /f12\ncreate /f13\ncreate /f14\ncreate /f15\ncreate /f16\n",
        "ok\nok\nok\nok\nok\nok\nok\nok\nok\nok\nok\nok\nok\nok\nok\nerror no inode\n",
    )];
    check_runs(&rt, rt.alloc(), &rows)
}

// The status of a run over a device, and how many bytes it wrote.
fn told(alloc: Global, line: &str, dev: RamPm) -> Result<(Status, u8, usize), NoMemory> {
    let done = ran(alloc, line, dev, b"create /a\n")?;
    Ok((done.status, done.status.code(), done.out.bytes().len()))
}

#[test]
fn the_first_rule_that_fails_is_told(rt: HostRuntime) -> Result<(), Fail> {
    let alloc = rt.alloc();
    for (row, (first, then, rule)) in ROWS.iter().enumerate() {
        let dev = image(alloc, first, then).ok_or("no memory")?;
        let found = told(alloc, "run x", dev)?;
        assert_eq!(rt; found, (Status::NotImage(*rule), 3, 0), "row {row}");
    }
    Ok(())
}

#[test]
fn zeros_are_no_image(rt: HostRuntime) -> Result<(), Fail> {
    let alloc = rt.alloc();
    for (pages, rule) in [(255, 0), (256, 1)] {
        let found = told(alloc, "run x", RamPm::new(alloc, pages)?)?;
        assert_eq!(rt; found, (Status::NotImage(rule), 3, 0));
    }
    Ok(())
}

#[test]
fn a_format_reads_and_writes_nothing(rt: HostRuntime) -> Result<(), Fail> {
    let alloc = rt.alloc();
    for (pages, want) in [
        (256, (Status::Done, 0, 0)),
        (255, (Status::NotImage(0), 3, 0)),
    ] {
        let found = told(alloc, "format x 16", RamPm::new(alloc, pages)?)?;
        assert_eq!(rt; found, want);
    }
    Ok(())
}

// The image after a run whose device fails after so many of its calls.
fn after_a_fault(rt: &impl Abort, alloc: Global, passes: u64) -> Result<RamPm, Fail> {
    let dev = FusePm::new(formatted(alloc, 256)?, passes);
    let left = ran(alloc, "run x", dev, b"create /a\n")?;
    check(rt, &left, Status::DeviceFault, b"");
    Ok(left.dev.into_inner())
}

// A mount of an image at rest makes fewer calls of its device than the second number.
#[test]
fn a_device_that_fails_ends_a_run_over_an_image(rt: HostRuntime) -> Result<(), Fail> {
    let alloc = rt.alloc();
    for passes in [0, 40] {
        let left = ran(alloc, "run x", after_a_fault(&rt, alloc, passes)?, b"")?;
        check(&rt, &left, Status::Done, b"");
    }
    Ok(())
}
