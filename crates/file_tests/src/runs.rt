// Runs over files.
use crate::files::{HEAD, look, make};
use ct_base::{LEAST_PAGES, MOST_PAGES, PAGE_BYTES};
use ct_run::Status;
use pm_file::FilePm;
use script_runs::{Left, ran};
use std::fs::{self, File};
use std::test::Fail;

// What a run over a file leaves.
fn left_by(
    rt: &HostRuntime,
    name: &str,
    line: &str,
    script: &str,
) -> Result<Left<FilePm<File>>, Fail> {
    let dev = FilePm::attach(rt, rt.alloc(), name)?;
    Ok(ran(rt.alloc(), line, dev, script.as_bytes())?)
}

// A rest shorter than a page stays behind the pages.
#[test]
fn a_file_keeps_what_runs_leave(rt: HostRuntime) -> Result<(), Fail> {
    let name = "file_tests_kept.img";
    let len = PAGE_BYTES * LEAST_PAGES + 100;
    make(&rt, name, len)?;
    for (line, script, replies) in [
        ("format x 16", "create /never\n", ""),
        ("run x", "create /a\n", "ok\n"),
        ("run x", "stat /a\nlist /\n", "file 0\nnames a\n"),
    ] {
        let left = left_by(&rt, name, line, script)?;
        let found = (left.status, left.out.bytes());
        assert_eq!(rt; found, (Status::Done, replies.as_bytes()));
    }
    assert_eq!(rt; look(&rt, name)?, (len, *b"RTCTFS01"));
    fs::remove_file(&rt, name)?;
    Ok(())
}

// A fill of more than 1,024 lines, which a fence writes in more than one piece.
#[test]
fn a_long_fill_comes_back(rt: HostRuntime) -> Result<(), Fail> {
    let name = "file_tests_fill.img";
    make(&rt, name, PAGE_BYTES * 2 * LEAST_PAGES)?;
    for (line, script, replies) in [
        ("format x 16", "", ""),
        ("run x", "create /a\nfill /a 0 300000 65\n", "ok\nok\n"),
        (
            "run x",
            "read /a 65530 12\nread /a 299990 20\n",
            "data 414141414141414141414141\ndata 41414141414141414141\n",
        ),
    ] {
        let left = left_by(&rt, name, line, script)?;
        let found = (left.status, left.out.bytes());
        assert_eq!(rt; found, (Status::Done, replies.as_bytes()));
    }
    fs::remove_file(&rt, name)?;
    Ok(())
}

// The status of a run over a file, and the length and the head of the file after it.
fn told(rt: &HostRuntime, name: &str, line: &str) -> Result<(Status, u8, (u64, [u8; 8])), Fail> {
    let left = left_by(rt, name, line, "create /a\n")?;
    Ok((left.status, left.status.code(), look(rt, name)?))
}

// No page, a page too few, and a page too many.
#[test]
fn files_of_other_sizes_are_no_images(rt: HostRuntime) -> Result<(), Fail> {
    let name = "file_tests_size.img";
    for len in [
        PAGE_BYTES - 1,
        PAGE_BYTES * (LEAST_PAGES - 1),
        PAGE_BYTES * (MOST_PAGES + 1),
    ] {
        make(&rt, name, len)?;
        let want = (Status::NotImage(0), 3, (len, HEAD));
        for line in ["format x 16", "run x"] {
            assert_eq!(rt; told(&rt, name, line)?, want);
        }
        fs::remove_file(&rt, name)?;
    }
    Ok(())
}
