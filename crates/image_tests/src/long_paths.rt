// Dumps of trees with paths of the greatest length, and of a length that no call takes.
use crate::dumps::{dumped_twice, played};
use ct_pm::RamPm;
use ct_run::Status;
use script_runs::ran;
use std::alloc::{AllocError, Global};
use std::process::Abort;
use std::test::Fail;

// The length of the longest name.
const NAME: usize = 248;

// How many directories stand one in the other.
const DEPTH: usize = 16;

// Adds a name of so many bytes to a path.
fn go_on(path: &mut Vec<u8>, byte: u8, count: usize) -> Result<(), AllocError> {
    path.push(b'/')?;
    for _ in 0..count {
        path.push(byte)?;
    }
    Ok(())
}

// Adds a line of a verb and a path to a script.
fn add_line(script: &mut Vec<u8>, verb: &[u8], path: &[u8]) -> Result<(), AllocError> {
    script.extend_from_slice(verb)?;
    script.push(b' ')?;
    script.extend_from_slice(path)?;
    script.push(b'\n')?;
    Ok(())
}

// Makes directories one in the other, of which the first has a name of one byte, and in them a file with a name of so many;
// then that first one gets a name of 248 bytes.
fn deep(alloc: Global, last: usize) -> Result<Vec<u8>, AllocError> {
    let mut script = Vec::new(alloc);
    let mut path = Vec::new(alloc);
    go_on(&mut path, b'd', 1)?;
    add_line(&mut script, b"mkdir", &path)?;
    for _ in 1..DEPTH {
        go_on(&mut path, b'd', NAME)?;
        add_line(&mut script, b"mkdir", &path)?;
    }
    go_on(&mut path, b'f', last)?;
    add_line(&mut script, b"create", &path)?;
    let mut first = b"/d ".to_vec(alloc)?;
    go_on(&mut first, b'd', NAME)?;
    add_line(&mut script, b"rename", &first)?;
    Ok(script)
}

// A device of 512 pages with an empty file system of 64 inodes.
fn fresh(rt: &impl Abort, alloc: Global) -> Result<RamPm, Fail> {
    let done = ran(alloc, "format x 64", RamPm::new(alloc, 512)?, b"")?;
    assert_eq!(rt; done.status, Status::Done);
    Ok(done.dev)
}

// The directories take 16 lines, of a verb, a path and two bytes more; the path of the file is 112 bytes longer than the last.
const DIRECTORIES: usize = 16 * 7 + 249 * 136;

// An image with a file whose path is as long as that of the last directory and so many bytes more.
fn deep_image(rt: &impl Abort, alloc: Global, last: usize) -> Result<RamPm, Fail> {
    played(rt, alloc, fresh(rt, alloc)?, &deep(alloc, last)?)
}

#[test]
fn a_path_of_4096_bytes_is_dumped_and_no_longer_one(rt: HostRuntime) -> Result<(), Fail> {
    let alloc = rt.alloc();
    let whole = dumped_twice(&rt, alloc, deep_image(&rt, alloc, 111)?, fresh(&rt, alloc)?)?;
    assert_eq!(rt; whole.len(), DIRECTORIES + 8 + 4096);
    let cut = ran(alloc, "dump x", deep_image(&rt, alloc, 112)?, b"")?;
    let found = (cut.status, cut.out.bytes().len());
    assert_eq!(rt; found, (Status::TooLong, DIRECTORIES));
    assert!(rt; whole.as_slice().starts_with(cut.out.bytes()));
    Ok(())
}
