// What is free after calls, and what they answer where something has run out.
ghost use Rattle.std.specs.Prelude.{◌≡◌, ◌≤◌, IfOk};

use ct_fs::{Fs, FsError, format};
use ct_pm::{Pm, RamPm};
use ct_tree::Refusal;
use std::alloc::Global;
use std::test::Fail;

// A file system over plain memory.
fn made(alloc: Global, inodes: u64) -> Result<Fs<RamPm>, Fail> {
    let inodes = inodes.max(2).min(1024);
    match format(alloc, RamPm::new(alloc, 4096)?, inodes) {
        Ok(fs) => Ok(fs),
        Err(_) => Err(Fail::from("format")),
    }
}

// Writes a page so often.
fn write_often<D: Pm>(fs: &mut Fs<D>, bytes: &[u8], times: u64) -> Result<(), FsError> {
    fs.create(b"/a")?;
    for _ in 0..times {
        fs.write(b"/a", 0, bytes)?;
    }
    Ok(())
}

// How many pages are free after a page was written so often.
fn free_after(alloc: Global, times: u64) -> Result<u64, Fail> {
    let bytes = vec![in alloc; 7u8; 4096]?;
    let mut fs = made(alloc, 16)?;
    let written = write_often(&mut fs, bytes.as_slice(), times);
    match (written, fs.into_parts()) {
        (Ok(()), Ok((_dev, frames))) => Ok(frames.free()),
        _ => Err(Fail::from("a write")),
    }
}

#[test]
fn writes_in_place_take_no_page(rt: HostRuntime) -> Result<(), Fail> {
    let alloc = rt.alloc();
    let once = free_after(alloc, 1)?;
    let often = free_after(alloc, 1000)?;
    assert_eq!(rt; once, often);
    Ok(())
}

// Makes as many files of the greatest length as there are root slots for files, and an empty one.
fn fill_slots<D: Pm>(fs: &mut Fs<D>) -> Result<(), FsError> {
    for number in 0..502u32 {
        let path = [
            b'/',
            b'a' + (number / 26 % 26) as u8,
            b'a' + (number % 26) as u8,
        ];
        fs.create(&path)?;
        fs.truncate(&path, 549_755_813_888)?;
    }
    Ok(())
}

#[test]
fn partitions_run_out(rt: HostRuntime) -> Result<(), Fail> {
    let alloc = rt.alloc();
    let mut fs = made(alloc, 1024)?;
    let _first = fs.create(b"/empty");
    let filled = fill_slots(&mut fs);
    let longer = fs.truncate(b"/empty", 549_755_813_888);
    let written = fs.write(b"/empty", 549_755_813_887, b"x");
    let _dev = fs.unmount();
    let none = Err(FsError::Refused(Refusal::NoPartition { level: 9 }));
    assert_eq!(rt; (filled, longer, written), (none, none, none));
    Ok(())
}
