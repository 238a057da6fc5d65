// Files that are cut at and around the edges of pages, tables and levels, and made longer again: they read zeros there.
use ct_fs::{Fs, FsError, format};
use ct_pm::{Pm, RamPm};
use std::process::Abort;
use std::test::Fail;

// The lengths about which a file is cut: a page, a table of pages, and a table of tables.
const EDGES: [u64; 3] = [4096, 2_097_152, 1_073_741_824];

const FILE: &[u8] = b"/f";

// A file of a size without pages gets two bytes about a length, is cut to it, and is made as long as before.
fn cut_and_grow<D: Pm>(fs: &mut Fs<D>, size: u64, len: u64) -> Result<(), FsError> {
    fs.create(FILE)?;
    fs.truncate(FILE, size)?;
    fs.write(FILE, len.saturating_sub(1), b"xy")?;
    fs.truncate(FILE, len)?;
    fs.truncate(FILE, size)
}

// What stands about the length then: the first of the two bytes, and zeros.
fn check_cut<D: Pm>(rt: &impl Abort, fs: &mut Fs<D>, size: u64, len: u64) {
    let mut bytes = [1u8; 3];
    let cut = cut_and_grow(fs, size, len);
    let count = fs.read(FILE, len.saturating_sub(1), 3, &mut bytes);
    let removed = fs.unlink(FILE);
    let most = size.saturating_sub(len).saturating_add(1).min(3);
    let found = (cut, count, [bytes[0], bytes[1]], removed);
    assert_eq!(rt;
        found,
        (Ok(()), Ok(most), *b"x\0", Ok(())),
        "{size} cut to {len}"
    );
}

// Cuts a file of a size to the lengths about an edge.
fn check_edge<D: Pm>(rt: &impl Abort, fs: &mut Fs<D>, size: u64, edge: u64) {
    for len in edge.saturating_sub(1)..edge.saturating_add(2) {
        if 0 < len && len < size {
            check_cut(rt, fs, size, len);
        }
    }
}

// Cuts files that fill a partition of each level.
fn check_levels<D: Pm>(rt: &impl Abort, fs: &mut Fs<D>) {
    for level in 0..10u32 {
        let size = 4096u64.saturating_mul(8u64.saturating_pow(level));
        for edge in EDGES {
            check_edge(rt, fs, size, edge);
        }
        check_edge(rt, fs, size, size / 8);
        check_edge(rt, fs, size, size);
    }
}

#[test]
fn files_that_were_cut_read_zeros(rt: HostRuntime) -> Result<(), Fail> {
    let alloc = rt.alloc();
    let mut fs = match format(alloc, RamPm::new(alloc, 4096)?, 16) {
        Ok(fs) => fs,
        Err(_) => return Err(Fail::from("format")),
    };
    check_levels(&rt, &mut fs);
    let _dev = fs.unmount();
    Ok(())
}
