// Files are made, half of them removed, and made again: each takes the lowest free inode.
use ct_base::{INODE_BYTES, Vaddr};
use ct_fs::{Fs, format};
use ct_pm::{Pm, RamPm};
use std::test::Fail;

const FILES: u64 = 300;

// The path of file number n.
fn path_of(n: u64) -> [u8; 4] {
    let digit = |value: u64| b'0' + (value % 10) as u8;
    [b'/', digit(n / 100), digit(n / 10), digit(n)]
}

// Whether an inode is live.
fn is_live<D: Pm>(fs: &Fs<D>, number: u64) -> bool {
    match Vaddr::new(number.saturating_mul(INODE_BYTES)) {
        Some(at) => fs.peek(at) != 0,
        None => false,
    }
}

// Makes a file. It answers whether that took an inode which was free.
fn takes<D: Pm>(fs: &mut Fs<D>, n: u64, number: u64) -> bool {
    let free = !is_live(fs, number);
    free && fs.create(&path_of(n)) == Ok(()) && is_live(fs, number)
}

// How many files took the inode that they should: of all, and of each second one once it was removed.
fn lowest<D: Pm>(fs: &mut Fs<D>) -> (u64, u64) {
    let mut first: u64 = 0;
    for n in 0..FILES {
        first = first.saturating_add(takes(fs, n, n.saturating_add(2)) as u64);
    }
    for n in 0..FILES / 2 {
        let _ = fs.unlink(&path_of(n.saturating_mul(2)));
    }
    let mut again: u64 = 0;
    for n in 0..FILES / 2 {
        let even = n.saturating_mul(2);
        again = again.saturating_add(takes(fs, even, even.saturating_add(2)) as u64);
    }
    (first, again)
}

#[test]
fn a_new_file_takes_the_lowest_free_inode(rt: HostRuntime) -> Result<(), Fail> {
    let mut fs = match format(rt.alloc(), RamPm::new(rt.alloc(), 4096)?, 512) {
        Ok(fs) => fs,
        Err(_) => return Err(Fail::from("format")),
    };
    let found = lowest(&mut fs);
    let _dev = fs.unmount();
    assert_eq!(rt; found, (FILES, FILES / 2));
    Ok(())
}
