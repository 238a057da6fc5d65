// Files that a test makes and looks at.
use std::fs::File;
use std::os::unix::fs::FileExt;
use std::{fs, io};

/// What the files begin with, so that a change shows.
pub const HEAD: [u8; 8] = *b"as it is";

/// Makes a file of so many bytes: the head, and bytes 0 that take no room.
pub fn make(rt: &HostRuntime, name: &str, len: u64) -> io::Result<()> {
    let file = File::create(rt, name)?;
    file.write_all_at(&HEAD, 0)?;
    file.set_len(len)
}

/// The length of a file, and what it begins with.
pub fn look(rt: &HostRuntime, name: &str) -> io::Result<(u64, [u8; 8])> {
    let file = File::open(rt, name)?;
    let mut head = [0u8; 8];
    file.read_exact_at(&mut head, 0)?;
    Ok((fs::metadata(rt, name)?.len(), head))
}
