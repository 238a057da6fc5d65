// What a reader of the image finds of the file.
use crate::FILE;
use create_stops::reader::{inode_word, word_at};
use ct_pm::Pm;
use std::alloc::AllocError;

/// A byte of the file.
pub fn byte_of<D: Pm>(dev: &D, at: u64) -> u8 {
    let address = inode_word(dev, FILE, 2).saturating_add(at);
    (word_at(dev, address) >> (8 * (address % 8)) & 255) as u8
}

/// The size of the file.
pub fn size_of<D: Pm>(dev: &D) -> u64 {
    inode_word(dev, FILE, 1)
}

/// Whether the file has just the bytes of a list.
pub fn holds<D: Pm>(dev: &D, list: &[u8]) -> bool {
    if size_of(dev) != list.len() as u64 {
        return false;
    }
    for (at, byte) in list.iter().enumerate() {
        if byte_of(dev, at as u64) != *byte {
            return false;
        }
    }
    true
}

/// Puts bytes at an offset of a list, with zeros before them where it ends sooner.
pub fn put(list: &mut Vec<u8>, off: usize, bytes: &[u8]) -> Result<(), AllocError> {
    for _ in list.len()..off {
        list.push(0)?;
    }
    for (i, byte) in bytes.iter().enumerate() {
        let at = off.saturating_add(i);
        if at < list.len() {
            list[at] = *byte;
        } else {
            list.push(*byte)?;
        }
    }
    Ok(())
}
