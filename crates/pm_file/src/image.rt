// The words of a file in plain memory.
ghost use Rattle.std.specs.Prelude.{◌≡◌, ◌≤◌, ◌*◌, ◌+◌, ◌/◌, IfOk, length};
ghost use Rattle.ct_base.specs.declared.layout.TheConstants.{MOST_PAGES, PAGE_WORDS};
ghost use Rattle.ct_pm.specs.Ram.{pages_of, words_of};

use crate::attach::{AttachFault, PIECE, whole_pages};
use crate::writer::zeros;
use byteorder::{ByteOrder, LittleEndian};
use ct_base::PAGE_WORDS;
use ct_pm::{Pm, RamPm};
use std::alloc::Global;
use std::fs::{Files, OpenFile, OpenOptions};
use std::io;
use std::os::unix::fs::FileExt;

/// Opens a file that is there for reading alone, and copies its whole pages into plain memory. A rest shorter than a page is
/// ignored. A file of over 262,144 whole pages gives a device of 0 pages.
///
/// Nothing that is done to the device reaches the file.
///
/// # Errors
///
/// `File` where the file could not be opened, measured or read, and `NoMemory` where memory ran out.
pub fn read_image<F: FileExt + OpenFile + Drop, R: Files<File = F>>(
    rt: &R,
    alloc: Global,
    name: &str,
) -> Result<RamPm, AttachFault>
    ensures { IfOk result (λ device. pages_of device ≤ MOST_PAGES) }
{
    match OpenOptions::new().read(true).open(rt, name) {
        Ok(file) => image_of(alloc, &file),
        Err(_) => Err(AttachFault::File),
    }
}

// The whole pages of an open file.
fn image_of<F: FileExt + OpenFile>(alloc: Global, file: &F) -> Result<RamPm, AttachFault>
    ensures { IfOk result (λ device. pages_of device ≤ MOST_PAGES) }
{
    let Ok(pages) = whole_pages(file) else {
        return Err(AttachFault::File);
    };
    let Ok(mut device) = RamPm::new(alloc, pages) else {
        return Err(AttachFault::NoMemory);
    };
    let Ok(mut buffer) = zeros(alloc, 8 * PIECE) else {
        return Err(AttachFault::NoMemory);
    };
    match fill_words(file, &mut buffer, &mut device) {
        Ok(()) => Ok(device),
        Err(_) => Err(AttachFault::File),
    }
}

// Reads the words of a device from the front of the file, by pieces of the buffer.
fn fill_words<F: FileExt>(file: &F, buffer: &mut [u8], device: &mut RamPm) -> io::Result<()>
    requires room { length buffer.old ≡ 8 * 131072 }
    requires few { pages_of device.old ≤ MOST_PAGES }
    requires whole { length (words_of device.old) ≡ PAGE_WORDS * pages_of device.old }
    ensures { pages_of device.new ≡ pages_of device.old }
{
    let words = PAGE_WORDS * device.pages();
    let mut done = 0;
    'pieces: while done < words {
        let count = (PIECE as u64).min(words - done);
        let bytes = &mut buffer[..8 * count as usize];
        file.read_exact_at(bytes, 8 * done)?;
        store_words(device, done, bytes);
        done += count;
    }
    Ok(())
}

// Stores the words that stand in bytes, the lowest byte first, from a word on.
fn store_words(device: &mut RamPm, first: u64, bytes: &[u8])
    requires { first + length bytes.now / 8 ≤ length (words_of device.old) }
    ensures pages { pages_of device.new ≡ pages_of device.old }
    ensures size { length (words_of device.new) ≡ length (words_of device.old) }
{
    for k in 0..bytes.len() / 8 {
        let word = LittleEndian::read_u64(&bytes[8 * k..8 * k + 8]);
        match device.store(first + k as u64, word) {
            Ok(()) => {}
            Err(_) => unreachable!(),
        }
    }
}
