ghost use Rattle.std.specs.Prelude.{◌≡◌, ◌*◌, ◌≤◌, ℕ, length, IfOk, OnOk};

use byteorder::{ByteOrder, LittleEndian};
use ct_base::{MOST_PAGES, PAGE_BYTES, PAGE_WORDS};
use std::fs::OpenFile;
use std::io;
use std::os::unix::fs::FileExt;
use thiserror::Error;

/// How many words are read at once: 1 MiB.
pub const PIECE: usize = 131_072;

/// Why a file could not be attached.
#[derive(Clone, Copy, Debug, PartialEq, Eq, Error)]
pub enum AttachFault {
    #[error("no memory")]
    NoMemory,
    #[error("the file cannot be opened, measured or read")]
    File,
}

/// How many whole pages the file has, or 0 where these are too many.
pub fn whole_pages<F: OpenFile>(file: &F) -> io::Result<u64>
    ensures { IfOk result (λ pages. pages ≤ MOST_PAGES) }
{
    let pages = file.metadata()?.len() / PAGE_BYTES;
    Ok(if pages > MOST_PAGES { 0 } else { pages })
}

/// Reads the words from the front of the file, by pieces of the buffer.
pub fn read_words<F: FileExt>(file: &F, buffer: &mut [u8], words: &mut [u64]) -> io::Result<()>
    requires room { length buffer.old ≡ 8 * 131072 }
    requires few { length words.old ≤ MOST_PAGES * PAGE_WORDS }
{
    let mut done = 0;
    'pieces: while done < words.len() {
        let count = PIECE.min(words.len() - done);
        let bytes = &mut buffer[..8 * count];
        file.read_exact_at(bytes, 8 * done as u64)?;
        LittleEndian::read_u64_into(bytes, &mut words[done..done + count]);
        done += count;
    }
    Ok(())
}
