ghost use Rattle.std.specs.Prelude.{◌≡◌, ◌*◌, ◌+◌, ◌<◌, ◌≤◌, length, IfOk};
ghost use Rattle.ct_base.specs.declared.layout.TheConstants.{MOST_PAGES};

use byteorder::{ByteOrder, LittleEndian};
use ct_base::{MOST_PAGES, NoMemory};
use std::alloc::Global;
use std::io;
use std::os::unix::fs::FileExt;

const LINE_BYTES: usize = 64;

/// How many lines are written at once at most: 64 KiB.
const ROOM: usize = 1024;

/// Gathers neighbouring lines, and writes each run of them at once.
#[derive(Drop)]
pub struct Writer {
    bytes: Vec<u8>,
    lines: usize,
    first: u64,
    ghost size: { length bytes.items ≡ 65536 },
    ghost fits: { lines ≤ 1024 },
    ghost few: { first ≤ MOST_PAGES * 64 },
}

impl Writer {
    /// With no line gathered.
    pub fn new(alloc: Global) -> Result<Writer, NoMemory> {
        match zeros(alloc, ROOM * LINE_BYTES) {
            Ok(bytes) => Ok(Writer {
                bytes,
                lines: 0,
                first: 0,
            }),
            Err(_) => Err(NoMemory),
        }
    }

    /// Gathers a line, given by its eight words. The lines so far are written first, where it is not their neighbour or
    /// there is no room.
    pub fn add<F: FileExt>(&mut self, file: &F, line: u64, words: &[u64]) -> io::Result<()>
        requires few { line < MOST_PAGES * 64 }
        requires whole { length words.now ≡ 8 }
    {
        if self.lines == ROOM || self.first + self.lines as u64 != line {
            self.send(file)?;
            self.first = line;
        }
        let used = LINE_BYTES * self.lines;
        LittleEndian::write_u64_into(words, &mut self.bytes[used..used + LINE_BYTES]);
        self.lines += 1;
        Ok(())
    }

    /// Writes the lines that were gathered. After it there is none, whatever the file answered.
    pub fn send<F: FileExt>(&mut self, file: &F) -> io::Result<()>
        ensures { self.new.lines ≡ 0 }
    {
        let used = LINE_BYTES * self.lines;
        self.lines = 0;
        if used == 0 {
            return Ok(());
        }
        file.write_all_at(&self.bytes[..used], LINE_BYTES as u64 * self.first)
    }
}

/// So many bytes 0.
pub fn zeros(alloc: Global, count: usize) -> Result<Vec<u8>, NoMemory>
    ensures { IfOk result (λ bytes. length bytes.items ≡ count) }
{
    match vec![in alloc; 0u8; count] {
        Ok(bytes) => Ok(bytes),
        Err(_) => Err(NoMemory),
    }
}
