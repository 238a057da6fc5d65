// Devices over files that tell what they were asked.
ghost use Rattle.std.specs.Prelude.{◌^◌, ◌<◌};

use crate::recording::{Manner, RecordingFile, Request};
use ct_base::{PAGE_BYTES, PAGE_WORDS};
use ct_pm::{Pm, PmFault};
use pm_file::FilePm;
use std::alloc::Global;
use std::ops::Range;
use std::test::Fail;

/// How many pages the files have.
pub const PAGES: u64 = 40;

const LINE_BYTES: u64 = 64;

/// A request to write so many lines, all of which the file took.
pub fn write(line: u64, lines: usize) -> Request
    requires place { line < 2 ^ 32 }
    requires count { lines < 2 ^ 32 }
{
    Request::Write {
        off: LINE_BYTES * line,
        taken: LINE_BYTES as usize * lines,
    }
}

/// Takes what it is given, and fails at none or these requests.
pub fn fails_at(alloc: Global, numbers: &[usize]) -> Result<Manner, Fail> {
    Ok(Manner {
        most: usize::MAX,
        fail_at: numbers.to_vec(alloc)?,
    })
}

/// What the file was asked since this was asked last. From now on no request fails.
pub fn asked(alloc: Global, file: &RecordingFile) -> Result<Vec<Request>, Fail> {
    Ok(file.take_requests(alloc, fails_at(alloc, &[])?))
}

/// A device over a file of bytes 0, and the file.
pub fn device(
    alloc: Global,
    manner: Manner,
) -> Result<(FilePm<RecordingFile>, RecordingFile), Fail> {
    let file = RecordingFile::new(alloc, (PAGE_BYTES * PAGES) as usize, manner)?;
    let dev = FilePm::over(alloc, file.share()?)?;
    Ok((dev, file))
}

/// A device whose first fence is done, and its file.
pub fn synced_device(
    alloc: Global,
    manner: Manner,
) -> Result<(FilePm<RecordingFile>, RecordingFile), Fail> {
    let (mut dev, file) = device(alloc, fails_at(alloc, &[])?)?;
    dev.fence()?;
    let _ = file.take_requests(alloc, manner);
    Ok((dev, file))
}

/// Stores a value at the first word of a line.
pub fn store<D: Pm>(dev: &mut D, line: u64, value: u64) -> Result<(), PmFault> {
    if line / 64 < dev.pages() {
        dev.store(8 * line, value)?;
    }
    Ok(())
}

/// Flushes a line.
pub fn flush<D: Pm>(dev: &mut D, line: u64) -> Result<(), PmFault> {
    if line / 64 < dev.pages() {
        dev.flush(line)?;
    }
    Ok(())
}

/// Stores a value at the first word of each line, and flushes it.
pub fn put<D: Pm>(dev: &mut D, lines: Range<u64>, value: u64) -> Result<(), PmFault> {
    for line in lines {
        store(dev, line, value)?;
        flush(dev, line)?;
    }
    Ok(())
}

/// Whether the file has the words of the device.
pub fn is_written<D: Pm>(file: &RecordingFile, dev: &D) -> bool {
    for page in 0..dev.pages() {
        for word in 0..PAGE_WORDS {
            let at = PAGE_WORDS * page + word;
            if file.word(at) != Some(dev.load(at)) {
                return false;
            }
        }
    }
    true
}
