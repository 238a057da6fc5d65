// Lines that are again as the file has them: a fence passes over them.
ghost use Rattle.std.specs.Prelude.{◌^◌, ◌<◌};

use crate::fixture::{PAGES, asked, fails_at, is_written, put, store, synced_device, write};
use crate::recording::{RecordingFile, Request};
use ct_base::PAGE_WORDS;
use ct_pm::{Pm, PmFault};
use std::test::Fail;

// Changed back before a fence: both lines were flushed, the second one across a fence that it was not flushed for.
#[test]
fn lines_that_are_as_the_file_has_them_are_not_written(rt: HostRuntime) -> Result<(), Fail> {
    let alloc = rt.alloc();
    let (mut dev, file) = synced_device(alloc, fails_at(alloc, &[])?)?;
    put(&mut dev, 1..4, 5)?;
    put(&mut dev, 2..3, 0)?;
    store(&mut dev, 6, 7)?;
    dev.fence()?;
    let found = asked(alloc, &file)?;
    assert_eq!(rt;
        found.as_slice(),
        [write(1, 1), write(3, 1), Request::Sync].as_slice()
    );
    put(&mut dev, 1..4, 6)?;
    put(&mut dev, 2..4, 5)?;
    put(&mut dev, 6..7, 0)?;
    dev.fence()?;
    let found = asked(alloc, &file)?;
    assert_eq!(rt; found.as_slice(), [write(1, 2), Request::Sync].as_slice());
    assert!(rt; is_written(&file, &dev));
    Ok(())
}

// The file may hold any part of what a failed fence was to write, so changing back does not help until it was written.
#[test]
fn after_a_failed_fence_no_marked_line_is_passed_over(rt: HostRuntime) -> Result<(), Fail> {
    let alloc = rt.alloc();
    for number in 0..2 {
        let (mut dev, file) = synced_device(alloc, fails_at(alloc, &[number])?)?;
        put(&mut dev, 1..2, 5)?;
        store(&mut dev, 4, 5)?;
        assert_eq!(rt; dev.fence(), Err(PmFault), "request {number}");
        let _ = asked(alloc, &file)?;
        put(&mut dev, 1..2, 0)?;
        put(&mut dev, 4..5, 0)?;
        dev.fence()?;
        let found = asked(alloc, &file)?;
        let wants = [Request::Sync, write(1, 1), Request::Sync];
        assert_eq!(rt; found.as_slice(), wants.as_slice(), "request {number}");
        put(&mut dev, 1..2, 7)?;
        put(&mut dev, 1..2, 0)?;
        dev.fence()?;
        let found = asked(alloc, &file)?;
        assert_eq!(rt;
            found.as_slice(),
            [Request::Sync].as_slice(),
            "request {number}"
        );
        assert!(rt; is_written(&file, &dev));
    }
    Ok(())
}

// Past the first 1,024 lines it is not known what the file has.
#[test]
fn further_lines_are_written(rt: HostRuntime) -> Result<(), Fail> {
    let alloc = rt.alloc();
    let (mut dev, file) = synced_device(alloc, fails_at(alloc, &[])?)?;
    put(&mut dev, 100..1600, 5)?;
    put(&mut dev, 100..1600, 0)?;
    dev.fence()?;
    let found = asked(alloc, &file)?;
    assert_eq!(rt;
        found.as_slice(),
        [write(1124, 476), Request::Sync].as_slice()
    );
    assert!(rt; is_written(&file, &dev));
    Ok(())
}

// Numbers that a seed gives.
#[derive(Drop)]
struct Chance {
    seed: u64,
}

impl Chance {
    fn below(&mut self, count: u64) -> u64
        requires { 0 < count }
        ensures { result < count }
    {
        let next = self.seed.wrapping_mul(6_364_136_223_846_793_005);
        self.seed = next.wrapping_add(1_442_695_040_888_963_407);
        (self.seed >> 33) % count
    }
}

// Makes so many stores of few values to two words of lines anywhere, and flushes most of the lines. In `open` are the lines
// that were stored to and not flushed since.
fn work<D: Pm>(
    dev: &mut D,
    open: &mut [bool],
    chance: &mut Chance,
    count: u64,
) -> Result<(), PmFault> {
    for _ in 0..count {
        let line = chance.below(64 * PAGES);
        let at = line as usize;
        if line / 64 < dev.pages() && at < open.len() {
            dev.store(8 * line + chance.below(2), chance.below(3))?;
            open[at] = true;
            if chance.below(8) != 0 {
                dev.flush(line)?;
                open[at] = false;
            }
        }
    }
    Ok(())
}

// Fences until one is done, at most three times.
fn fence<D: Pm>(dev: &mut D) -> Result<(), PmFault> {
    if dev.fence().is_ok() || dev.fence().is_ok() {
        return Ok(());
    }
    dev.fence()
}

// Whether the file has a line as the device has it.
fn has_line<D: Pm>(file: &RecordingFile, dev: &D, line: u64) -> bool
    requires { line < 2 ^ 32 }
{
    for word in 8 * line..8 * line + 8 {
        if word / PAGE_WORDS < dev.pages() && file.word(word) != Some(dev.load(word)) {
            return false;
        }
    }
    true
}

// Whether the file has each line of the device that is not open.
fn has_closed_lines<D: Pm>(file: &RecordingFile, dev: &D, open: &[bool]) -> bool {
    for line in 0..64 * PAGES {
        let at = line as usize;
        if at < open.len() && !open[at] && !has_line(file, dev, line) {
            return false;
        }
    }
    true
}

// Rounds of few and of many stores, with more than 1,024 lines between two fences, and fences that fail.
#[test]
fn files_have_what_was_flushed_and_fenced(rt: HostRuntime) -> Result<(), Fail> {
    let alloc = rt.alloc();
    let mut chance = Chance { seed: 1 };
    let (mut dev, file) = synced_device(alloc, fails_at(alloc, &[])?)?;
    let mut open = vec![in alloc; false; 64 * PAGES as usize]?;
    for round in 0..60 {
        let failing = chance.below(6) as usize;
        let _ = file.take_requests(alloc, fails_at(alloc, &[failing, failing + 1])?);
        work(&mut dev, &mut open, &mut chance, [5, 200, 6000][round % 3])?;
        fence(&mut dev)?;
        assert!(rt; has_closed_lines(&file, &dev, &open), "round {round}");
    }
    Ok(())
}
