ghost use Rattle.std.specs.Prelude.{◌≡◌, ◌≤◌, IfOk};
ghost use Rattle.ct_pm.specs.Images.{IsSettled};
ghost use Rattle.pm_fuse.specs.Fuse.{inner};
ghost use Rattle.pm_trace.specs.Meaning.{history};

use crate::images::{Gate, Look, Outcome, check_images};
use create_stops::reader::{SECOND_SPAN, THIRD_SPAN};
use create_stops::rest::PAGES;
use ct_base::{
    INODE_BYTES, LONG_GATE, PAGE_BYTES, PAGE_WORDS, ROOT_PAGE, ROOT_WORD, SLOT_SPAN, TABLE_ENTRIES,
    TOP_LEVEL,
};
use ct_pm::{Pm, Step};
use growth_stops::{Growth, Start, Stopping, made};
use pm_fuse::FusePm;
use pm_trace::TracePm;
use std::alloc::Global;
use std::process::Abort;
use std::test::Fail;

// The room for the steps of one growth.
const ROOM: u64 = 40_000;

// As many calls as there may be.
const ALL: u64 = u64::MAX;

// How many words of tables growth to each level exchanges, two for each piece: 64 pieces where a partition of 262,144 bytes
// is full, and one where one of 2,097,152 bytes is.
const EXCHANGED: [u64; 10] = [0, 2, 16, 128, 2, 16, 128, 2, 16, 128];

// A device that starts with nothing pending.
fn blank(alloc: Global) -> Result<Stopping, Fail>
    ensures { IfOk result (λ device. IsSettled (history (inner device))) }
{
    let words = vec![in alloc; 0; 512 * 256]?;
    Ok(FusePm::new(TracePm::new(alloc, words, ROOM, Vec::new(alloc))?, ALL))
}

// The number of pages of a partition of a level.
fn pages_of(level: u32) -> u64 {
    8u64.saturating_pow(level)
}

// The offsets, in pages, that have a page in a partition of a level: up to 64 at its begin, and the last one of each level
// so far.
fn offsets(alloc: Global, level: u32) -> Result<Vec<u64>, Fail> {
    let mut offsets = Vec::new(alloc);
    for offset in 0..pages_of(level).min(64) {
        offsets.push(offset)?;
    }
    for lower in 3..=level {
        offsets.push(pages_of(lower).saturating_sub(1))?;
    }
    Ok(offsets)
}

// Where the root directory has no partition yet.
fn first(alloc: Global) -> Result<Start, Fail> {
    let device = made(alloc, blank(alloc)?).ok_or("an empty tree")?;
    Ok(Start::of(device).ok_or("a start")?)
}

// Where the root directory has grown to a level, and has its pages there.
fn next(alloc: Global, start: &Start, level: u32) -> Result<Start, Fail> {
    let device = start.device(alloc, ROOM, ALL).ok_or("a device")?;
    let Growth::Done(mut grown) = device.grow(level) else {
        return Err(Fail::from("growth"));
    };
    for offset in offsets(alloc, level)? {
        grown = grown
            .filled(offset.saturating_mul(PAGE_BYTES))
            .ok_or("a page")?;
    }
    Ok(Start::of(grown).ok_or("a start")?)
}

// Where the root directory has grown to each level below one in turn.
fn grown_below(alloc: Global, level: u32) -> Result<Start, Fail> {
    let mut start = first(alloc)?;
    for to in 0..level {
        start = next(alloc, &start, to)?;
    }
    Ok(start)
}

// The device after growth to a level that stops after so many calls, and whether it was done.
fn run(alloc: Global, start: &Start, level: u32, passes: u64) -> Result<(TracePm, bool), Fail> {
    let device = start.device(alloc, ROOM, passes).ok_or("a device")?;
    match device.grow(level) {
        Growth::Done(grown) => Ok((grown.into_parts().0.into_inner(), true)),
        Growth::Stopped(dev) => Ok((dev.into_inner(), false)),
        Growth::Refused => Err(Fail::from("growth")),
    }
}

// A word of a page, 0 where there is none.
fn word_in(words: &[u64], page: u64, index: u64) -> u64 {
    if page == 0 || page >= PAGES || index >= PAGE_WORDS {
        return 0;
    }
    let word = page * PAGE_WORDS + index;
    if word < words.len() as u64 {
        words[word as usize]
    } else {
        0
    }
}

// The index of an address in the table that so many index steps reach.
fn index_of(address: u64, steps: u32) -> u64 {
    match steps {
        0 => address / SLOT_SPAN % TABLE_ENTRIES,
        1 => address / THIRD_SPAN % TABLE_ENTRIES,
        2 => address / SECOND_SPAN % TABLE_ENTRIES,
        _ => address / PAGE_BYTES % TABLE_ENTRIES,
    }
}

// The page after so many index steps on the way to an address, 0 where there is none.
fn step_to(words: &[u64], address: u64, steps: u32) -> u64 {
    let mut page = ROOT_PAGE;
    for step in 0..steps {
        page = word_in(words, page, index_of(address, step)) / PAGE_BYTES;
    }
    page
}

// Word k of inode 1.
fn inode_word(words: &[u64], k: u64) -> u64 {
    word_in(words, step_to(words, INODE_BYTES, 4), 8 + k % 8)
}

// What is seen of the root directory: its inode, and the page and the words of each of these addresses.
fn seen(alloc: Global, words: &[u64], addresses: &[u64]) -> Result<Vec<u64>, Fail> {
    let mut seen = Vec::new(alloc);
    for k in 0..8 {
        seen.push(inode_word(words, k))?;
    }
    for address in addresses {
        let page = step_to(words, *address, 4);
        seen.push(page)?;
        if page != 0 {
            for index in 0..512 {
                seen.push(word_in(words, page, index))?;
            }
        }
    }
    Ok(seen)
}

// The addresses at which growth from a start may show: the pages of the old partition, and those of the new one at the
// same offsets.
fn addresses(alloc: Global, old: &[u64], new: &[u64]) -> Result<Vec<u64>, Fail> {
    let mut addresses = Vec::new(alloc);
    let level = inode_word(old, 3);
    if level > TOP_LEVEL {
        addresses.push(inode_word(new, 2))?;
        return Ok(addresses);
    }
    for base in [inode_word(old, 2), inode_word(new, 2)] {
        for offset in offsets(alloc, level as u32)? {
            addresses.push(base.saturating_add(offset.saturating_mul(PAGE_BYTES)))?;
        }
    }
    Ok(addresses)
}

// The calls of one growth, by how many have passed: those before the record, those until its gate is stored, those until
// it is fenced, and all. The gate is word 512, and the record begins there.
#[derive(Clone, Copy, Debug)]
struct Calls {
    pages: u64,
    stored: u64,
    fenced: u64,
    all: u64,
}

fn calls_of(dev: &TracePm) -> Calls {
    let mut calls = Calls {
        pages: dev.clock(),
        stored: 0,
        fenced: 0,
        all: dev.clock(),
    };
    for i in 0..dev.clock() {
        match dev.step_at(i) {
            Step::Store { word, value } => {
                if word >= LONG_GATE && word < ROOT_WORD {
                    calls.pages = calls.pages.min(i);
                }
                if word == LONG_GATE && value != 0 {
                    calls.stored = i + 1;
                }
            }
            Step::Flush { .. } => {}
            Step::Fence => {
                if calls.stored > 0 && calls.fenced == 0 {
                    calls.fenced = i + 1;
                }
            }
        }
    }
    calls
}

// Whether a page of a device that has grown is a table on the way to the begin of the old partition or of the new one.
fn is_table(words: &[u64], bases: (u64, u64), page: u64) -> bool {
    (1..4).any(|steps| {
        page == step_to(words, bases.0, steps) || page == step_to(words, bases.1, steps)
    })
}

// How many words of the tables are stored to once the gate is fenced: those that growth exchanges.
fn exchanged(dev: &TracePm, old: &[u64], new: &[u64]) -> u64 {
    let bases = (inode_word(old, 2), inode_word(new, 2));
    let mut exchanged = 0u64;
    for i in calls_of(dev).fenced..dev.clock() {
        if let Step::Store { word, value: _ } = dev.step_at(i)
            && is_table(new, bases, word / PAGE_WORDS)
        {
            exchanged = exchanged.saturating_add(1);
        }
    }
    exchanged
}

// One growth: where it shows, and what is seen there before it and after it.
#[derive(Drop)]
struct Change {
    addresses: Vec<u64>,
    before: Vec<u64>,
    after: Vec<u64>,
}

impl Change {
    fn of(alloc: Global, old: &[u64], new: &[u64]) -> Result<Change, Fail> {
        let addresses = addresses(alloc, old, new)?;
        Ok(Change {
            before: seen(alloc, old, &addresses)?,
            after: seen(alloc, new, &addresses)?,
            addresses,
        })
    }
}

impl Look for Change {
    fn look(&self, alloc: Global, rested: TracePm) -> Result<Outcome, Fail> {
        let found = seen(alloc, &rested.into_words(), &self.addresses)?;
        if found == self.before {
            return Ok(Outcome::Before);
        }
        if found == self.after {
            return Ok(Outcome::After);
        }
        Ok(Outcome::Neither)
    }
}

// Whether growth is stopped after so many calls. While pages are made, before the record, growth to level 0 makes 27 pages by
// 15,660 calls, and stops after each 31st of these; growth to another level makes one page or none, and stops after each call.
fn is_tried(calls: Calls, passed: u64) -> bool {
    passed >= calls.pages || calls.pages <= 1000 || passed % 31 == 0
}

// A growth that may stop: where it begins, how many calls it has, and where it shows.
#[derive(Drop)]
struct Watched {
    start: Start,
    level: u32,
    calls: Calls,
    change: Change,
}

impl Watched {
    fn of(alloc: Global, level: u32) -> Result<Watched, Fail> {
        let start = grown_below(alloc, level)?;
        let (dev, _) = run(alloc, &start, level, ALL)?;
        let calls = calls_of(&dev);
        let change = Change::of(alloc, start.words(), &dev.into_words())?;
        Ok(Watched {
            start,
            level,
            calls,
            change,
        })
    }

    fn gate(&self) -> Gate {
        Gate {
            stored: self.calls.stored,
            fenced: self.calls.fenced,
        }
    }

    // The device that stops after so many calls. It fails where the growth is done before its last call, or not by it.
    fn stopped(&self, alloc: Global, passed: u64) -> Result<TracePm, Fail> {
        let (dev, done) = run(alloc, &self.start, self.level, passed)?;
        if done == (passed == self.calls.all) {
            Ok(dev)
        } else {
            Err(Fail::from("a growth that is done"))
        }
    }
}

// Growth from each level to the next that stops after each call of its record, and before that after each so many calls.
fn stop_growth(rt: &impl Abort, alloc: Global, level: u32) -> Result<(), Fail> {
    let watched = Watched::of(alloc, level)?;
    for passed in 0..=watched.calls.all {
        if is_tried(watched.calls, passed) {
            let dev = watched.stopped(alloc, passed)?;
            check_images(rt, alloc, &watched.change, watched.gate(), &dev, passed)?;
        }
    }
    Ok(())
}

// Whether each page of the old partition is at its offset in the new one, with its words, and at the old one no more.
fn has_moved(alloc: Global, old: &[u64], new: &[u64]) -> Result<bool, Fail> {
    let level = inode_word(old, 3);
    if level > TOP_LEVEL {
        return Ok(true);
    }
    for offset in offsets(alloc, level as u32)? {
        let from = inode_word(old, 2).saturating_add(offset.saturating_mul(PAGE_BYTES));
        let to = inode_word(new, 2).saturating_add(offset.saturating_mul(PAGE_BYTES));
        let page = step_to(old, from, 4);
        if page == 0 || step_to(new, to, 4) != page || step_to(new, from, 4) != 0 {
            return Ok(false);
        }
        if (0..512).any(|index| word_in(new, page, index) != word_in(old, page, index)) {
            return Ok(false);
        }
    }
    Ok(true)
}

// What growth to a level leaves: the level of the inode, how many words of tables it exchanged, and whether each page moved.
fn grown(alloc: Global, start: &Start, level: u32) -> Result<(u64, u64, bool), Fail> {
    let (dev, _) = run(alloc, start, level, ALL)?;
    let new = dev.crash(alloc, &[], Vec::new(alloc))?.into_words();
    let moved = has_moved(alloc, start.words(), &new)?;
    let exchanged = exchanged(&dev, start.words(), &new);
    Ok((inode_word(&new, 3), exchanged, moved))
}

#[test]
fn pages_move_and_few_words_are_exchanged(rt: HostRuntime) -> Result<(), Fail> {
    let alloc = rt.alloc();
    for (level, words) in EXCHANGED.iter().enumerate() {
        let start = grown_below(alloc, level as u32)?;
        let found = grown(alloc, &start, level as u32)?;
        assert_eq!(rt; found, (level as u64, *words, true));
    }
    Ok(())
}

#[test]
fn growth_to_levels_0_to_3_stops(rt: HostRuntime) -> Result<(), Fail> {
    for level in 0..4 {
        stop_growth(&rt, rt.alloc(), level)?;
    }
    Ok(())
}

#[test]
fn growth_to_levels_4_to_9_stops(rt: HostRuntime) -> Result<(), Fail> {
    for level in 4..10 {
        stop_growth(&rt, rt.alloc(), level)?;
    }
    Ok(())
}
