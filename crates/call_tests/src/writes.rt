// Writes around the edges of pages and tables, what the file holds then, and how many steps and pairs they make.
ghost use Rattle.std.specs.Prelude.{◌≤◌};
ghost use Rattle.ct_pm.specs.Device.{NothingPending};

use ct_base::{LONG_GATE, MOST_PAGES};
use ct_pm::{Pm, RamPm, Step};
use ct_write::Data;
use growth_stops::{Growth, with_file};
use pm_trace::TracePm;
use record_stops::steps_since;
use std::alloc::{AllocError, Global};
use std::test::Fail;
use write_stops::{Holder, Wrote, byte_of, holds, put, size_of};

// A file of a level on a device.
fn file_on<D: Pm + Drop>(alloc: Global, dev: D, level: u32) -> Result<Holder<D>, Fail>
    requires { NothingPending (D.told dev) }
{
    let resting = with_file(alloc, dev).ok_or("a file")?;
    match resting.grow_file(level) {
        Growth::Done(grown) => Ok(Holder::of(grown)),
        Growth::Stopped(_) | Growth::Refused => Err(Fail::from("a file of a level")),
    }
}

// A file of a level on a device of so many pages.
fn file_of(alloc: Global, pages: u64, level: u32) -> Result<Holder<RamPm>, Fail>
    requires { pages ≤ MOST_PAGES }
{
    file_on(alloc, RamPm::new(alloc, pages)?, level)
}

// A file of a level on a device that remembers its steps.
fn told_file(alloc: Global, pages: usize, level: u32, room: u64) -> Result<Holder<TracePm>, Fail>
    requires pages { pages ≤ 16384 }
    requires room { room ≤ 16777216 }
{
    let words = vec![in alloc; 0u64; 512 * pages]?;
    file_on(
        alloc,
        TracePm::new(alloc, words, room, Vec::new(alloc))?,
        level,
    )
}

// The file after one write more.
fn written<D: Pm + Drop>(holder: Holder<D>, off: u64, data: Data<'_>) -> Result<Holder<D>, Fail> {
    match holder.write(off, data) {
        Wrote::Done(holder) => Ok(holder),
        Wrote::Stopped(_) | Wrote::Refused => Err(Fail::from("a write")),
    }
}

// Bytes of which no two neighbours are the same.
fn pattern(alloc: Global, from: u64, len: u64) -> Result<Vec<u8>, AllocError> {
    let mut bytes = Vec::new(alloc);
    for k in 0..len {
        bytes.push((k.saturating_add(from) % 251) as u8)?;
    }
    Ok(bytes)
}

// Writes bytes of a pattern at an offset of a file and of a list, and then so many of one byte. It tells the file, and whether
// it has the bytes of the list each time.
fn write_both(
    alloc: Global,
    holder: Holder<RamPm>,
    list: &mut Vec<u8>,
    off: u64,
    len: u64,
) -> Result<(Holder<RamPm>, bool), Fail> {
    let bytes = pattern(alloc, off, len)?;
    let holder = written(holder, off, Data::Bytes(&bytes))?;
    put(list, off as usize, &bytes)?;
    let held = holds(holder.dev(), list);
    let fill = vec![in alloc; 7; len as usize]?;
    let holder = written(holder, off, Data::Fill { len, byte: 7 })?;
    put(list, off as usize, &fill)?;
    let held = held && holds(holder.dev(), list);
    Ok((holder, held))
}

// Offsets and lengths of writes, one after the other: around the edges of pages and of words, and past the end.
const WRITES: [(u64, u64); 16] = [
    (0, 1),
    (4095, 1),
    (4096, 1),
    (4095, 2),
    (0, 4096),
    (1, 4095),
    (1, 4096),
    (4095, 4098),
    (7, 8),
    (8, 8),
    (9, 6),
    (4096, 8192),
    (20_480, 1),
    (24_580, 5),
    (8191, 1),
    (0, 16_384),
];

#[test]
fn a_file_has_the_bytes_of_a_list(rt: HostRuntime) -> Result<(), Fail> {
    let alloc = rt.alloc();
    let mut holder = file_of(alloc, 256, 2)?;
    let mut list = Vec::new(alloc);
    for (off, len) in WRITES {
        let (next, held) = write_both(alloc, holder, &mut list, off, len)?;
        holder = next;
        assert!(rt; held, "{len} bytes at {off}");
    }
    Ok(())
}

// Whether the file has these bytes from an offset on.
fn has_bytes<D: Pm>(dev: &D, off: u64, bytes: &[u8]) -> bool {
    for (i, byte) in bytes.iter().enumerate() {
        if byte_of(dev, off.saturating_add(i as u64)) != *byte {
            return false;
        }
    }
    true
}

// Writes bytes of a pattern at an offset. It tells the file, its size and the byte before them, and whether they are there.
fn write_across(
    alloc: Global,
    holder: Holder<RamPm>,
    off: u64,
    len: u64,
) -> Result<(Holder<RamPm>, (u64, u8, bool)), Fail> {
    let bytes = pattern(alloc, 100, len)?;
    let holder = written(holder, off, Data::Bytes(&bytes))?;
    let dev = holder.dev();
    let found = (
        size_of(dev),
        byte_of(dev, off.saturating_sub(1)),
        has_bytes(dev, off, &bytes),
    );
    Ok((holder, found))
}

// Around the edges of tables of each height, and at the end of a partition as long as a root slot.
#[test]
fn bytes_lie_across_tables(rt: HostRuntime) -> Result<(), Fail> {
    let alloc = rt.alloc();
    let mut holder = file_of(alloc, 256, 9)?;
    for (off, len) in [(2_097_149, 6), (1_073_741_821, 6), (549_755_813_883, 5)] {
        let (next, found) = write_across(alloc, holder, off, len)?;
        holder = next;
        assert_eq!(rt; found, (off + len, 0, true));
    }
    let longer = holder.write(549_755_813_883, Data::Fill { len: 6, byte: 1 });
    assert!(rt;
        matches!(longer, Wrote::Refused),
        "bytes past the end of a partition"
    );
    Ok(())
}

// How many pairs the long record of the steps since a moment has, 0 where there is none.
fn pairs_since(dev: &TracePm, from: u64) -> u64 {
    let mut pairs = 0;
    for i in from..dev.clock() {
        match dev.step_at(i) {
            Step::Store {
                word: LONG_GATE,
                value,
            } => pairs = value.max(pairs),
            _ => {}
        }
    }
    pairs
}

// A page in place is staged with three tables: four pages of 512 stores and 64 flushes, an entry for each, and the line of
// the root slot once more. Its record is two short pairs: eight stores and four flushes. The slot is emptied by one of each.
#[test]
fn a_page_in_place_makes_so_many_steps(rt: HostRuntime) -> Result<(), Fail> {
    let holder = told_file(rt.alloc(), 256, 2, 100_000)?;
    let holder = written(holder, 0, Data::Fill { len: 8192, byte: 1 })?;
    let before = holder.dev().clock();
    let filled = Data::Fill { len: 4096, byte: 1 };
    let holder = written(holder, 4096, filled)?;
    let steps = steps_since(holder.dev(), before);
    let found = (steps.stores, steps.flushes, steps.fences);
    let wanted = (4 * 512 + 4 + 8 + 1, 4 * 64 + 4 + 1 + 4 + 1, 1 + 3 + 1);
    assert_eq!(rt; found, wanted);
    Ok(())
}

// 16 MiB are eight pieces of 512 pages. Where the file gets longer, its size is one pair more.
#[test]
fn sixteen_mebibytes_are_sixteen_pairs(rt: HostRuntime) -> Result<(), Fail> {
    let mut holder = told_file(rt.alloc(), 8448, 4, 5_000_000)?;
    for pairs in [17, 16] {
        let from = holder.dev().clock();
        let filled = Data::Fill {
            len: 16_777_216,
            byte: 1,
        };
        holder = written(holder, 0, filled)?;
        assert_eq!(rt; pairs_since(holder.dev(), from), pairs);
    }
    Ok(())
}
