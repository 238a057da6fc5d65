ghost use Rattle.std.specs.Prelude.{◌≤◌};
ghost use Rattle.ct_base.specs.Walk.{AreTables};
ghost use Rattle.ct_frames.specs.Free.{FreePages};
ghost use Rattle.allocator_tests.specs.Ready.{IsReady};

use crate::volume::{
    empty, ensure_page, first_base, format, read, release_at, take_around, take_first,
};
use ct_base::{SLOT_SPAN, TOP_LEVEL, Vaddr};
use ct_pm::Pm;
use ct_walk::{Want, missing};
use std::process::Abort;
use std::test::Fail;

// Where the headers begin: root slot 1.
const HEADERS: u64 = SLOT_SPAN;

// The address of the header word of the first range of root slot 10.
fn header_of(level: u32) -> u64
    requires low { 2 ≤ level }
    requires high { level ≤ TOP_LEVEL }
{
    let number = (10 << 27) >> (3 * level);
    HEADERS + (1 << 36) + (level as u64 - 2) * (1 << 33) + 8 * number
}

// Checks the header word of the first ranges of level 0, that of each range above the first where these are subdivided or
// not, and that of the last root slots.
fn check_headers<D: Pm>(rt: &impl Abort, dev: &D, lowest: u64, is_subdivided: bool, slots: u64)
    requires { AreTables (D.words dev.now) }
{
    assert_eq!(rt; read(dev, HEADERS + (80 << 24)), lowest);
    for level in 2..10u32 {
        let word = if is_subdivided { 31 + level as u64 } else { 0 };
        assert_eq!(rt; read(dev, header_of(level)), word, "level {level}");
    }
    assert_eq!(rt; read(dev, HEADERS + (1 << 37) + 8), slots);
}

// Checks the first free partition of some levels.
fn check_bases<D: Pm>(rt: &impl Abort, dev: &D)
    requires { (frames : FreePages) × IsReady (D.words dev.now) frames }
{
    for (level, base) in [
        (0, 5_497_558_142_976),
        (1, 5_497_558_171_648),
        (9, 11 << 39),
    ] {
        assert_eq!(rt; first_base(dev, level), base, "level {level}");
    }
}

#[test]
fn a_partition_is_taken_and_released(rt: HostRuntime) -> Result<(), Fail> {
    let (dev, mut frames) = empty(rt.alloc(), 128)?;
    let dev = format(dev, &mut frames)?;
    let (dev, base) = take_first(dev, &mut frames, 0)?;
    assert_eq!(rt; base.get(), 5_497_558_138_880);
    check_headers(&rt, &dev, 0x10, true, 0x29_3030);
    check_bases(&rt, &dev);
    let dev = release_at(dev, &mut frames, 0, base)?;
    check_headers(&rt, &dev, 0, false, 0x3030);
    Ok(())
}

// A page is made with three tables on the way to it.
#[test]
#[tactic(auto, using(crate::proofs::Devices::empty_tables))]
fn a_page_and_its_tables_are_made(rt: HostRuntime) -> Result<(), Fail> {
    let (mut dev, mut frames) = empty(rt.alloc(), 256)?;
    let at = Vaddr::new(5_497_558_138_880).ok_or("an address")?;
    for height in 0..4u32 {
        let want = Want { height, at, len: 1 };
        assert_eq!(rt; missing(&dev, &[want]), 4 - height as u64);
    }
    assert_eq!(rt; frames.free(), 222);
    ensure_page(&mut dev, &mut frames, at.get())?;
    assert_eq!(rt; frames.free(), 218);
    Ok(())
}

#[test]
fn a_search_looks_at_few_bytes(rt: HostRuntime) -> Result<(), Fail> {
    let (dev, mut frames) = empty(rt.alloc(), 128)?;
    let dev = format(dev, &mut frames)?;
    let dev = take_around(dev, &mut frames)?;
    let before = dev.loads();
    assert_eq!(rt; first_base(&dev, 0), 5_566_277_615_616);
    // five loads for each of at most 574 bytes
    assert!(rt; dev.loads().wrapping_sub(before) <= 2870);
    Ok(())
}
