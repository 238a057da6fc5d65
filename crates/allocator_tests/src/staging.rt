// How many steps a run of staged pages makes on its device, and what its pages hold.
ghost use Rattle.std.specs.Prelude.{◌*◌, ◌<◌, ◌≤◌};
ghost use Rattle.ct_stage.specs.Edited.{AreThere};

use crate::volume::empty;
use ct_base::{
    FIRST_PAGE, MOST_PAGES, NoMemory, PAGE_BYTES, PARTITION_SLOT, SLOT_PAGES, STAGING_SLOT, Vaddr,
};
use ct_stage::{Edit, Given, stage};
use ct_walk::{Want, byte_at, missing};
use std::alloc::Global;
use std::test::Fail;

// The first virtual pages of root slots 2 and 10.
const STAGING: u64 = STAGING_SLOT * SLOT_PAGES;

const SIDE: u64 = PARTITION_SLOT * SLOT_PAGES;

// The most pages of a run here.
const MOST_RUN: u64 = 4096;

// The stores, flushes and fences of a run of so many pages, and a byte of it; none where the run has no room.
#[tactic(auto, using(crate::proofs::Devices::empty_tables, crate::proofs::Devices::empty_staging))]
fn steps_of(
    alloc: Global,
    pages: u64,
    count: u64,
    edit: &Edit,
    at: u64,
) -> Result<Option<(u64, u64, u64, u8)>, NoMemory>
    requires least { FIRST_PAGE ≤ pages }
    requires most { pages ≤ MOST_PAGES }
    requires some { 1 ≤ count }
    requires few { count ≤ MOST_RUN }
    requires given { AreThere edit.now }
    requires at { at < MOST_RUN * PAGE_BYTES }
{
    let (mut dev, mut frames) = empty(alloc, pages)?;
    let (Some(first), Some(place)) = (
        Vaddr::new(STAGING * PAGE_BYTES),
        Vaddr::new(STAGING * PAGE_BYTES + at),
    ) else {
        return Ok(None);
    };
    let want = Want {
        height: 0,
        at: first,
        len: count * PAGE_BYTES,
    };
    if missing(&dev, &[want]) > frames.free() {
        return Ok(None);
    }
    match stage(&mut dev, &mut frames, STAGING, count, SIDE, edit) {
        Ok(()) => Ok(Some((dev.stores, dev.flushes, dev.fences, byte_at(&dev, place)))),
        Err(_) => Ok(None),
    }
}

// The address of the file's side.
const BASE: u64 = SIDE * PAGE_BYTES;

#[test]
fn a_run_is_waited_for_once(rt: HostRuntime) -> Result<(), Fail> {
    let fill = Edit {
        from: BASE + 5,
        to: BASE + 16_777_216,
        given: Given::Same(65),
    };
    // A page takes 512 stores and 64 flushes, and one of each for its entry; the root's line is flushed once more.
    assert_eq!(rt;
        steps_of(rt.alloc(), 256, 1, &fill, 4)?,
        Some((4 * 513, 4 * 65 + 1, 1, 0))
    );
    assert_eq!(rt;
        steps_of(rt.alloc(), 256, 16, &fill, 5)?,
        Some((19 * 513, 19 * 65 + 1, 1, 65))
    );
    assert_eq!(rt;
        steps_of(rt.alloc(), 8192, 4096, &fill, 16_777_215)?,
        Some((4106 * 513, 4106 * 65 + 1, 1, 65))
    );
    Ok(())
}

#[test]
fn the_bytes_stand_in_their_order(rt: HostRuntime) -> Result<(), Fail> {
    let text = Edit {
        from: BASE + 4095,
        to: BASE + 4098,
        given: Given::Listed(b"abc"),
    };
    for (at, byte) in [
        (4094, 0),
        (4095, b'a'),
        (4096, b'b'),
        (4097, b'c'),
        (4098, 0),
    ] {
        assert_eq!(rt;
            steps_of(rt.alloc(), 64, 2, &text, at)?,
            Some((5 * 513, 5 * 65 + 1, 1, byte)),
            "at {at}"
        );
    }
    Ok(())
}
