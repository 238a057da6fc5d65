// Pages that are wanted together: how many are taken, and how many fences that takes.
ghost use Rattle.std.specs.Prelude.{◌+◌, ◌*◌, ◌<◌, ◌≤◌, OnOk};
ghost use Rattle.ct_base.specs.Walk.{AreTables};
ghost use Rattle.ct_frames.specs.Agrees.{Agrees};

use crate::volume::empty;
use ct_base::{ADDRESS_END, PAGE_BYTES, SLOT_SPAN, Vaddr};
use ct_frames::Frames;
use ct_pm::{Pm, PmFault};
use ct_walk::{Want, ensure_all, missing};
use pm_count::CountingPm;
use std::test::Fail;

// So many pages from an address on.
fn pages(from: u64, count: u64) -> Want
    requires some { 0 < count }
    requires inside { from + count * PAGE_BYTES ≤ ADDRESS_END }
{
    match Vaddr::new(from) {
        Some(at) => Want {
            height: 0,
            at,
            len: count * PAGE_BYTES,
        },
        None => unreachable!(),
    }
}

// Makes what is wanted, and answers how many pages and how many fences that took.
fn made<D: Pm>(
    dev: &mut CountingPm<D>,
    frames: &mut Frames,
    wants: &[Want],
) -> Result<(u64, u64), PmFault>
    requires tables { AreTables (D.words dev.old.dev) }
    requires agrees { Agrees (D.words dev.old.dev) frames.old }
    ensures tables { OnOk result (AreTables (D.words dev.new.dev)) }
    ensures agrees { OnOk result (Agrees (D.words dev.new.dev) frames.new) }
{
    if missing(dev, wants) > frames.free() {
        return Err(PmFault);
    }
    let (free, fences) = (frames.free(), dev.fences);
    ensure_all(dev, frames, wants)?;
    Ok((
        free.saturating_sub(frames.free()),
        dev.fences.saturating_sub(fences),
    ))
}

// Where root slot 10 begins.
const BASE: u64 = 10 * SLOT_SPAN;

// The addresses of a table of pages, and those of 512 such tables.
const TABLE: u64 = 512 * PAGE_BYTES;

const HIGHER: u64 = 512 * TABLE;

// At each depth where something is missing it takes two fences.
#[test]
#[tactic(auto, using(crate::proofs::Devices::empty_tables))]
fn wanted_pages_are_made_depth_by_depth(rt: HostRuntime) -> Result<(), Fail> {
    let (mut dev, mut frames) = empty(rt.alloc(), 1024)?;
    // two pages of the same tables
    let shared = [pages(BASE, 1), pages(BASE + 2 * PAGE_BYTES, 1)];
    assert_eq!(rt; made(&mut dev, &mut frames, &shared)?, (3 + 2, 8));
    // they meet where a table ends
    let edge = [
        pages(BASE + TABLE - 2 * PAGE_BYTES, 2),
        pages(BASE + TABLE, 2),
    ];
    assert_eq!(rt; made(&mut dev, &mut frames, &edge)?, (1 + 4, 4));
    // two of five pages are there
    let partly = [pages(BASE, 4), pages(BASE + PAGE_BYTES, 4)];
    assert_eq!(rt; made(&mut dev, &mut frames, &partly)?, (3, 2));
    let many = [pages(BASE + HIGHER, 500), pages(BASE + HIGHER, 1)];
    assert_eq!(rt; made(&mut dev, &mut frames, &many)?, (2 + 500, 6));
    assert_eq!(rt; made(&mut dev, &mut frames, &many)?, (0, 0));
    Ok(())
}
