// Writes over a device that stops after each of its calls: what is left, and what it becomes.
ghost use Rattle.std.specs.Prelude.{◌≡◌, ◌≤◌, IfOk};
ghost use Rattle.ct_pm.specs.Images.{IsSettled};
ghost use Rattle.pm_fuse.specs.Fuse.{inner};
ghost use Rattle.pm_trace.specs.Meaning.{history};

use crate::images::{Gate, Look, Outcome, check_images};
use ct_base::{LONG_GATE, SHORT_GATE};
use ct_pm::Step;
use ct_write::Data;
use growth_stops::{Growth, Start, Stopping, with_file};
use pm_fuse::FusePm;
use pm_trace::TracePm;
use std::alloc::{AllocError, Global};
use std::process::Abort;
use std::test::Fail;
use write_stops::{Holder, Wrote, holds, put};

// The room for the steps that lead up to a file, and for those of its writes.
const FIRST_ROOM: u64 = 60_000;

const ROOM: u64 = 10_000;

// As many calls as there may be.
const ALL: u64 = u64::MAX;

// A device that starts with nothing pending.
fn blank(alloc: Global) -> Result<Stopping, Fail>
    ensures { IfOk result (λ device. IsSettled (history (inner device))) }
{
    let words = vec![in alloc; 0; 512 * 256]?;
    Ok(FusePm::new(
        TracePm::new(alloc, words, FIRST_ROOM, Vec::new(alloc))?,
        ALL,
    ))
}

// Where the file has a partition, and no byte.
fn start_of(alloc: Global) -> Result<Start, Fail> {
    let resting = with_file(alloc, blank(alloc)?).ok_or("a file")?;
    match resting.grow_file(2) {
        Growth::Done(grown) => Ok(Start::of(grown).ok_or("a start")?),
        Growth::Stopped(_) | Growth::Refused => Err(Fail::from("growth")),
    }
}

// The bytes that are there before: 10,000 of this one.
const LENGTH: u64 = 10_000;

const OLD: u8 = 7;

const NEW: u8 = 9;

// New bytes at an offset.
#[derive(Clone, Copy)]
struct Scene {
    off: u64,
    len: u64,
}

// The file with the bytes that are there before.
fn before(alloc: Global, start: &Start, passes: u64) -> Result<Holder<Stopping>, Fail> {
    let holder = Holder::of(start.device(alloc, ROOM, passes).ok_or("a device")?);
    let old = Data::Fill {
        len: LENGTH,
        byte: OLD,
    };
    match holder.write(0, old) {
        Wrote::Done(holder) => Ok(holder),
        Wrote::Stopped(_) | Wrote::Refused => Err(Fail::from("the bytes before")),
    }
}

// The device after a scene, as far as so many calls go, and whether it was done.
fn run(alloc: Global, start: &Start, scene: Scene, passes: u64) -> Result<(TracePm, bool), Fail> {
    let new = Data::Fill {
        len: scene.len,
        byte: NEW,
    };
    match before(alloc, start, passes)?.write(scene.off, new) {
        Wrote::Done(holder) => Ok((holder.into_dev().into_inner(), true)),
        Wrote::Stopped(dev) => Ok((dev.into_inner(), false)),
        Wrote::Refused => Err(Fail::from("no room")),
    }
}

// The calls after which the gate of the record is stored, since a moment.
fn stored_since(dev: &TracePm, from: u64) -> u64 {
    for i in from..dev.clock() {
        match dev.step_at(i) {
            Step::Store {
                word: LONG_GATE,
                value: _,
            }
            | Step::Store {
                word: SHORT_GATE,
                value: _,
            } => return i.saturating_add(1),
            _ => {}
        }
    }
    dev.clock()
}

// The bytes before and after a scene.
#[derive(Drop)]
struct Lists {
    before: Vec<u8>,
    after: Vec<u8>,
}

impl Lists {
    fn of(alloc: Global, scene: Scene) -> Result<Lists, AllocError> {
        let before = vec![in alloc; OLD; LENGTH as usize]?;
        let mut after = before.to_vec(alloc)?;
        let bytes = vec![in alloc; NEW; scene.len as usize]?;
        put(&mut after, scene.off as usize, &bytes)?;
        Ok(Lists { before, after })
    }
}

impl Look for Lists {
    fn look(&self, _alloc: Global, rested: TracePm) -> Result<Outcome, Fail> {
        if holds(&rested, &self.before) {
            return Ok(Outcome::Before);
        }
        if holds(&rested, &self.after) {
            return Ok(Outcome::After);
        }
        Ok(Outcome::Neither)
    }
}

// The calls of a scene: those before it, those until its gate is stored and fenced, and all.
#[derive(Clone, Copy)]
struct Calls {
    before: u64,
    gate: Gate,
    all: u64,
}

fn calls_of(alloc: Global, start: &Start, scene: Scene) -> Result<Calls, Fail> {
    let before = before(alloc, start, ALL)?.into_dev().into_inner().clock();
    let (dev, done) = run(alloc, start, scene, ALL)?;
    if !done {
        return Err(Fail::from("a scene that is not done"));
    }
    // the gate is stored, flushed and fenced
    let stored = stored_since(&dev, before);
    Ok(Calls {
        before,
        gate: Gate {
            stored,
            fenced: stored.saturating_add(2),
        },
        all: dev.clock(),
    })
}

// Stops a scene after each so many of its calls, and after each call of its record.
fn stop_after_each(rt: &impl Abort, alloc: Global, scene: Scene, stride: u64) -> Result<(), Fail>
    requires { 1 ≤ stride }
{
    let start = start_of(alloc)?;
    let Calls { before, gate, all } = calls_of(alloc, &start, scene)?;
    let lists = Lists::of(alloc, scene)?;
    for passed in before..all.saturating_add(1) {
        if passed.saturating_add(1) >= gate.stored || passed % stride == 0 {
            let (dev, _) = run(alloc, &start, scene, passed)?;
            check_images(rt, alloc, &lists, gate, &dev, passed)?;
        }
    }
    Ok(())
}

#[test]
fn a_write_of_a_page_stops(rt: HostRuntime) -> Result<(), Fail> {
    let scene = Scene {
        off: 4096,
        len: 4096,
    };
    stop_after_each(&rt, rt.alloc(), scene, 7)
}

#[test]
fn a_write_across_pages_that_lengthens_stops(rt: HostRuntime) -> Result<(), Fail> {
    let scene = Scene {
        off: 8100,
        len: 4100,
    };
    stop_after_each(&rt, rt.alloc(), scene, 13)
}
