// Images that a crash may leave, and the steps of a device that remembers them.
use ct_pm::Step;
use pm_trace::TracePm;
use std::alloc::{AllocError, Global};

/// Which image of the allowed ones: each line at its floor, each as it reads, or by turns.
#[derive(Clone, Copy, Debug, PartialEq, Eq)]
pub enum Image {
    Floors,
    Reads,
    EverySecond,
}

/// The three images that are tried at each stop.
pub const IMAGES: [Image; 3] = [Image::Floors, Image::Reads, Image::EverySecond];

/// More steps than any test makes.
const ENDLESS: u64 = 100_000_000;

/// The choice for each of so many lines.
pub fn choices(alloc: Global, image: Image, lines: u64) -> Result<Vec<u64>, AllocError> {
    let mut choices = Vec::new(alloc);
    for line in 0..lines {
        let at_floor = match image {
            Image::Floors => true,
            Image::Reads => false,
            Image::EverySecond => line % 2 == 0,
        };
        choices.push(if at_floor { 0 } else { ENDLESS })?;
    }
    Ok(choices)
}

/// How many steps of each kind a device made.
#[derive(Clone, Copy, Debug, PartialEq, Eq)]
pub struct Steps {
    pub stores: u64,
    pub flushes: u64,
    pub fences: u64,
}

/// The steps that a device made since its clock was at `from`.
pub fn steps_since(dev: &TracePm, from: u64) -> Steps {
    let mut made = Steps {
        stores: 0,
        flushes: 0,
        fences: 0,
    };
    for i in from..dev.clock() {
        match dev.step_at(i) {
            Step::Store { word: _, value: _ } => made.stores = made.stores.saturating_add(1),
            Step::Flush { line: _ } => made.flushes = made.flushes.saturating_add(1),
            Step::Fence => made.fences = made.fences.saturating_add(1),
        }
    }
    made
}
