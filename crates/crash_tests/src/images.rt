// The images that a crash may leave, settled and compared with what stood before and what comes after.
use ct_pm::Pm;
use pm_trace::TracePm;
use record_stops::{IMAGES, choices, settled};
use std::alloc::Global;
use std::process::Abort;
use std::test::Fail;

/// What is found in an image.
#[derive(Clone, Copy, Debug, PartialEq, Eq)]
pub enum Outcome {
    Before,
    After,
    Neither,
}

/// After how many calls the gate of a record is stored, and after how many it is fenced.
#[derive(Clone, Copy, Debug)]
pub struct Gate {
    pub stored: u64,
    pub fenced: u64,
}

impl Gate {
    // Nothing is seen of a record before its gate is stored, and all is once that is fenced.
    fn allows(self, outcome: Outcome, passed: u64) -> bool {
        match outcome {
            Outcome::Before => passed < self.fenced,
            Outcome::After => passed >= self.stored,
            Outcome::Neither => false,
        }
    }
}

/// Who looks at an image that has settled.
pub trait Look {
    fn look(&self, alloc: Global, rested: TracePm) -> Result<Outcome, Fail>;
}

/// Tries the three images of a device that stopped after so many calls.
pub fn check_images<L: Look>(
    rt: &impl Abort,
    alloc: Global,
    look: &L,
    gate: Gate,
    dev: &TracePm,
    passed: u64,
) -> Result<(), Fail> {
    let lines = dev.pages().saturating_mul(64);
    for image in IMAGES {
        let left = dev.crash(alloc, &choices(alloc, image, lines)?, Vec::new(alloc))?;
        let found = match settled(left) {
            Some(rested) => look.look(alloc, rested)?,
            None => Outcome::Neither,
        };
        assert!(rt;
            gate.allows(found, passed),
            "{found:?} in {image:?} after {passed} calls"
        );
    }
    Ok(())
}
