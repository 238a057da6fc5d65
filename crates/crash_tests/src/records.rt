ghost use Rattle.std.specs.Prelude.{◌≡◌, ◌≤◌, IfOk};
ghost use Rattle.ct_pm.specs.Images.{IsSettled};
ghost use Rattle.pm_trace.specs.Meaning.{history};

use crate::images::{Gate, Look, Outcome, check_images};
use ct_base::PAGE_WORDS;
use pm_fuse::FusePm;
use pm_trace::TracePm;
use record_stops::{put_pairs, steps_since};
use std::alloc::Global;
use std::process::Abort;
use std::test::Fail;

// The pages of the device.
const PAGES: u64 = 36;

// How many of five pairs the words have, and nothing else, pages 1 to 32 aside. It is 6 where there is something else.
fn pairs_in(words: &[u64]) -> u64 {
    let mut pairs = 0u64;
    for (word, value) in words.iter().enumerate() {
        if (word >= 512 && word < 16896) || *value == 0 || (word == 2 && *value == PAGES) {
            continue;
        }
        if !is_pair(word as u64, *value) || pairs == 5 {
            return 6;
        }
        pairs += 1;
    }
    pairs
}

fn is_pair(word: u64, value: u64) -> bool {
    (0..5).any(|i| word == 16910 + 100 * i && value == 7 + i)
}

// A device with no record, which starts with nothing pending and fails at some of its calls.
fn device(alloc: Global, fails: Vec<u64>) -> Result<TracePm, Fail>
    ensures { IfOk result (λ device. IsSettled (history device)) }
{
    let mut words = Vec::new(alloc);
    for word in 0..PAGE_WORDS * PAGES {
        words.push(if word == 2 { PAGES } else { 0 })?;
    }
    Ok(TracePm::new(alloc, words, 100, fails)?)
}

// A record of so many pairs: its calls, and those until its gate is stored. By two calls more the gate is fenced.
#[derive(Clone, Copy, Debug)]
struct Run {
    pairs: u64,
    calls: u64,
    gate: u64,
}

impl Look for Run {
    fn look(&self, _alloc: Global, rested: TracePm) -> Result<Outcome, Fail> {
        let found = pairs_in(&rested.into_words());
        Ok(if found == 0 {
            Outcome::Before
        } else if found == self.pairs {
            Outcome::After
        } else {
            Outcome::Neither
        })
    }
}

// The device after a record of so many pairs that stops after so many calls, and fails at some of them. It is an error where
// the record is done before its last call, or not by it.
fn stopped(alloc: Global, run: Run, pairs: u64, fails: &[u64], passed: u64) -> Result<TracePm, Fail>
    requires { pairs ≤ 5 }
{
    let fuse = FusePm::new(device(alloc, fails.to_vec(alloc)?)?, passed);
    let (fuse, done) = put_pairs(fuse, pairs);
    if done == (passed == run.calls) {
        Ok(fuse.into_inner())
    } else {
        Err(Fail::from("a record that is done"))
    }
}

// Runs a record of so many pairs, on a device that fails at some of its calls, and stops after each of these.
fn stop_after_each(
    rt: &impl Abort,
    alloc: Global,
    run: Run,
    pairs: u64,
    fails: &[u64],
) -> Result<(), Fail>
    requires { pairs ≤ 5 }
{
    let gate = Gate {
        stored: run.gate,
        fenced: run.gate.saturating_add(2),
    };
    for passed in 0..run.calls.saturating_add(1) {
        let dev = stopped(alloc, run, pairs, fails, passed)?;
        check_images(rt, alloc, &run, gate, &dev, passed)?;
    }
    Ok(())
}

// Pairs are two stores each, and a fourth stores three again. Up to three are armed by three calls; more by a flush of the
// line of the first three, one of each line of long pairs, a fence and three calls. To apply n takes 2 n + 1 calls, and to
// close the gate three.
const RUNS: [Run; 5] = [
    Run {
        pairs: 1,
        calls: 2 + 3 + 3 + 3,
        gate: 3,
    },
    Run {
        pairs: 2,
        calls: 4 + 3 + 5 + 3,
        gate: 5,
    },
    Run {
        pairs: 3,
        calls: 6 + 3 + 7 + 3,
        gate: 7,
    },
    Run {
        pairs: 4,
        calls: 14 + 2 + 1 + 3 + 9 + 3,
        gate: 18,
    },
    Run {
        pairs: 5,
        calls: 16 + 3 + 1 + 3 + 11 + 3,
        gate: 21,
    },
];

#[test]
fn records_stop_after_each_call(rt: HostRuntime) -> Result<(), Fail> {
    for run in RUNS {
        stop_after_each(&rt, rt.alloc(), run, run.pairs.min(5), &[])?;
    }
    Ok(())
}

// A fourth pair that cannot be stored leaves a record of three. It flushes the line of the long pairs before its gate.
#[test]
fn a_fourth_pair_that_fails_leaves_three(rt: HostRuntime) -> Result<(), Fail> {
    for stored in 0..8 {
        let run = Run {
            pairs: 3,
            calls: 6 + stored + 1 + 1 + 3 + 7 + 3,
            gate: 6 + stored + 1 + 1 + 1,
        };
        stop_after_each(&rt, rt.alloc(), run, 4, &[6 + stored])?;
    }
    Ok(())
}

// Up to three pairs are one line: their record makes a fence when it is armed, when it is applied and when its gate is closed.
// A fourth pair makes one more, before the gate. A line in which two of three pairs in a row lie is flushed once for both.
#[test]
fn a_short_record_makes_three_fences(rt: HostRuntime) -> Result<(), Fail> {
    let alloc = rt.alloc();
    for (pairs, stores, flushes, fences) in [
        (1, 2 + 3, 3, 3),
        (2, 4 + 4, 4, 3),
        (3, 6 + 5, 5, 3),
        (4, 14 + 6, 8, 4),
        (5, 16 + 7, 10, 4),
    ] {
        let (dev, done) = put_pairs(device(alloc, Vec::new(alloc))?, pairs);
        let steps = steps_since(&dev, 0);
        let found = (steps.stores, steps.flushes, steps.fences);
        assert_eq!(rt; (done, found), (true, (stores, flushes, fences)));
    }
    Ok(())
}
